//! Which files there are.

use crate::ignoring::Ignoring;
use crate::kept::folder_of_indexes;
use crate::left_out::LeftOut;
use crate::reading::Reading;
use crate::stamps::stamp_of;
use birch_text::{Sense, is_of_type};
use qm_folder::FileStamp;
use std::alloc::{AllocError, Global};
use std::fs::Metadata;
use std::{fs, io};

/// What of a path that isn't a file that can be read again is known of its changes: nothing.
const NO_STAMP: FileStamp = FileStamp {
    size: 0,
    bytes_changed: 0,
    changed: 0,
    inode: 0,
};

/// A file that is to be read.
#[derive(Drop)]
pub struct Found {
    /// Its path.
    pub path: String,
    /// Which of the paths that were given it stands below.
    pub root: u32,
    /// What tells whether it changes, and how many bytes it has, where that is known.
    pub stamp: FileStamp,
    /// Whether it can be read once alone, as a pipe.
    pub is_stream: bool,
}

/// The files at these paths and below them, in the order of the paths and then of names. What isn't read is
/// noted.
pub fn find_files(
    rt: &HostRuntime,
    reading: &Reading<'_>,
    paths: &[&str],
) -> Result<Vec<Found>, AllocError> {
    reading.notes.begin();
    let alloc = rt.alloc();
    let mut files = Vec::new(alloc);
    let mut walk = Walk::new(rt, reading, paths)?;
    // the files on the paths so far are there, and what is left to look at waits
    for _ in 0..u64::MAX {
        let Some(next) = walk.next_path() else {
            break;
        };
        let (stamp, is_stream) = match look(rt, reading, &next)? {
            At::Folder => {
                walk.enter(rt, reading, &next)?;
                continue;
            }
            At::File(stamp) => (stamp, false),
            At::Stream => (NO_STAMP, true),
            At::Nothing => continue,
        };
        files.push(Found {
            path: next.path,
            root: next.root,
            stamp,
            is_stream,
        })?;
    }
    Ok(files)
}

/// The path of a name in a folder; in the current one the name alone, but for `-`, which alone is standard input.
pub fn joined(alloc: Global, folder: &str, name: &str) -> Result<String, AllocError> {
    let mut path = String::new(alloc);
    if folder != "." || name == "-" {
        path.push_str(folder)?;
        if !folder.ends_with('/') {
            path.push('/')?;
        }
    }
    path.push_str(name)?;
    Ok(path)
}

/// The last name of a path.
pub fn own_name(path: &str) -> &str {
    match path.rsplit_once('/') {
        Some((_, name)) => name,
        None => path,
    }
}

// A path that is still to be looked at.
#[derive(Drop)]
struct Waiting {
    path: String,
    // which of the paths that were given it stands below
    root: u32,
    // how many bytes of the path stand in front of what is below that one
    prefix: usize,
    // what stands there, where its folder was listed
    seen: Option<Seen>,
    // by which ignore files names below it are left out
    ignored_by: Option<usize>,
}

// What stands at a path, as the system tells it.
#[derive(Clone, Copy)]
struct Seen {
    is_folder: bool,
    is_file: bool,
    stamp: FileStamp,
}

impl Seen {
    fn of(found: &Metadata) -> Seen {
        Seen {
            is_folder: found.is_dir(),
            is_file: found.is_file(),
            stamp: stamp_of(found),
        }
    }
}

// Paths that are still to be looked at, the next one last.
#[derive(Drop)]
struct Walk {
    left: Vec<Waiting>,
    ignoring: Ignoring,
    // the folder of the indexes that are kept, where there is one
    indexes: Option<String>,
}

impl Walk {
    // Begins with these paths.
    fn new(rt: &HostRuntime, reading: &Reading<'_>, paths: &[&str]) -> Result<Walk, AllocError> {
        let alloc = rt.alloc();
        let mut left = Vec::new(alloc);
        // the paths behind this one wait, the last of all lowest
        for (number, path) in paths.iter().enumerate().rev() {
            left.push(Waiting {
                path: String::from_str(alloc, path)?,
                root: u32::try_from(number).unwrap_or(u32::MAX),
                prefix: joined(alloc, path, "")?.len(),
                seen: None,
                ignored_by: None,
            })?;
        }
        Ok(Walk {
            left,
            ignoring: Ignoring::new(alloc),
            indexes: folder_of_indexes(rt, reading)?,
        })
    }

    // The next path.
    fn next_path(&mut self) -> Option<Waiting> {
        self.left.pop()
    }

    // Whether a folder is the one of the indexes that are kept, which is not read.
    fn is_of_indexes(&self, rt: &HostRuntime, path: &str) -> Result<bool, AllocError> {
        let Some(indexes) = &self.indexes else {
            return Ok(false);
        };
        if own_name(path) != own_name(indexes.as_str()) {
            return Ok(false);
        }
        match fs::canonicalize(rt, path) {
            Ok(whole) => Ok(whole.as_str() == indexes.as_str()),
            Err(error) if error.kind() == io::ErrorKind::OutOfMemory => Err(AllocError),
            Err(_) => Ok(false),
        }
    }

    // Has the names of a folder looked at next, in the order of names, links and other left away. What
    // can't be read is noted.
    fn enter(
        &mut self,
        rt: &HostRuntime,
        reading: &Reading<'_>,
        folder: &Waiting,
    ) -> Result<(), AllocError> {
        let path = folder.path.as_str();
        if self.is_of_indexes(rt, path)? {
            return Ok(());
        }
        let ignored_by = if reading.has_ignored {
            None
        } else {
            self.ignoring.enter(rt, reading, path, folder.ignored_by)?
        };
        let listed = list(rt, reading, folder, &self.ignoring, ignored_by);
        let mut found = match listed {
            Ok(found) => found,
            Err(error) => return reading.notes.add_error(rt, reading, path, &error),
        };
        found.sort_unstable_by(|one, other| own_name(one.path.as_str()).cmp(own_name(
            other.path.as_str(),
        )));
        // as many as there were turns wait, the last found lowest
        for _ in 0..found.len() {
            if let Some(next) = found.pop() {
                self.left.push(next)?;
            }
        }
        Ok(())
    }
}

// The files and folders of a folder that are read.
fn list(
    rt: &HostRuntime,
    reading: &Reading<'_>,
    folder: &Waiting,
    ignoring: &Ignoring,
    ignored_by: Option<usize>,
) -> io::Result<Vec<Waiting>> {
    let mut found = Vec::new(rt.alloc());
    // of the entries before this one those that are wanted are there
    for entry in fs::read_dir(rt, folder.path.as_str())? {
        match entry {
            Ok(entry) => {
                let next = wanted(rt, reading, folder, entry.file_name())?;
                if let Some(next) = next {
                    let is_ignored = ignoring.has(ignored_by, next.path.as_str(), next.is_folder());
                    if !is_ignored {
                        found.push(Waiting { ignored_by, ..next })?;
                    }
                }
            }
            Err(error) => not_listed(rt, reading, folder, &error)?,
        }
    }
    Ok(found)
}

// Notes a name of a folder that can't be told.
fn not_listed(
    rt: &HostRuntime,
    reading: &Reading<'_>,
    folder: &Waiting,
    error: &io::Error,
) -> Result<(), AllocError> {
    let path = joined(rt.alloc(), folder.path.as_str(), "?")?;
    reading.notes.add_error(rt, reading, path.as_str(), error)
}

impl Waiting {
    fn is_folder(&self) -> bool {
        match self.seen {
            Some(seen) => seen.is_folder,
            None => false,
        }
    }
}

// A name in a folder, where it is read but for ignore files.
fn wanted(
    rt: &HostRuntime,
    reading: &Reading<'_>,
    folder: &Waiting,
    name: &str,
) -> io::Result<Option<Waiting>> {
    if name.starts_with('.') && !reading.has_hidden {
        return Ok(None);
    }
    let path = joined(rt.alloc(), folder.path.as_str(), name)?;
    let found = match fs::symlink_metadata(rt, path.as_str()) {
        Ok(found) => found,
        Err(error) => {
            reading.notes.add_error(rt, reading, path.as_str(), &error)?;
            return Ok(None);
        }
    };
    let seen = Seen::of(&found);
    let below = if folder.path.as_str() == "." {
        name
    } else {
        path.as_str().get(folder.prefix..).unwrap_or(name)
    };
    if !is_asked_for(reading, name, below, seen) {
        return Ok(None);
    }
    Ok(Some(Waiting {
        path,
        root: folder.root,
        prefix: folder.prefix,
        seen: Some(seen),
        ignored_by: None,
    }))
}

// Whether a name in a folder, by its path below the one that was given, is a folder or file that the reading ask for.
fn is_asked_for(reading: &Reading<'_>, name: &str, below: &str, seen: Seen) -> bool {
    let sense = reading.glob_rules.sense_of(below, seen.is_folder);
    if seen.is_folder || !reading.glob_rules.has_plain() {
        if sense == Some(Sense::Turned) {
            return false;
        }
    } else if sense != Some(Sense::Plain) {
        return false;
    }
    seen.is_folder || (seen.is_file && is_of_types(reading, name))
}

// Whether a file's own name is of one of the kinds, where there are any.
fn is_of_types(reading: &Reading<'_>, name: &str) -> bool {
    reading.types.is_empty() || reading.types.iter().any(|kind| is_of_type(kind, name))
}

// What stands at a path.
#[derive(Clone, Copy)]
enum At {
    // a folder
    Folder,
    // a file, which can be read again
    File(FileStamp),
    // what can be read once alone, as a pipe
    Stream,
    // nothing that is read
    Nothing,
}

// What stands at a path. What isn't read is noted.
fn look(rt: &HostRuntime, reading: &Reading<'_>, next: &Waiting) -> Result<At, AllocError> {
    let path = next.path.as_str();
    if path == "-" {
        return Ok(At::Stream);
    }
    let seen = match next.seen {
        Some(seen) => seen,
        None => match fs::metadata(rt, path) {
            Ok(found) => Seen::of(&found),
            Err(error) => {
                reading.notes.add_error(rt, reading, path, &error)?;
                return Ok(At::Nothing);
            }
        },
    };
    if seen.is_folder {
        return Ok(At::Folder);
    }
    if seen.stamp.size > reading.max_size {
        reading.notes.add(rt, path, LeftOut::TooLarge);
        return Ok(At::Nothing);
    }
    if seen.is_file {
        Ok(At::File(seen.stamp))
    } else {
        Ok(At::Stream)
    }
}
