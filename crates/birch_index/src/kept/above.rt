//! The use of an index that is kept of a folder above what is searched.

use crate::ignoring::has_ignore_file;
use crate::index::Index;
use crate::kept::Trouble;
use crate::kept::catalogue::Catalogue;
use crate::kept::gone::Gone;
use crate::kept::home::{Home, home_of, whole_path};
use crate::kept::keys::{found_below, inner_key, key_within};
use crate::kept::opening::{note_again, open};
use crate::kept::reading::{Standing, is_there, read_standing};
use crate::kept::updating::{bring_up_to_date, changes_of};
use crate::kept::using::to_keep;
use crate::reading::{Keeping, Reading};
use crate::walk::{find_files, joined};
use qm_folder::{FoundFile, KeptFile};
use std::alloc::{AllocError, Global};

/// How often an index is read: it may have to be brought up to date between.
const READINGS: u32 = 2;

// An index of a folder above what is searched.
#[derive(Drop)]
struct Above {
    // the folder
    folder: String,
    home: Home,
    // the path that the index keeps of what is searched
    inner: Vec<u8>,
}

/// The index of what is searched, out of one that is kept of a folder above it, as if that had nothing else; none where
/// there is none that has just these files.
pub fn index_above(rt: &HostRuntime, reading: &Reading<'_>) -> Result<Option<Index>, Trouble> {
    let [path] = reading.paths.as_slice() else {
        return Ok(None);
    };
    let is_asked_for = reading.keeping == Keeping::Use || reading.keeping == Keeping::Stale;
    // patterns count from what is searched
    if !is_asked_for || !reading.globs.is_empty() || !reading.types.is_empty() {
        return Ok(None);
    }
    let Some(above) = find_above(rt, reading, path)? else {
        return Ok(None);
    };
    if reading.keeping == Keeping::Stale {
        return as_it_stands(rt, reading, &above);
    }
    up_to_date(rt, reading, &above, path)
}

// The nearest folder above a path of which an index is kept, where that leaves out nothing on the way.
fn find_above(
    rt: &HostRuntime,
    reading: &Reading<'_>,
    path: &str,
) -> Result<Option<Above>, Trouble> {
    let whole = whole_path(rt, path)?;
    let mut folder = whole.as_str();
    // no folder below this one on the path has an index that is kept
    for _ in 0..whole.len() {
        let Some((upper, name)) = folder.rsplit_once('/') else {
            return Ok(None);
        };
        folder = if upper.is_empty() { "/" } else { upper };
        if name.is_empty() || is_left_out(rt, reading, folder, name)? {
            return Ok(None);
        }
        let home = home_of(rt, reading, &[folder])?;
        if is_there(rt, &home)? {
            return Ok(Some(above_of(rt.alloc(), whole.as_str(), folder, home)?));
        }
    }
    Ok(None)
}

// Whether a name in a folder may be left out as the folder is read.
fn is_left_out(
    rt: &HostRuntime,
    reading: &Reading<'_>,
    folder: &str,
    name: &str,
) -> Result<bool, AllocError> {
    if name.starts_with('.') && !reading.has_hidden {
        return Ok(true);
    }
    Ok(!reading.has_ignored && has_ignore_file(rt, folder)?)
}

fn above_of(alloc: Global, whole: &str, folder: &str, home: Home) -> Result<Above, AllocError> {
    let prefix = joined(alloc, folder, "")?.len();
    let below = whole.get(prefix..).unwrap_or("");
    Ok(Above {
        folder: String::from_str(alloc, folder)?,
        home,
        inner: inner_key(alloc, below)?,
    })
}

// The index as it stands.
fn as_it_stands(
    rt: &HostRuntime,
    reading: &Reading<'_>,
    above: &Above,
) -> Result<Option<Index>, Trouble> {
    match read_standing(rt, &above.home)? {
        Some(standing) => Ok(Some(open_within(rt, reading, above, standing, 0)?)),
        None => Ok(None),
    }
}

// The index, where it has the files of what is searched as they are; if it hasn't, it is brought up to date, and then
// looked at again.
fn up_to_date(
    rt: &HostRuntime,
    reading: &Reading<'_>,
    above: &Above,
    path: &str,
) -> Result<Option<Index>, Trouble> {
    let mut read = 0;
    // in each turn so far the files changed behind the reading
    for turn in 1..=READINGS {
        let found = find_files(rt, reading, &reading.paths)?;
        if found.iter().any(|file| file.is_stream) {
            return Err(Trouble::Stream);
        }
        let files = found_below(rt.alloc(), path, &above.inner, &found)?;
        let Some(standing) = read_standing(rt, &above.home)? else {
            return Ok(None);
        };
        if has_just(rt.alloc(), &standing.catalogue, above, &files)? {
            return Ok(Some(open_within(rt, reading, above, standing, read)?));
        }
        drop(standing);
        if turn < READINGS {
            read = update(rt, reading, above)?;
        }
    }
    Ok(None)
}

// Whether of what is searched an index has just these files, as they are.
fn has_just(
    alloc: Global,
    catalogue: &Catalogue,
    above: &Above,
    files: &[FoundFile],
) -> Result<bool, Trouble> {
    let changes = changes_of(alloc, kept_within(&catalogue.kept, &above.inner), files)?;
    Ok(changes.gone.is_empty() && changes.to_read.is_empty())
}

// The files at an inner path or below it. They stand one behind the other.
fn kept_within<'a>(kept: &'a [KeptFile], inner: &[u8]) -> &'a [KeptFile] {
    let first = kept.partition_point(|file| file.path.as_slice() < inner);
    let rest = kept.get(first..).unwrap_or(&[]);
    let count = rest
        .iter()
        .take_while(|file| is_within(inner, &file.path))
        .count();
    rest.get(..count).unwrap_or(&[])
}

fn is_within(inner: &[u8], key: &[u8]) -> bool {
    match key.strip_prefix(inner) {
        Some(rest) => rest.first().is_none_or(|byte| *byte == 0),
        None => false,
    }
}

// Brings the whole index up to date, and answers how many files were read.
fn update(rt: &HostRuntime, reading: &Reading<'_>, above: &Above) -> Result<usize, Trouble> {
    let files = to_keep(rt, reading, &[above.folder.as_str()])?;
    let (_, read) = bring_up_to_date(rt, reading, &above.home, files, false)?;
    Ok(read)
}

// The index as if it had nothing but what is searched.
fn open_within(
    rt: &HostRuntime,
    reading: &Reading<'_>,
    above: &Above,
    standing: Standing,
    read: usize,
) -> Result<Index, Trouble> {
    let Standing {
        segments,
        catalogue,
    } = standing;
    let (catalogue, others) = within(rt.alloc(), catalogue, &above.inner)?;
    note_again(rt, reading, &catalogue, &[])?;
    let standing = Standing {
        segments,
        catalogue,
    };
    open(rt, reading, &above.home, standing, &others, read)
}

// What an index of an inner path alone would know, and the files that it wouldn't.
fn within(
    alloc: Global,
    catalogue: Catalogue,
    inner: &[u8],
) -> Result<(Catalogue, Gone), AllocError> {
    let Catalogue {
        asked,
        kept,
        known,
        ..
    } = catalogue;
    let mut part = Catalogue::new(alloc, asked);
    let mut others = Vec::new(alloc);
    // the files before this one are in the part, or their numbers are among the others
    for (file, known) in kept.iter().zip(known.iter()) {
        match key_within(alloc, inner, &file.path)? {
            Some(path) => {
                let file = KeptFile {
                    path,
                    stamp: file.stamp,
                    settled: file.settled,
                };
                part.kept.push(file)?;
                part.known.push(*known)?;
            }
            None => {
                if let Some(number) = known.number {
                    others.push(number)?;
                }
            }
        }
    }
    Ok((part, Gone::new(others)))
}
