//! Ignore files: what they name in their folder and below it is not read.

use crate::files::read_bytes;
use crate::reading::Reading;
use crate::walk::joined;
use birch_text::{PathRules, Sense};
use std::alloc::{AllocError, Global};
use std::{fs, io};

/// The names of ignore files; what a later one says counts more.
const NAMES: [&str; 2] = [".gitignore", ".ignore"];

/// How many bytes of an ignore file are read.
const MOST_BYTES: u64 = 1 << 20;

// The ignore files of a folder.
#[derive(Drop)]
struct Level {
    rules: PathRules,
    // how many bytes of a path stand in front of what is below the folder
    prefix: usize,
    // the nearest folder above that has ignore files, by its number
    above: Option<usize>,
}

/// The ignore files of all folders that were entered.
#[derive(Drop)]
pub struct Ignoring {
    levels: Vec<Level>,
}

impl Ignoring {
    /// No folder was entered yet.
    pub fn new(alloc: Global) -> Ignoring {
        Ignoring {
            levels: Vec::new(alloc),
        }
    }

    /// Reads the ignore files of a folder in another one, and gives the number for what is below it.
    pub fn enter(
        &mut self,
        rt: &HostRuntime,
        reading: &Reading<'_>,
        folder: &str,
        above: Option<usize>,
    ) -> Result<Option<usize>, AllocError> {
        let alloc = rt.alloc();
        let mut rules = PathRules::new(alloc);
        // the rules of the files before this name are read
        for name in NAMES {
            let path = joined(alloc, folder, name)?;
            add_file(rt, reading, path.as_str(), &mut rules)?;
        }
        if rules.is_empty() {
            return Ok(above);
        }
        let number = self.levels.len();
        let prefix = joined(alloc, folder, "")?.len();
        self.levels.push(Level {
            rules,
            prefix,
            above,
        })?;
        Ok(Some(number))
    }

    /// Whether a path is named by the ignore files of that number, or of folders above. The nearest one that names it
    /// decides.
    pub fn has(&self, number: Option<usize>, path: &str, is_folder: bool) -> bool {
        let mut number = number;
        // no level below this one says anything of the path
        for _ in 0..self.levels.len() {
            let Some(level) = number.and_then(|number| self.levels.get(number)) else {
                return false;
            };
            let below = path.get(level.prefix..).unwrap_or(path);
            match level.rules.sense_of(below, is_folder) {
                Some(sense) => return sense == Sense::Plain,
                None => number = level.above,
            }
        }
        false
    }
}

/// Whether there is an ignore file in a folder, so far as that can be told.
pub fn has_ignore_file(rt: &HostRuntime, folder: &str) -> Result<bool, AllocError> {
    // no file of the names before this one is there
    for name in NAMES {
        let path = joined(rt.alloc(), folder, name)?;
        if fs::symlink_metadata(rt, path.as_str()).is_ok() {
            return Ok(true);
        }
    }
    Ok(false)
}

// Adds the patterns of an ignore file, where there is one.
fn add_file(
    rt: &HostRuntime,
    reading: &Reading<'_>,
    path: &str,
    rules: &mut PathRules,
) -> Result<(), AllocError> {
    match read_bytes(rt, path, MOST_BYTES) {
        Ok((bytes, _)) => {
            let text = String::from_utf8_lossy(rt.alloc(), &bytes)?;
            rules.add_lines(rt.alloc(), text.as_str())
        }
        Err(error) if error.kind() == io::ErrorKind::NotFound => Ok(()),
        Err(error) => reading.notes.add_error(rt, reading, path, &error),
    }
}
