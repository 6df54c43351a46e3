//! Files that are given by hand: those that an index has kept, and those that are found.

use cases::{Fault, behind};
use qm_folder::{FileStamp, FoundFile, KeptFile};
use std::alloc::Global;

/// Files that an index has kept, and files that are found.
#[derive(Drop)]
pub struct GivenFiles {
    pub kept: Vec<KeptFile>,
    pub found: Vec<FoundFile>,
}

impl GivenFiles {
    /// Those of the words `changes FILE .. ; FILE ..`. A file is `PATH:SIZE:BYTES_CHANGED:CHANGED:INODE`, and a kept one
    /// that is not settled has `:unsettled` behind it.
    pub fn make(alloc: Global, words: &[&str]) -> Result<GivenFiles, Fault> {
        let mut files = GivenFiles {
            kept: Vec::new(alloc),
            found: Vec::new(alloc),
        };
        let mut is_kept = true;
        // the files of the words before this one are there, kept ones up to the `;` and found ones behind it
        for word in behind(words, 1) {
            if *word == ";" {
                is_kept = false;
            } else if is_kept {
                files.kept.push(read_kept(alloc, word)?)?;
            } else {
                files.found.push(read_found(alloc, word)?)?;
            }
        }
        Ok(files)
    }
}

fn read_kept(alloc: Global, word: &str) -> Result<KeptFile, Fault> {
    let (spelled, settled) = match word.strip_suffix(":unsettled") {
        Some(spelled) => (spelled, false),
        None => (word, true),
    };
    let FoundFile { path, stamp } = read_found(alloc, spelled)?;
    Ok(KeptFile {
        path,
        stamp,
        settled,
    })
}

fn read_found(alloc: Global, word: &str) -> Result<FoundFile, Fault> {
    let Some((path, stamp)) = word.split_once(':') else {
        return Err(Fault::NotUnderstood);
    };
    Ok(FoundFile {
        path: read_path(alloc, path)?,
        stamp: read_stamp(alloc, stamp)?,
    })
}

// The bytes of a path: a text, in which a byte stands as `%ff%`.
fn read_path(alloc: Global, spelled: &str) -> Result<Vec<u8>, Fault> {
    let mut path = Vec::new(alloc);
    let mut is_byte = false;
    // the path has what the parts before this one spell, and `is_byte` says whether this one is a byte
    for part in spelled.split('%') {
        if is_byte {
            let byte = u8::from_str_radix(part, 16).map_err(|_| Fault::NotUnderstood)?;
            path.push(byte)?;
        } else {
            path.extend_from_slice(part.as_bytes())?;
        }
        is_byte = !is_byte;
    }
    Ok(path)
}

// The stamp of `SIZE:BYTES_CHANGED:CHANGED:INODE`.
fn read_stamp(alloc: Global, spelled: &str) -> Result<FileStamp, Fault> {
    let mut numbers: Vec<u64> = Vec::new(alloc);
    // the numbers of the parts before this one are there
    for part in spelled.split(':') {
        numbers.push(part.parse().map_err(|_| Fault::NotUnderstood)?)?;
    }
    match numbers.as_slice() {
        [size, bytes_changed, changed, inode] => Ok(FileStamp {
            size: *size,
            bytes_changed: *bytes_changed,
            changed: *changed,
            inode: *inode,
        }),
        _ => Err(Fault::NotUnderstood),
    }
}
