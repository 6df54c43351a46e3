//! The files of an index, read.

use crate::kept::Trouble;
use crate::kept::catalogue::Catalogue;
use crate::kept::catalogue_bytes::read_catalogue;
use crate::kept::home::Home;
use qm_folder::MANIFEST;
use qm_store::{KeptSegment, SegmentFile, read_manifest};
use std::fs::File;
use std::{fs, io};

/// An index as it is kept: its segments, and what it knows of files.
#[derive(Drop)]
pub struct Standing {
    /// The files of each segment.
    pub segments: Vec<KeptSegment>,
    /// What it knows of files and segments.
    pub catalogue: Catalogue,
}

/// Whether an index is kept there, be it sound or not.
pub fn is_there(rt: &HostRuntime, home: &Home) -> Result<bool, Trouble> {
    let path = home.path_of(rt.alloc(), MANIFEST)?;
    match fs::symlink_metadata(rt, path.as_str()) {
        Ok(_) => Ok(true),
        Err(error) if is_nothing(&error) => Ok(false),
        Err(error) => Err(Trouble::from(error)),
    }
}

// Whether an error says that no file stands there.
fn is_nothing(error: &io::Error) -> bool {
    error.kind() == io::ErrorKind::NotFound
}

/// The index that is kept there; none where there is none.
pub fn read_standing(rt: &HostRuntime, home: &Home) -> Result<Option<Standing>, Trouble> {
    let alloc = rt.alloc();
    if !is_there(rt, home)? {
        return Ok(None);
    }
    let bytes = read_whole(rt, home, MANIFEST)?;
    let manifest = read_manifest(alloc, &bytes)?;
    let catalogue = read_catalogue(alloc, &manifest.note)?;
    if catalogue.asked != home.asked {
        return Err(Trouble::OtherPaths);
    }
    if catalogue.spans.len() != manifest.segments.len() {
        return Err(Trouble::Damaged);
    }
    Ok(Some(Standing {
        segments: manifest.segments,
        catalogue,
    }))
}

/// The bytes of a file of an index.
pub fn read_whole(rt: &HostRuntime, home: &Home, name: &str) -> Result<Vec<u8>, Trouble> {
    let path = home.path_of(rt.alloc(), name)?;
    match fs::read(rt, path.as_str()) {
        Ok(bytes) => Ok(bytes),
        Err(error) if is_nothing(&error) => Err(Trouble::Missing),
        Err(error) => Err(Trouble::from(error)),
    }
}

/// A file of an index, of which parts are read.
pub fn open_file(rt: &HostRuntime, home: &Home, name: &str) -> Result<SegmentFile, Trouble> {
    let path = home.path_of(rt.alloc(), name)?;
    let opened: io::Result<File> = fs::open(rt, path.as_str());
    match opened {
        Ok(file) => Ok(SegmentFile::new(file)?),
        Err(error) if is_nothing(&error) => Err(Trouble::Missing),
        Err(error) => Err(Trouble::from(error)),
    }
}
