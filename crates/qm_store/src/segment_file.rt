//! The file of a stored segment.

use crate::pieces::Pieces;
use crate::store_error::StoreError;
use std::fs::File;
use std::io;
use std::os::unix::fs::FileExt;

/// A file that a stored segment stands in, and how many bytes it has. Such a file is written once, and never changed.
/// No contract speaks of what a file gives.
#[derive(Drop)]
pub struct SegmentFile {
    file: File,
    len: u64,
}

impl SegmentFile {
    /// That file, which was opened for reading.
    ///
    /// Refused where the system doesn't tell how many bytes it has.
    pub fn new(file: File) -> io::Result<SegmentFile> {
        let len = file.metadata()?.len();
        Ok(SegmentFile { file, len })
    }
}

impl Pieces for SegmentFile {
    fn byte_count(&self) -> Result<u64, StoreError> {
        Ok(self.len)
    }

    fn read_at(&self, at: u64, count: u64, into: &mut Vec<u8>) -> Result<(), StoreError> {
        if at > self.len || count > self.len - at {
            return Err(StoreError::Damaged);
        }
        let start = into.len();
        let Some(end) = start.checked_add(count as usize) else {
            return Err(StoreError::Memory);
        };
        into.resize(end, 0)?;
        match self.file.read_exact_at(&mut into[start..], at) {
            Ok(()) => Ok(()),
            Err(_) => Err(StoreError::Failed),
        }
    }
}
