//! A file of a folder.

use crate::{FileStamp, HasPath};

/// A file that is found: its path, and the stamp that it has now.
#[derive(Drop)]
pub struct FoundFile {
    /// the bytes of its path, which need not be a text
    pub path: Vec<u8>,
    pub stamp: FileStamp,
}

impl HasPath for FoundFile {
    ghost use Rattle.qm_folder.specs.Changes.{found_path};

    ghost path = { found_path };

    fn path(&self) -> &[u8] {
        self.path.as_slice()
    }
}
