//! A file of an index.

use crate::{FileStamp, HasPath};

/// A file that an index has kept: its path, the stamp under which it was read, and whether that stamp is to be believed
/// (`is_settled`).
#[derive(Drop)]
pub struct KeptFile {
    /// the bytes of its path, which need not be a text
    pub path: Vec<u8>,
    pub stamp: FileStamp,
    pub settled: bool,
}

impl HasPath for KeptFile {
    ghost use Rattle.qm_folder.specs.Changes.{kept_path};

    ghost path = { kept_path };

    fn path(&self) -> &[u8] {
        self.path.as_slice()
    }
}
