//! A folder that keeps the last manifest, and no other file.

use qm_folder::{Folder, FolderError, STAGED};
use std::alloc::Global;

/// A folder that keeps the last manifest that was written, and no other file: what an index that is saved in it calls its
/// files is all that is asked of it. Nothing is claimed of it as a folder.
#[derive(Drop)]
pub(crate) struct ManifestKeeper {
    alloc: Global,
    pub(crate) manifest: Vec<u8>,
}

impl ManifestKeeper {
    pub(crate) fn new(alloc: Global) -> ManifestKeeper {
        ManifestKeeper {
            alloc,
            manifest: Vec::new(alloc),
        }
    }
}

impl Folder for ManifestKeeper {
    ghost use Rattle.qm_folder.specs.System.{untold};

    ghost disk = { λ _. untold };

    ghost is_told = { ⊥ };

    ghost counts_now = { λ f t c told le now. absurd told };

    ghost only_now = { λ f c told left. absurd told };

    fn write(&mut self, name: &str, bytes: &[u8]) -> Result<(), FolderError> {
        if name == STAGED {
            self.manifest = bytes.to_vec(self.alloc)?;
        }
        Ok(())
    }

    fn sync(&mut self, _name: &str) -> Result<(), FolderError> {
        Ok(())
    }

    fn sync_names(&mut self) -> Result<(), FolderError> {
        Ok(())
    }

    fn rename(&mut self, _source: &str, _target: &str) -> Result<(), FolderError> {
        Ok(())
    }

    fn remove(&mut self, _name: &str) -> Result<(), FolderError> {
        Ok(())
    }

    fn read(&mut self, _alloc: Global, _name: &str) -> Result<Option<Vec<u8>>, FolderError> {
        Ok(None)
    }

    fn list(&mut self, alloc: Global) -> Result<Vec<String>, FolderError> {
        Ok(Vec::new(alloc))
    }
}
