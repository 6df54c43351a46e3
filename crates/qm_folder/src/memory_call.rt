//! What a folder in memory has been called for.

ghost use Rattle.std.specs.Prelude.{◌≡◌, IfOk, IsTrue};
ghost use Rattle.qm_folder.specs.Memory.{Fails, IsRemoval, IsRename, IsSync, IsWrite, has_failed};

use std::alloc::{AllocError, Global};

/// A call that a folder in memory has had.
#[derive(Drop)]
pub enum MemoryCall {
    /// A file of this name was written with these bytes.
    Wrote(String, Vec<u8>),
    /// It should have been, and the folder failed when these were there.
    Tore(String, Vec<u8>),
    /// The bytes of a file were synced.
    Synced(String),
    /// The names were.
    SyncedNames,
    /// The file of the first name took the second.
    Renamed(String, String),
    /// A file was removed.
    Removed(String),
    /// A file or the names were read.
    Looked,
    /// Another call failed, and did nothing.
    Failed,
}

impl MemoryCall {
    pub(crate) fn write(alloc: Global, name: &str, bytes: &[u8]) -> Result<MemoryCall, AllocError>
        ensures { IfOk result (IsWrite name.now bytes.now) }
    {
        let name = String::from_str(alloc, name)?;
        Ok(MemoryCall::Wrote(name, bytes.to_vec(alloc)?))
    }

    pub(crate) fn sync(alloc: Global, name: &str) -> Result<MemoryCall, AllocError>
        ensures { IfOk result (IsSync name.now) }
    {
        Ok(MemoryCall::Synced(String::from_str(alloc, name)?))
    }

    pub(crate) fn rename(
        alloc: Global,
        source: &str,
        target: &str,
    ) -> Result<MemoryCall, AllocError>
        ensures { IfOk result (IsRename source.now target.now) }
    {
        let source = String::from_str(alloc, source)?;
        Ok(MemoryCall::Renamed(source, String::from_str(alloc, target)?))
    }

    pub(crate) fn remove(alloc: Global, name: &str) -> Result<MemoryCall, AllocError>
        ensures { IfOk result (IsRemoval name.now) }
    {
        Ok(MemoryCall::Removed(String::from_str(alloc, name)?))
    }

    // The call as one that has failed: of a write half of the bytes are there.
    pub(crate) fn failed(self) -> MemoryCall
        ensures { Fails self result }
    {
        match self {
            MemoryCall::Wrote(name, mut bytes) => {
                bytes.truncate(bytes.len() / 2);
                MemoryCall::Tore(name, bytes)
            }
            _ => MemoryCall::Failed,
        }
    }
}
