//! A folder in memory.

ghost use Rattle.std.specs.Prelude.{◌≡◌, [], ◌∷◌, option_map};

use crate::replay::{could_leave_after, names_after, seen_after};
use crate::{Folder, FolderError, MemoryCall};
use std::alloc::{AllocError, Global};

/// A folder in memory, which has no file at first. It keeps each call that it has had, so that it can tell what a crash may
/// leave; a call looks through all of them.
#[derive(Drop)]
pub struct MemoryFolder {
    alloc: Global,
    calls: Vec<MemoryCall>,
    calls_left: Option<usize>,
}

impl MemoryFolder {
    ghost use Rattle.qm_folder.specs.MemoryFolder.{calls_of};
    ghost use Rattle.qm_folder.specs.Memory.{Takes, could_leave, disk_after};
    ghost use Rattle.qm_folder.specs.Disk.{IsSettled};

    /// A folder without files.
    pub fn new(alloc: Global) -> MemoryFolder
        ensures empty { calls_of result ≡ [] }
        ensures settled { IsSettled (disk_after (calls_of result)) }
    {
        MemoryFolder {
            alloc,
            calls: Vec::new(alloc),
            calls_left: None,
        }
    }

    /// Lets one call fail, the one behind so many that don't. A write that fails leaves half of the bytes, and another call
    /// does nothing.
    pub fn fail_after(&mut self, calls: usize)
        ensures { calls_of self.new ≡ calls_of self.old }
    {
        self.calls_left = Some(calls);
    }

    /// The calls that it has had, the last first.
    pub fn calls(&self) -> &[MemoryCall]
        ensures { result.now ≡ calls_of self.now }
    {
        &self.calls
    }

    /// Whether a crash may leave this under a name: the bytes of a file, or none. Costs a step for each call that it has had,
    /// and twice as many behind each rename of the name.
    pub fn may_leave(&self, name: &str, content: Option<&[u8]>) -> bool
        ensures { result ≡ could_leave (calls_of self.now) name.now (option_map (λ b. b.now) content.entry) }
    {
        could_leave_after(&self.calls, name, content)
    }

    // Whether this call is the one that is to fail.
    fn is_failing(&mut self) -> bool
        ensures { calls_of self.new ≡ calls_of self.old }
    {
        match self.calls_left {
            None => false,
            Some(0) => {
                self.calls_left = None;
                true
            }
            Some(left) => {
                self.calls_left = Some(left - 1);
                false
            }
        }
    }

    // Keeps a call, as one that has failed where it is to fail.
    fn take(&mut self, made: Result<MemoryCall, AllocError>) -> Result<(), FolderError>
        ensures { Takes made (calls_of self.old) (calls_of self.new) result }
    {
        let call = made?;
        if self.is_failing() {
            self.calls.insert(0, call.failed())?;
            return Err(FolderError::Failed);
        }
        self.calls.insert(0, call)?;
        Ok(())
    }
}

impl Folder for MemoryFolder {
    ghost use Rattle.qm_folder.specs.Memory.{counts_now, disk_after, only_now};

    ghost disk = { λ m. disk_after m.calls.items };

    ghost is_told = { Unit {0} };

    ghost counts_now = { λ m t c told le now. counts_now m.calls.items t c now };

    ghost only_now = { λ m c told left. only_now m.calls.items c left };

    fn write(&mut self, name: &str, bytes: &[u8]) -> Result<(), FolderError> {
        self.take(MemoryCall::write(self.alloc, name, bytes))
    }

    fn sync(&mut self, name: &str) -> Result<(), FolderError> {
        self.take(MemoryCall::sync(self.alloc, name))
    }

    fn sync_names(&mut self) -> Result<(), FolderError> {
        self.take(Ok(MemoryCall::SyncedNames))
    }

    fn rename(&mut self, source: &str, target: &str) -> Result<(), FolderError> {
        self.take(MemoryCall::rename(self.alloc, source, target))
    }

    fn remove(&mut self, name: &str) -> Result<(), FolderError> {
        self.take(MemoryCall::remove(self.alloc, name))
    }

    fn read(&mut self, alloc: Global, name: &str) -> Result<Option<Vec<u8>>, FolderError> {
        self.take(Ok(MemoryCall::Looked))?;
        match seen_after(&self.calls, name) {
            None => Ok(None),
            Some(bytes) => Ok(Some(bytes.to_vec(alloc)?)),
        }
    }

    fn list(&mut self, alloc: Global) -> Result<Vec<String>, FolderError> {
        self.take(Ok(MemoryCall::Looked))?;
        Ok(names_after(alloc, &self.calls)?)
    }
}
