//! The lock of an index, which a run holds while it changes it.

use crate::kept::Trouble;
use crate::kept::home::Home;
use crate::kept::names::LOCK;
use std::fs::{File, OpenFile, OpenOptions, TryLockError};
use std::os::unix::fs::OpenOptionsExt;

/// Who may read and write the file: its owner.
const OF_OWNER_ALONE: u32 = 0o600;

/// Locks the index of a folder that is there, as long as what is given lives.
pub fn lock(rt: &HostRuntime, home: &Home) -> Result<File, Trouble> {
    let path = home.path_of(rt.alloc(), LOCK)?;
    let mut options = OpenOptions::new();
    options.write(true);
    options.create(true);
    options.mode(OF_OWNER_ALONE);
    let file: File = options.open(rt, path.as_str())?;
    match file.try_lock() {
        Ok(()) => Ok(file),
        Err(TryLockError::WouldBlock) => Err(Trouble::Locked),
        Err(TryLockError::Error(error)) => Err(Trouble::from(error)),
    }
}
