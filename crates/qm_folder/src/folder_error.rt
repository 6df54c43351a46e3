//! Why a call on a folder was refused.

ghost use Rattle.std.specs.Prelude.{◌≡◌};

use std::alloc::{AllocError, AllocFailed};
use std::io;
use std::io::ErrorKind;
use thiserror::Error;

/// Why a call on a folder was refused.
#[derive(Clone, Copy, Debug, PartialEq, Eq, Error)]
pub enum FolderError {
    /// There was no memory left.
    #[error("out of memory")]
    Memory,
    /// The folder, or the system that it is of, has failed.
    #[error("the folder could not be read or written")]
    Failed,
}

impl From<AllocError> for FolderError {
    ghost use Rattle.qm_folder.specs.declared.folder_error.FolderError.TheVariants.{Memory};

    ghost from_gives = { λ _ e. e ≡ Memory };

    fn from(_error: AllocError) -> FolderError {
        FolderError::Memory
    }
}

impl<T: Drop> From<AllocFailed<T>> for FolderError {
    ghost use Rattle.qm_folder.specs.declared.folder_error.FolderError.TheVariants.{Memory};

    ghost from_gives = { λ _ e. e ≡ Memory };

    fn from(_error: AllocFailed<T>) -> FolderError {
        FolderError::from(AllocError)
    }
}

impl From<io::Error> for FolderError {
    fn from(error: io::Error) -> FolderError {
        if error.kind() == ErrorKind::OutOfMemory {
            return FolderError::Memory;
        }
        FolderError::Failed
    }
}
