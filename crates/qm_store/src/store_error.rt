//! Why what is stored can't be read or written.

ghost use Rattle.std.specs.Prelude.{◌≡◌};
ghost use Rattle.qm_store.specs.declared.store_error.StoreError.TheVariants.{Memory};

use qm_schema::QueryError;
use std::alloc::{AllocError, AllocFailed};
use thiserror::Error;

/// Why a file of an index, such as a stored segment, can't be read or written.
#[derive(Clone, Copy, Debug, PartialEq, Eq, Error)]
pub enum StoreError {
    /// There was no memory left.
    #[error("out of memory")]
    Memory,
    /// What holds the bytes, or takes them, refused.
    #[error("the bytes can't be read or written")]
    Failed,
    /// The bytes are no file of this kind at all.
    #[error("not a file of this kind")]
    OtherFile,
    /// The bytes are a file of a version that is not read here.
    #[error("a file of another version")]
    OtherVersion,
    /// They are one that is not whole: a part of it ends too early, or its digest is another, or says what can't be.
    #[error("the file is damaged")]
    Damaged,
}

impl From<AllocError> for StoreError {
    ghost from_gives = { λ _ e. e ≡ Memory };

    fn from(_error: AllocError) -> StoreError {
        StoreError::Memory
    }
}

impl<T: Drop> From<AllocFailed<T>> for StoreError {
    ghost from_gives = { λ _ e. e ≡ Memory };

    fn from(_error: AllocFailed<T>) -> StoreError {
        StoreError::Memory
    }
}
