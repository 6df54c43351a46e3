//! Why a run ends early.

use qm_folder::FolderError;
use qm_schema::QueryError;
use qm_store::StoreError;
use std::alloc::{AllocError, AllocFailed};
use std::io;
use thiserror::Error;

/// Why a run ends early.
#[derive(Debug, Drop, Error)]
pub enum Stopped {
    /// The words ask for nothing that is known.
    #[error("write TEXT FILE, query FILE WORD, places FILE WORD, whole FILE, save TEXT FOLDER or open FOLDER")]
    NoCommand,
    /// What is asked for is not there.
    #[error("there is none")]
    Missing,
    /// There was no memory left.
    #[error("out of memory")]
    Memory,
    /// A file can't be read or written.
    #[error("{0}")]
    File(io::Error),
    /// A segment or an index refused.
    #[error("{0}")]
    Query(QueryError),
    /// What is stored refused.
    #[error("{0}")]
    Store(StoreError),
    /// A folder refused.
    #[error("{0}")]
    Folder(FolderError),
}

impl From<AllocError> for Stopped {
    fn from(_error: AllocError) -> Stopped {
        Stopped::Memory
    }
}

impl<T: Drop> From<AllocFailed<T>> for Stopped {
    fn from(_error: AllocFailed<T>) -> Stopped {
        Stopped::Memory
    }
}

impl From<io::Error> for Stopped {
    fn from(error: io::Error) -> Stopped {
        Stopped::File(error)
    }
}

impl From<QueryError> for Stopped {
    fn from(error: QueryError) -> Stopped {
        Stopped::Query(error)
    }
}

impl From<StoreError> for Stopped {
    fn from(error: StoreError) -> Stopped {
        Stopped::Store(error)
    }
}

impl From<FolderError> for Stopped {
    fn from(error: FolderError) -> Stopped {
        Stopped::Folder(error)
    }
}
