//! Why an index that is kept can't be used.

use qm_folder::FolderError;
use qm_merge::MergeError;
use qm_schema::QueryError;
use qm_store::StoreError;
use std::alloc::{AllocError, AllocFailed};
use std::io;

/// Why an index that is kept can't be used, or made.
#[derive(Clone, Copy)]
pub enum Trouble {
    /// The run can't go on, as where there is no memory left.
    Stopped(QueryError),
    /// There is no folder for it, or a path has no place of its own.
    Homeless,
    /// What is read can be read once alone.
    Stream,
    /// Its files can't be read or written.
    Failed,
    /// What stands there is no index.
    OtherFile,
    /// It is one of another version.
    OtherVersion,
    /// It is one of other paths, or of files that were read in another way.
    OtherPaths,
    /// It is damaged.
    Damaged,
    /// A file of it is missing.
    Missing,
    /// Another run brings it up to date.
    Locked,
}

impl Trouble {
    /// What is told of it.
    pub fn what(&self) -> &'static str {
        match self {
            Trouble::Stopped(_) => "the run can't go on",
            Trouble::Homeless => "there is no folder for it, or no such path",
            Trouble::Stream => "what is read can be read once alone",
            Trouble::Failed => "its files can't be read or written",
            Trouble::OtherFile => "what stands there is none",
            Trouble::OtherVersion => "it is one of another version",
            Trouble::OtherPaths => "it is one of other paths",
            Trouble::Damaged => "it is damaged",
            Trouble::Missing => "a file of it is missing",
            Trouble::Locked => "another run brings it up to date",
        }
    }

    /// Whether an index that is made anew may take the place of what is there.
    pub fn is_mended_anew(&self) -> bool {
        match self {
            Trouble::OtherFile
            | Trouble::OtherVersion
            | Trouble::OtherPaths
            | Trouble::Damaged
            | Trouble::Missing => true,
            Trouble::Stopped(_)
            | Trouble::Homeless
            | Trouble::Stream
            | Trouble::Failed
            | Trouble::Locked => false,
        }
    }
}

/// The trouble that no memory is left.
const NO_MEMORY: Trouble = Trouble::Stopped(QueryError::Memory);

impl From<AllocError> for Trouble {
    fn from(_error: AllocError) -> Trouble {
        NO_MEMORY
    }
}

impl<T: Drop> From<AllocFailed<T>> for Trouble {
    fn from(_error: AllocFailed<T>) -> Trouble {
        NO_MEMORY
    }
}

impl From<io::Error> for Trouble {
    fn from(error: io::Error) -> Trouble {
        if error.kind() == io::ErrorKind::OutOfMemory {
            NO_MEMORY
        } else {
            Trouble::Failed
        }
    }
}

impl From<StoreError> for Trouble {
    fn from(error: StoreError) -> Trouble {
        match error {
            StoreError::Memory => NO_MEMORY,
            StoreError::Failed => Trouble::Failed,
            StoreError::OtherFile => Trouble::OtherFile,
            StoreError::OtherVersion => Trouble::OtherVersion,
            StoreError::Damaged => Trouble::Damaged,
        }
    }
}

impl From<FolderError> for Trouble {
    fn from(error: FolderError) -> Trouble {
        match error {
            FolderError::Memory => NO_MEMORY,
            FolderError::Failed => Trouble::Failed,
        }
    }
}

impl From<QueryError> for Trouble {
    fn from(error: QueryError) -> Trouble {
        match error {
            QueryError::Memory => NO_MEMORY,
            _ => Trouble::Damaged,
        }
    }
}

impl From<MergeError> for Trouble {
    fn from(error: MergeError) -> Trouble {
        match error {
            MergeError::Memory => NO_MEMORY,
            MergeError::Unlike | MergeError::TooMany => Trouble::Damaged,
        }
    }
}
