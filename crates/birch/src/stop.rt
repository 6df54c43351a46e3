//! Why a run ends early.

use anyhow::{Error, anyhow};
use birch_index::Trouble;
use qm_schema::QueryError;
use std::alloc::{AllocError, AllocFailed};
use std::io;

/// Why a run ends early.
#[derive(Drop)]
pub enum Stop {
    /// Nobody reads what is written.
    Closed,
    /// Something went wrong.
    Failed(Error),
    /// Something is wrong with the index that is kept.
    Kept(Trouble),
}

impl From<Trouble> for Stop {
    fn from(trouble: Trouble) -> Stop {
        match trouble {
            Trouble::Stopped(error) => Stop::from(error),
            trouble => Stop::Kept(trouble),
        }
    }
}

impl From<io::Error> for Stop {
    fn from(error: io::Error) -> Stop {
        if error.kind() == io::ErrorKind::BrokenPipe {
            Stop::Closed
        } else {
            Stop::Failed(Error::from(error))
        }
    }
}

impl From<Error> for Stop {
    fn from(error: Error) -> Stop {
        Stop::Failed(error)
    }
}

impl From<QueryError> for Stop {
    fn from(error: QueryError) -> Stop {
        Stop::Failed(anyhow!("{error}"))
    }
}

impl From<AllocError> for Stop {
    fn from(_error: AllocError) -> Stop {
        Stop::Failed(anyhow!("out of memory"))
    }
}

impl<T: Drop> From<AllocFailed<T>> for Stop {
    fn from(_error: AllocFailed<T>) -> Stop {
        Stop::Failed(anyhow!("out of memory"))
    }
}
