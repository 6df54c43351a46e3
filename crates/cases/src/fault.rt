//! Why a case could not be played.

use qm_schema::QueryError;
use std::alloc::{AllocError, AllocFailed};

/// Why a case could not be played.
#[derive(Clone, Copy, PartialEq, Eq)]
pub enum Fault {
    /// There was no memory for what the program itself keeps.
    Memory,
    /// Its words have no meaning.
    NotUnderstood,
    /// A call asks for what does not hold.
    NotAllowed,
    /// The library refused a call.
    Refused(QueryError),
}

/// What hands on nothing: it is done, or ends with a fault.
pub type Done = Result<(), Fault>;

impl From<AllocError> for Fault {
    fn from(_error: AllocError) -> Fault {
        Fault::Memory
    }
}

impl<T: Drop> From<AllocFailed<T>> for Fault {
    fn from(_error: AllocFailed<T>) -> Fault {
        Fault::Memory
    }
}

impl From<QueryError> for Fault {
    fn from(error: QueryError) -> Fault {
        Fault::Refused(error)
    }
}
