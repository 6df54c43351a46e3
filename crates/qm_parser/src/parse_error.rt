//! Why the text of a query has no tree.

ghost use Rattle.std.specs.Prelude.{◌≡◌};
ghost use Rattle.qm_parser.specs.declared.parse_error.ParseError.TheVariants.{Memory, Refused};

use crate::refusal_kind::RefusalKind;
use std::alloc::{AllocError, AllocFailed};
use thiserror::Error;

/// What in a text isn't understood, and where it stands.
#[derive(Clone, Copy, Debug, PartialEq, Eq, Error)]
#[error("{kind} (at byte {at})")]
pub struct Refusal {
    /// What isn't understood.
    pub kind: RefusalKind,
    /// The first byte of what isn't understood; the first byte of the text is at 0.
    pub at: usize,
}

/// Why the text of a query has no tree.
#[derive(Clone, Copy, Debug, PartialEq, Eq, Error)]
pub enum ParseError {
    /// There was no memory for the tree.
    #[error("out of memory")]
    Memory,
    /// The text isn't of the language.
    #[error("{0}")]
    Refused(Refusal),
}

impl From<AllocError> for ParseError {
    ghost from_gives = { λ _ e. e ≡ Memory };

    fn from(_error: AllocError) -> ParseError {
        ParseError::Memory
    }
}

impl<T: Drop> From<AllocFailed<T>> for ParseError {
    ghost from_gives = { λ _ e. e ≡ Memory };

    fn from(_error: AllocFailed<T>) -> ParseError {
        ParseError::Memory
    }
}

/// The error that something at this place isn't understood.
pub(crate) fn refuse<T: Drop>(kind: RefusalKind, at: usize) -> Result<T, ParseError>
    ensures { result ≡ Err (Refused (record { kind = kind; at = at })) }
{
    Err(ParseError::Refused(Refusal { kind, at }))
}
