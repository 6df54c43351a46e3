//! Why a query isn't understood.

use qm_parser::{ParseError, RefusalKind};
use std::alloc::{AllocError, AllocFailed};
use std::fmt;

/// What is wrong with a query.
#[derive(Clone, Copy, Debug, PartialEq, Eq)]
pub enum Fault {
    /// The language of queries has no such text.
    Refused(RefusalKind),
    /// It asks for nothing.
    Nothing,
    /// No letter or digit stands where a word is wanted.
    NoWord,
    /// No field has this name.
    NoField,
    /// A phrase ends in a `*`.
    StarInPhrase,
    /// The boosts around a part multiply to too much.
    BoostTooGreat,
}

impl fmt::Display for Fault {
    fn fmt<W: fmt::Write>(&self, f: &mut fmt::Formatter<W>) -> fmt::Result {
        let text = match self {
            Fault::Refused(kind) => return write!(f, "{kind}"),
            Fault::Nothing => "there is nothing to search for: a word may stand here",
            Fault::NoWord => "no word stands here: a word, or a phrase in \"..\", may",
            Fault::NoField => {
                "no field has this name: name: may stand here, or \\: for what is no field"
            }
            Fault::StarInPhrase => {
                "a * stands behind the quotes: \"old app\"* finds \"old apple\""
            }
            Fault::BoostTooGreat => "the numbers behind ^ multiply to more than 2147483647 here",
        };
        f.write_str(text)
    }
}

/// Why a query isn't read.
#[derive(Clone, Copy, Debug)]
pub enum QueryFault {
    /// It isn't understood.
    NotUnderstood {
        /// What is wrong.
        fault: Fault,
        /// How many bytes of it stand before the place where that is.
        place: usize,
    },
    /// There is no memory for it.
    Memory,
}

impl fmt::Display for QueryFault {
    fn fmt<W: fmt::Write>(&self, f: &mut fmt::Formatter<W>) -> fmt::Result {
        match self {
            QueryFault::NotUnderstood { fault, .. } => write!(f, "{fault}"),
            QueryFault::Memory => f.write_str("out of memory"),
        }
    }
}

impl From<ParseError> for QueryFault {
    fn from(error: ParseError) -> QueryFault {
        match error {
            ParseError::Refused(refusal) => QueryFault::NotUnderstood {
                fault: Fault::Refused(refusal.kind),
                place: refusal.at,
            },
            ParseError::Memory => QueryFault::Memory,
        }
    }
}

impl From<AllocError> for QueryFault {
    fn from(_error: AllocError) -> QueryFault {
        QueryFault::Memory
    }
}

impl<T: Drop> From<AllocFailed<T>> for QueryFault {
    fn from(_error: AllocFailed<T>) -> QueryFault {
        QueryFault::Memory
    }
}
