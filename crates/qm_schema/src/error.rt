//! Why a call was refused.

ghost use Rattle.std.specs.Prelude.{◌≡◌};

use std::alloc::{AllocError, AllocFailed};
use thiserror::Error;

/// Why a call on a query, or on what it is asked of, was refused.
///
/// A refused call leaves what it was lent as it was, and drops what was handed over to it. Where
/// several refusals are due, a constructor answers the one that comes first in this list.
#[derive(Clone, Copy, Debug, PartialEq, Eq, Error)]
pub enum QueryError {
    /// A phrase has fewer than two terms.
    #[error("a phrase needs at least two terms")]
    TooFewTerms,
    /// A phrase prefix has no term.
    #[error("a phrase prefix needs at least one term")]
    EmptyPrefix,
    /// The terms of a phrase, or of a phrase prefix, have different fields.
    #[error("the terms of a phrase must all be of one field")]
    MixedFields,
    /// The offset of a term in a phrase, which it holds, is above 4294967295.
    #[error("the offset {0} of a term in a phrase is above 4294967295")]
    OffsetTooLarge(usize),
    /// The schema has no such field.
    #[error("the field is not in the schema")]
    UnknownField,
    /// A term, or a prefix alone, is asked of a field that is not indexed.
    #[error("the field is not indexed")]
    NotIndexed,
    /// A phrase, or a phrase prefix with a full term, is asked of a field that keeps no positions.
    #[error("the field is not indexed with positions")]
    NoPositions,
    /// A tie breaker is above 1000 thousandths.
    #[error("the tie breaker is above 1000 thousandths")]
    TieBreaker,
    /// The greatest score that a query could give, or the product of boosts along its tree, is above
    /// 9223372036854775807.
    #[error("a bound on the score, or a product of boosts, is above 9223372036854775807")]
    ScoreBound,
    /// The document to be explained, which it holds, is not in the segment or does not match.
    #[error("the document {0} does not match the query")]
    DoesNotMatch(u32),
    /// An address names a segment, which it holds, that the searcher does not have.
    #[error("the searcher has no segment {0}")]
    NoSuchSegment(u32),
    /// The provider of statistics answered an error of its own, whose code it holds.
    #[error("the provider of statistics answered the error code {0}")]
    Provider(u32),
    /// There was no memory left for what the call makes or grows.
    #[error("out of memory")]
    Memory,
    /// A segment holds 2147483647 documents already.
    #[error("the segment holds 2147483647 documents already")]
    TooManyDocuments,
    /// A document has a field that the schema doesn't have, a term twice, positions of a term that
    /// are empty, not strictly ascending or contain 4294967295, or a text of more than 4294967295
    /// words.
    #[error("the document has an unknown field, a repeated term, bad positions, or a text that is too long")]
    BadDocument,
    /// The number of postings in a block is not from 1 to 128.
    #[error("the length of a block must be from 1 to 128 postings")]
    BadBlockLength,
    /// A norm is less than the one before it.
    #[error("the norms must not decrease")]
    BadNorms,
    /// A searcher was given more than 4294967295 segments.
    #[error("a searcher takes at most 4294967295 segments")]
    TooManySegments,
}

impl QueryError {
    ghost use Rattle.qm_schema.specs.Refusals.{refusal_number};

    /// The number by which a program reports the refusal: its place in the list above, from 1. What
    /// the refusal holds does not change it.
    pub fn number(self) -> u8
        ensures { result ≡ refusal_number self }
    {
        match self {
            QueryError::TooFewTerms => 1,
            QueryError::EmptyPrefix => 2,
            QueryError::MixedFields => 3,
            QueryError::OffsetTooLarge(_) => 4,
            QueryError::UnknownField => 5,
            QueryError::NotIndexed => 6,
            QueryError::NoPositions => 7,
            QueryError::TieBreaker => 8,
            QueryError::ScoreBound => 9,
            QueryError::DoesNotMatch(_) => 10,
            QueryError::NoSuchSegment(_) => 11,
            QueryError::Provider(_) => 12,
            QueryError::Memory => 13,
            QueryError::TooManyDocuments => 14,
            QueryError::BadDocument => 15,
            QueryError::BadBlockLength => 16,
            QueryError::BadNorms => 17,
            QueryError::TooManySegments => 18,
        }
    }
}

impl From<AllocError> for QueryError {
    ghost use Rattle.qm_schema.specs.declared.error.QueryError.TheVariants.{Memory};

    ghost from_gives = { λ _ e. e ≡ Memory };

    fn from(_error: AllocError) -> QueryError {
        QueryError::Memory
    }
}

impl<T: Drop> From<AllocFailed<T>> for QueryError {
    ghost use Rattle.qm_schema.specs.declared.error.QueryError.TheVariants.{Memory};

    ghost from_gives = { λ _ e. e ≡ Memory };

    fn from(_error: AllocFailed<T>) -> QueryError {
        QueryError::from(AllocError)
    }
}
