//! Why a call was refused, and the statuses by which C learns of it.

ghost use Rattle.std.specs.Prelude.{◌≡◌};

use qm_schema::QueryError;
use std::alloc::{AllocError, AllocFailed};

/// Why a call of this library was refused. A refused call leaves the index as it was.
#[derive(Clone, Copy, Debug, PartialEq, Eq)]
pub enum Refusal {
    /// As the index refuses it.
    Query(QueryError),
    /// The text of a query does not fit its language.
    NotUnderstood,
    /// A text, or a word, is not UTF-8.
    NotText,
    /// There is no document of that number.
    NoDocument,
    /// Ends of words do not ascend within their bytes, or those of places within these, or a word has a space.
    NotWords,
    /// A weight is below 0.
    NegativeWeight,
    /// Two rows are not of one length.
    UnevenRows,
}

impl Refusal {
    ghost use Rattle.birchagain.specs.Statuses.{status_of};

    /// The status of a call that was refused so: a number of [`QueryError::number`], or one from 65 on.
    pub fn status(self) -> u32
        ensures { result ≡ status_of self }
    {
        match self {
            Refusal::Query(error) => u32::from(error.number()),
            Refusal::NotUnderstood => 65,
            Refusal::NotText => 66,
            Refusal::NoDocument => 67,
            Refusal::NotWords => 68,
            Refusal::NegativeWeight => 69,
            Refusal::UnevenRows => 70,
        }
    }
}

impl From<QueryError> for Refusal {
    ghost use Rattle.birchagain.specs.declared.refusal.Refusal.TheVariants.{Query};

    ghost from_gives = { λ error refusal. refusal ≡ Query error };

    fn from(error: QueryError) -> Refusal {
        Refusal::Query(error)
    }
}

impl From<AllocError> for Refusal {
    ghost use Rattle.birchagain.specs.declared.refusal.Refusal.TheVariants.{Query};
    ghost use Rattle.qm_schema.specs.declared.error.QueryError.TheVariants.{Memory};

    ghost from_gives = { λ _ refusal. refusal ≡ Query Memory };

    fn from(_error: AllocError) -> Refusal {
        Refusal::Query(QueryError::Memory)
    }
}

impl<T: Drop> From<AllocFailed<T>> for Refusal {
    ghost use Rattle.birchagain.specs.declared.refusal.Refusal.TheVariants.{Query};
    ghost use Rattle.qm_schema.specs.declared.error.QueryError.TheVariants.{Memory};

    ghost from_gives = { λ _ refusal. refusal ≡ Query Memory };

    fn from(_error: AllocFailed<T>) -> Refusal {
        Refusal::from(AllocError)
    }
}

/// What a status says, in English.
pub fn status_text(status: u32) -> &'static str {
    match status {
        0 => "done",
        1 => "a phrase needs at least two terms",
        2 => "a phrase prefix needs at least one term",
        8 => "the tie breaker is above 1000 thousandths",
        9 => "a bound on the score, or a product of boosts, is above 9223372036854775807",
        13 => "out of memory",
        14 => "the segment holds 2147483647 documents already",
        15 => "the document has too many words, one twice, bad places, or an unknown field",
        17 => "a norm is less than the one before it",
        18 => "an index takes at most 4294967295 segments",
        64 => "the index is not open",
        65 => "the query is not understood",
        66 => "the bytes are not UTF-8",
        67 => "there is no document of that number",
        68 => "ends of words or places do not ascend within their rows, or a word has a space",
        69 => "the weight is below 0",
        70 => "two rows are not of one length",
        _ => "no status of this library",
    }
}
