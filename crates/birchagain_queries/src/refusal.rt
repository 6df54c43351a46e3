//! Why a query was refused, and the statuses by which C learns of it.

ghost use Rattle.std.specs.Prelude.{◌≡◌};
ghost use Rattle.birchagain_queries.specs.Statuses.{untyped_status};

use qm_parser::{ParseError, Refusal, RefusalKind};
use qm_schema::QueryError;
use std::alloc::{AllocError, AllocFailed};

/// Why a query was refused. A refused call leaves the index as it was.
#[derive(Clone, Copy, Debug, PartialEq, Eq)]
pub enum QueryRefusal {
    /// As the query layer refuses it.
    Query(QueryError),
    /// Its text is not UTF-8, or does not fit the language of scripts.
    NotUnderstood,
    /// It names a field, and the documents have no fields.
    NamesField,
    /// There is no language of that number.
    NoLanguage,
    /// An array is too small for its words.
    NoRoom,
    /// Its text does not fit the language that people type: what in it isn't understood, and where.
    Untyped(Refusal),
}

impl QueryRefusal {
    ghost use Rattle.birchagain_queries.specs.Statuses.{status_of};

    /// The status of a call that was refused so: a number of [`QueryError::number`], or one from 65 on.
    pub fn status(self) -> u32
        ensures { result ≡ status_of self }
    {
        match self {
            QueryRefusal::Query(error) => u32::from(error.number()),
            QueryRefusal::NotUnderstood => 65,
            QueryRefusal::NamesField => 71,
            QueryRefusal::NoLanguage => 72,
            QueryRefusal::NoRoom => 86,
            QueryRefusal::Untyped(refusal) => untyped_status(refusal.kind),
        }
    }
}

// The status of a text that is refused for this.
fn untyped_status(kind: RefusalKind) -> u32
    ensures { result ≡ untyped_status kind }
{
    match kind {
        RefusalKind::StrayEscape => 101,
        RefusalKind::OpenQuote => 102,
        RefusalKind::OpenParenthesis => 103,
        RefusalKind::StrayParenthesis => 104,
        RefusalKind::TooDeep => 105,
        RefusalKind::Wildcard => 106,
        RefusalKind::Fuzzy => 107,
        RefusalKind::SlopWithoutNumber => 108,
        RefusalKind::SlopTooGreat => 109,
        RefusalKind::StrayBoost => 110,
        RefusalKind::BoostWithoutNumber => 111,
        RefusalKind::BoostNotWhole => 112,
        RefusalKind::BoostTooGreat => 113,
        RefusalKind::FieldWithoutName => 114,
        RefusalKind::FieldWithoutValue => 115,
        RefusalKind::AnyValue => 116,
        RefusalKind::SignWithoutClause => 117,
        RefusalKind::OperatorWithoutSide => 118,
        RefusalKind::Range => 119,
        RefusalKind::Set => 120,
        RefusalKind::Regex => 121,
        RefusalKind::Touching => 122,
    }
}

impl From<ParseError> for QueryRefusal {
    ghost use Rattle.birchagain_queries.specs.Languages.{refusal_of};

    ghost from_gives = { λ error refusal. refusal ≡ refusal_of error };

    fn from(error: ParseError) -> QueryRefusal {
        match error {
            ParseError::Memory => QueryRefusal::Query(QueryError::Memory),
            ParseError::Refused(refusal) => QueryRefusal::Untyped(refusal),
        }
    }
}

impl From<QueryError> for QueryRefusal {
    ghost use Rattle.birchagain_queries.specs.declared.refusal.QueryRefusal.TheVariants.{Query};

    ghost from_gives = { λ error refusal. refusal ≡ Query error };

    fn from(error: QueryError) -> QueryRefusal {
        QueryRefusal::Query(error)
    }
}

impl From<AllocError> for QueryRefusal {
    ghost use Rattle.birchagain_queries.specs.declared.refusal.QueryRefusal.TheVariants.{Query};
    ghost use Rattle.qm_schema.specs.declared.error.QueryError.TheVariants.{Memory};

    ghost from_gives = { λ _ refusal. refusal ≡ Query Memory };

    fn from(_error: AllocError) -> QueryRefusal {
        QueryRefusal::Query(QueryError::Memory)
    }
}

impl<T: Drop> From<AllocFailed<T>> for QueryRefusal {
    ghost use Rattle.birchagain_queries.specs.declared.refusal.QueryRefusal.TheVariants.{Query};
    ghost use Rattle.qm_schema.specs.declared.error.QueryError.TheVariants.{Memory};

    ghost from_gives = { λ _ refusal. refusal ≡ Query Memory };

    fn from(_error: AllocFailed<T>) -> QueryRefusal {
        QueryRefusal::from(AllocError)
    }
}
