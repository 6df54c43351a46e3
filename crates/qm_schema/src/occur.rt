//! How a clause of a Boolean query occurs.

/// How a clause of a Boolean query has to occur in a document that the query matches.
#[derive(Clone, Copy, Debug, PartialEq, Eq, Hash)]
pub enum Occur {
    /// The clause may match: it adds to the score, and counts towards the least number of clauses
    /// that should match.
    Should,
    /// The clause has to match, and adds to the score.
    Must,
    /// The clause must not match.
    MustNot,
}
