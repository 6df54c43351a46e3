//! A query as a line of a script spells it.
//!
//! A line is read into this tree before a query is built. Want of memory for the tree ends the run; for the query it
//! refuses the line.

use crate::non_negative_score::NonNegativeScore;
use qm_schema::Occur;

/// How deep a query may be: `all` is 1 deep, `boost K all` is 2.
pub(crate) const MAX_DEPTH: u32 = 500;

/// A query as a line spells it. The whole line is read before anything is made of it.
#[derive(Debug, Drop)]
pub enum SpelledQuery {
    /// `all`: every document.
    All,
    /// `none`: no document.
    Empty,
    /// `term W`: the documents that hold the word.
    Term(String),
    /// `phrase SLOP N W..`: the documents in which the words follow one another.
    Phrase {
        /// How far words may stand from where they belong.
        slop: u32,
        /// The words, in order.
        words: Vec<String>,
    },
    /// `prefix MAX N W..`: the same, where the last word may go on.
    PhrasePrefix {
        /// The most words that the last one is expanded to.
        max_expansions: u32,
        /// The words, in order, of which the last is a prefix.
        words: Vec<String>,
    },
    /// `bool MIN N` and `N` times a sign and a query.
    Boolean {
        /// How many Should clauses have to match.
        minimum: u32,
        /// The clauses, in order.
        clauses: Vec<(Occur, SpelledQuery)>,
    },
    /// `boost K Q`: the same documents, whose scores are multiplied.
    Boost(NonNegativeScore, Box<SpelledQuery>),
    /// `const S Q`: the same documents, each with this score.
    Const(NonNegativeScore, Box<SpelledQuery>),
    /// `max T N Q..`: the documents that one of the queries matches, with the greatest score.
    DisjunctionMax {
        /// The part of the other scores that is added, in thousandths.
        tie_breaker: u32,
        /// The queries, in order.
        disjuncts: Vec<SpelledQuery>,
    },
}
