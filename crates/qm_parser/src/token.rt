//! The tokens of a query.

use crate::parsed_query::{ParsedLeaf, Sign};

/// A token that was read.
#[derive(Drop)]
pub(crate) enum ReadPiece {
    /// A word, a phrase or the like, and the boost behind it.
    Leaf(ParsedLeaf, Option<u32>),
    /// The name of a field, and a `:`.
    Name(String),
    /// A `+`, a `-` or a `NOT`.
    Sign(Sign),
    And,
    Or,
    Open,
    /// A `)`, and the boost behind it.
    Close(Option<u32>),
}

/// A token that was read, and the place of its first byte.
#[derive(Drop)]
pub(crate) struct ReadToken {
    pub piece: ReadPiece,
    pub place: usize,
}
