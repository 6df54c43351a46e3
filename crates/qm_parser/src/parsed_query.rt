//! What the text of a query says.

/// How a clause counts for the documents that a list of clauses finds.
#[derive(Clone, Copy, Debug, PartialEq, Eq)]
pub enum Sign {
    /// A document that it finds is found, unless another clause forbids it; where a clause must find
    /// the document, this one only adds to its score.
    Should,
    /// It must find the document.
    Must,
    /// It must not find the document.
    MustNot,
}

/// A part of a query that holds no other. Its texts are as they were typed, less each `\` before a
/// sign: they aren't cut into words, and their letters aren't folded.
#[derive(Debug, Drop)]
pub enum ParsedLeaf {
    /// `*`: all documents, whatever field stands before it.
    All,
    /// `a`: what holds the word. It has at least one character.
    Word(String),
    /// `a*`: what holds a word that begins so. It has at least one character.
    Prefix(String),
    /// `"a b"` or `"a b"~2`: what holds the words of the text behind one another.
    Phrase {
        /// What stood between the quotes, which may be nothing.
        text: String,
        /// How far words may stand from where they belong; 0 where nothing was typed.
        slop: u32,
    },
    /// `"a b"*`: the same, where the last word of the text is the beginning of a word.
    PhrasePrefix(String),
}

/// What the text of a query says.
#[derive(Debug, Drop)]
pub enum ParsedQuery {
    /// Nothing, as an empty text or `()` says: no document.
    Empty,
    /// A word, a phrase or the like.
    Leaf(ParsedLeaf),
    /// `name:Q`: in this field. A field further inside counts before this one.
    Field(String, Box<ParsedQuery>),
    /// `Q^2`: the same documents, whose scores are multiplied by this, which is at most 2147483647.
    Boost(u32, Box<ParsedQuery>),
    /// Clauses, in the order in which they were typed; at least one, and not one that only should match.
    Boolean(Vec<(Sign, ParsedQuery)>),
}
