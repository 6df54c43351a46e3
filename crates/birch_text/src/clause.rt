//! Words that are asked for.
//!
//! Field and boosts are carried down to the words, so a query is as deep as its parentheses alone.

/// Where words are asked for.
#[derive(Drop)]
pub enum Scope {
    /// In the text of a document.
    Text,
    /// In its file's own name.
    FileName,
    /// In the field of this name.
    Field(String),
}

/// Words that stand together, in the order in which they were written: one word, or a phrase.
#[derive(Drop)]
pub struct Clause {
    /// Where they stand.
    pub scope: Scope,
    /// The words, folded; one at least.
    pub words: Vec<String>,
    /// Whether the last word is the beginning of one.
    pub is_prefix: bool,
    /// By how many places in all the words of a phrase may stand apart.
    pub slop: u32,
    /// By what its score is multiplied.
    pub boost: u32,
}
