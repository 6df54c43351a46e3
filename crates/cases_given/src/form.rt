//! A word of a front form, with what stands behind it.

use cases::Memory;

/// A name in a block's words, and the words behind it up to the next name.
#[derive(Clone, Copy)]
pub struct Form<'a> {
    pub name: &'a str,
    pub words: &'a [&'a str],
    /// whether it is the first of its name
    pub is_first: bool,
    /// which requests for memory are refused as it is made
    pub memory: Memory,
}

/// Whether the words have the word.
pub fn has_word(words: &[&str], wanted: &str) -> bool {
    // no word before this one is the wanted one
    for word in words {
        if *word == wanted {
            return true;
        }
    }
    false
}
