//! Letters with accents.
//!
//! Accents are U+0300 to U+036F alone. The marks of other scripts are vowels and the like, without which words would be
//! others.

/// Whether a letter with an accent is the letter without it.
#[derive(Clone, Copy, PartialEq, Eq)]
pub enum Accents {
    /// It is: `cafe` is `café`.
    Folded,
    /// It is another letter.
    Kept,
}

/// Whether a mark is an accent, as Latin, Greek and Cyrillic letters have them.
pub(crate) fn is_accent(letter: char) -> bool {
    matches!(letter, '\u{300}'..='\u{36f}')
}
