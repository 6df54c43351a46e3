//! Words, as they are compared.
//!
//! A number is cut as any word is. That is one rule, at the price that `3.14` finds `3,14`.

use crate::accents::{Accents, is_accent};
use caseless::Caseless;
use std::alloc::{AllocError, Global};
use unicode_normalization::char::is_combining_mark;
use unicode_normalization::slice::{extend_nfc, extend_nfd};
use unicode_segmentation::UnicodeSegmentation;

/// Whether what Unicode's rules call one word is cut here: at all but letters, digits, marks and
/// apostrophes, as in `spin_lock`, `example.com` and `3.14`.
pub(crate) fn is_between(letter: char) -> bool {
    !letter.is_alphanumeric() && !is_apostrophe(letter) && !is_combining_mark(letter)
}

fn is_apostrophe(letter: char) -> bool {
    matches!(letter, '\'' | '\u{2019}' | '\u{ff07}')
}

/// Whether what stands between two cuts has a letter or a digit.
fn is_word(piece: &str) -> bool {
    piece.contains(char::is_alphanumeric)
}

/// Cuts texts into words, and folds these, so that words which count as one are the same.
#[derive(Drop)]
pub struct WordReader {
    accents: Accents,
    // room for a text in lower case
    lowered: String,
    // room for the letters of a word, and for letters and accents apart
    letters: Vec<char>,
    apart: Vec<char>,
}

impl WordReader {
    /// Of words in which accents count or don't.
    pub fn new(alloc: Global, accents: Accents) -> WordReader {
        WordReader {
            accents,
            lowered: String::new(alloc),
            letters: Vec::new(alloc),
            apart: Vec::new(alloc),
        }
    }

    /// Adds the words of a text to others, each with a space behind it, and answers how many there are. A
    /// word has no space in it, so they can be told apart.
    ///
    /// Refused for want of memory alone; then some may have been added.
    pub fn add_words(&mut self, words: &mut String, text: &str) -> Result<u32, AllocError> {
        if !text.is_ascii() {
            return self.add_folded(words, text);
        }
        self.lowered.clear();
        self.lowered.push_str(text)?;
        self.lowered.make_ascii_lowercase();
        let mut count: u32 = 0;
        // the pieces of the words before this one are there, so many
        for word in self.lowered.as_str().unicode_words() {
            // and those of the pieces before this one
            for piece in word.split(is_between) {
                if is_word(piece) {
                    words.push_str(piece)?;
                    words.push(' ')?;
                    count = count.saturating_add(1);
                }
            }
        }
        Ok(count)
    }

    // Adds the words of a text of any letters.
    fn add_folded(&mut self, words: &mut String, text: &str) -> Result<u32, AllocError> {
        let mut count: u32 = 0;
        // the pieces of the words before this one are there, so many
        for word in text.unicode_words() {
            // and those of the pieces before this one
            for piece in word.split(is_between) {
                count = count.saturating_add(self.add_piece(words, piece)?);
            }
        }
        Ok(count)
    }

    // Adds what stands between two cuts, and answers how many words it is, 0 or 1.
    fn add_piece(&mut self, words: &mut String, piece: &str) -> Result<u32, AllocError> {
        let len = words.len();
        if is_word(piece) {
            self.push_folded(words, piece)?;
        }
        // nothing is left of an accent without a letter
        if words.len() == len {
            return Ok(0);
        }
        words.push(' ')?;
        Ok(1)
    }

    /// Leaves in a text a word, folded, in place of what stood there.
    ///
    /// Refused for want of memory alone.
    pub(crate) fn fold(&mut self, folded: &mut String, word: &str) -> Result<(), AllocError> {
        folded.clear();
        self.push_folded(folded, word)
    }

    // Adds a word in lower case, or folded where it has other letters than those of ASCII.
    fn push_folded(&mut self, folded: &mut String, word: &str) -> Result<(), AllocError> {
        if !word.is_ascii() {
            return self.push_other(folded, word);
        }
        // the letters before this one are there in lower case
        for letter in word.chars() {
            folded.push(letter.to_ascii_lowercase())?;
        }
        Ok(())
    }

    // Adds a word in which case doesn't count, nor accents, where they don't, nor whether a letter and its
    // marks are one character.
    fn push_other(&mut self, folded: &mut String, word: &str) -> Result<(), AllocError> {
        self.letters.clear();
        self.letters.extend(word.chars().default_case_fold())?;
        self.apart.clear();
        extend_nfd(&mut self.apart, self.letters.as_slice())?;
        if self.accents == Accents::Folded {
            self.apart.retain(|letter| !is_accent(*letter));
        }
        self.letters.clear();
        extend_nfc(&mut self.letters, self.apart.as_slice())?;
        folded.extend(self.letters.iter())
    }

    /// The words of a text, folded.
    ///
    /// Refused for want of memory alone.
    pub(crate) fn words_of(
        &mut self,
        alloc: Global,
        text: &str,
    ) -> Result<Vec<String>, AllocError> {
        let mut joined = String::new(alloc);
        self.add_words(&mut joined, text)?;
        let words = joined.as_str().split_terminator(' ');
        words
            .map(|word| String::from_str(alloc, word))
            .try_collect(alloc)
    }
}
