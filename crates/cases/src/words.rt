//! Words of a line, and what they spell.

ghost use Rattle.std.specs.Prelude.{◌≤ℤ◌, IfSome, pos};

use qm_docset::{DocId, Score, TERMINATED};
use std::alloc::{AllocError, Global};

/// The words of a line, which is cut at spaces.
pub fn words_of<'a>(alloc: Global, line: &'a str) -> Result<Vec<&'a str>, AllocError> {
    let mut words = Vec::with_capacity(alloc, 16)?;
    // the words before this one are there
    for word in line.split_whitespace() {
        words.push(word)?;
    }
    Ok(words)
}

/// The word at a place; an empty one past the last.
pub fn word<'a>(words: &[&'a str], at: usize) -> &'a str {
    match words.get(at) {
        Some(word) => word,
        None => "",
    }
}

/// The words behind the first so many; none where there are no more.
pub fn behind<'a, 'b>(words: &'b [&'a str], count: usize) -> &'b [&'a str] {
    &words[count.min(words.len())..]
}

/// The number that a word spells.
pub fn number(words: &[&str], at: usize) -> Option<u32> {
    word(words, at).parse().ok()
}

/// The score that a word spells, which is at least 0.
pub fn score(words: &[&str], at: usize) -> Option<Score>
    ensures { IfSome result (λ s. pos 0 ≤ℤ s) }
{
    match word(words, at).parse::<Score>() {
        Ok(score) => { if score >= 0 { Some(score) } else { None } }
        Err(_) => None,
    }
}

/// A document's number, or `end`.
pub fn read_document(text: &str) -> Option<DocId> {
    if text == "end" {
        Some(TERMINATED)
    } else {
        text.parse().ok()
    }
}
