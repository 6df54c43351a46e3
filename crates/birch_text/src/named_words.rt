//! Words of named fields, as they are kept.
//!
//! A field's words are words of one field of the index, with its name before them. So files may have different columns.

use std::alloc::{AllocError, Global};

/// What stands between a field's name and a word of it: no letter of either.
const BEHIND_NAME: char = '\0';

/// What keeps the words of two fields apart, so that no phrase goes from one into the other: no word has it.
pub const FIELD_END: &str = "\0 ";

/// A word of a field as it is kept. Without a letter it is what each document holds that has a word in the
/// field.
///
/// Refused for want of memory alone.
pub fn named_word(alloc: Global, name: &str, word: &str) -> Result<String, AllocError> {
    let mut named = String::new(alloc);
    push_name(&mut named, name)?;
    named.push_str(word)?;
    Ok(named)
}

/// Adds the words of a field to others, as they are kept, each with a space behind it, and before them what
/// says that there are some. The words have spaces between them.
///
/// Refused for want of memory alone; then some may have been added.
pub fn add_named_words(named: &mut String, name: &str, words: &str) -> Result<(), AllocError> {
    push_name(named, name)?;
    named.push(' ')?;
    // the words before this one are there, each behind the name
    for word in words.split_terminator(' ') {
        push_name(named, name)?;
        named.push_str(word)?;
        named.push(' ')?;
    }
    Ok(())
}

/// The name and the word of what is kept; none where it is no word of a named field.
pub fn split_named(named: &str) -> Option<(&str, &str)> {
    named.split_once(BEHIND_NAME)
}

// Adds the name of a field and what stands behind it. A space in it is an underscore, as it is asked for.
fn push_name(named: &mut String, name: &str) -> Result<(), AllocError> {
    // the letters before this one are there, with a `_` for those that a name can't have
    for letter in name.chars() {
        let is_kept = !letter.is_whitespace() && letter != BEHIND_NAME;
        named.push(if is_kept { letter } else { '_' })?;
    }
    named.push(BEHIND_NAME)
}
