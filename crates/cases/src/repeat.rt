//! What a case repeats: words of a block, and rows.

use crate::fault::{Done, Fault};
use crate::listing::Listing;
use crate::row::{Row, read_row};
use std::alloc::{AllocError, Global};

/// The line of these words, in which those in `repeat N ( .. )` stand N times, and those in
/// `repeat A..B ( .. )` once for each number, which takes the place of `#`.
pub fn expand(alloc: Global, words: &[&str]) -> Result<String, Fault> {
    let mut line = Listing::new(alloc);
    // the line has the words of the parts before this one, the repeated ones as often as is said
    for part in words.split(|word| *word == "repeat") {
        if line.as_str().is_empty() {
            add_words(part, "#", &mut line);
            // so that no later part stands first
            line.word(" ");
        } else {
            add_repeated(alloc, part, &mut line)?;
        }
    }
    Ok(line.into_string()?)
}

// Adds `N ( .. ) ..`: what is repeated, and what stands behind it.
fn add_repeated(alloc: Global, words: &[&str], line: &mut Listing) -> Done {
    let [range, "(", rest @ ..] = words else {
        return Err(Fault::NotUnderstood);
    };
    let (first, end) = read_range(range)?;
    let mut inside = Vec::new(alloc);
    let mut is_inside = true;
    // of the words before this one those in parentheses are inside, and those behind them in the line
    for word in rest {
        if *word == ")" {
            add_times(alloc, inside.as_slice(), first, end, line)?;
            is_inside = false;
        } else if is_inside {
            inside.push(*word)?;
        } else {
            write!(line, "{word} ");
        }
    }
    if is_inside {
        return Err(Fault::NotUnderstood);
    }
    Ok(())
}

fn add_times(
    alloc: Global,
    words: &[&str],
    first: u32,
    end: u32,
    line: &mut Listing,
) -> Result<(), AllocError> {
    // the line has the words once for each number before this one
    for number in first..end {
        let number = format!(in alloc; "{number}")?;
        add_words(words, number.as_str(), line);
    }
    Ok(())
}

// Adds words, with another one in place of `#`.
fn add_words(words: &[&str], number: &str, line: &mut Listing) {
    // the words before this one are in the line, with the number in place of `#`
    for word in words {
        line.word(if *word == "#" { number } else { word });
        line.word(" ");
    }
}

fn read_range(word: &str) -> Result<(u32, u32), Fault> {
    let (first, end) = match word.split_once("..") {
        Some((first, end)) => (first, end),
        None => ("0", word),
    };
    match (first.parse(), end.parse()) {
        (Ok(first), Ok(end)) => Ok((first, end)),
        _ => Err(Fault::NotUnderstood),
    }
}

/// A text of the rows, each behind the number of its line, in which a row `repeat A..B ROW` is ROW once for
/// each number, which takes the place of every `#` in it.
pub fn spell_rows(alloc: Global, rows: &[Row<'_>]) -> Result<String, Fault> {
    let mut text = Listing::new(alloc);
    // the rows before this one are in the text, a repeated one once for each of its numbers
    for row in rows {
        match row.call.strip_prefix("repeat ") {
            Some(call) => spell_times(alloc, row, call, &mut text)?,
            None => spell_row(row, row.call, "#", &mut text),
        }
    }
    Ok(text.into_string()?)
}

// Adds `A..B CALL` once for each number.
fn spell_times(alloc: Global, row: &Row<'_>, call: &str, text: &mut Listing) -> Done {
    let Some((range, call)) = call.split_once(' ') else {
        return Err(Fault::NotUnderstood);
    };
    let (first, end) = read_range(range)?;
    // the text has the row once for each number before this one
    for number in first..end {
        let number = format!(in alloc; "{number}")?;
        spell_row(row, call, number.as_str(), text);
    }
    Ok(())
}

// Adds a row with this call, in which a number takes the place of `#`.
fn spell_row(row: &Row<'_>, call: &str, number: &str, text: &mut Listing) {
    let each = if row.is_refused { "refused each " } else { "" };
    write!(text, "{} {each}", row.line);
    add_replaced(call, number, text);
    text.word(" = ");
    add_replaced(row.wanted, number, text);
    text.word("\n");
}

// Adds a text, in which a number takes the place of `#`.
fn add_replaced(spelled: &str, number: &str, text: &mut Listing) {
    let mut is_first = true;
    // the text has the parts before this one, with the number between two
    for part in spelled.split('#') {
        if !is_first {
            text.word(number);
        }
        text.word(part);
        is_first = false;
    }
}

/// The rows of such a text.
pub fn read_rows<'a>(alloc: Global, text: &'a str) -> Result<Vec<Row<'a>>, Fault> {
    let mut rows = Vec::new(alloc);
    // the rows of the lines before this one are there
    for line in text.lines() {
        let Some((number, row)) = line.split_once(' ') else {
            return Err(Fault::NotUnderstood);
        };
        let Ok(number) = number.parse() else {
            return Err(Fault::NotUnderstood);
        };
        rows.push(read_row(number, row))?;
    }
    Ok(rows)
}

/// Whether a block with these words and rows repeats anything.
pub fn is_repeated(words: &[&str], rows: &[Row<'_>]) -> bool {
    // no word before this one repeats others
    for word in words {
        if *word == "repeat" {
            return true;
        }
    }
    // no row before this one is repeated
    for row in rows {
        if row.call.starts_with("repeat ") {
            return true;
        }
    }
    false
}
