//! The part of a text that is shown.

use crate::marks::Mark;

/// A part of a text, by its bytes, and the marks in it, by their numbers.
#[derive(Clone, Copy, PartialEq, Eq)]
pub struct Snippet {
    /// Its first byte.
    pub start: usize,
    /// The byte behind it.
    pub end: usize,
    /// The first mark that is shown; where there is none the beginning of the text is shown.
    pub first_mark: usize,
}

/// The part of a text that is shown: about so many bytes around the marks, where most of them stand
/// together. It begins and ends at a space where one is near.
pub fn snippet_of(text: &str, marks: &[Mark], room: usize) -> Snippet {
    let first_mark = densest(marks, room);
    let first = match marks.get(first_mark) {
        Some(mark) => mark.start,
        None => 0,
    };
    // a quarter of the room stands before the first mark
    let start = word_start(text, first.saturating_sub(room / 4), first);
    let end = word_end(text, start.saturating_add(room));
    Snippet {
        start,
        end,
        first_mark,
    }
}

// The first of the marks that stand together in the room, where most do.
fn densest(marks: &[Mark], room: usize) -> usize {
    let mut best = 0;
    let mut most = 0;
    let mut first = 0;
    // of the marks before this one, no more stand within the room than from the best on
    for (number, mark) in marks.iter().enumerate() {
        first = first_within(marks, first, mark.end.saturating_sub(room));
        let together = number.saturating_sub(first);
        if together > most {
            most = together;
            best = first;
        }
    }
    best
}

// The first mark from that number on that begins at the byte or behind it.
fn first_within(marks: &[Mark], first: usize, from: usize) -> usize {
    let left = marks.get(first..).unwrap_or(&[]);
    let skipped = left.iter().take_while(|mark| mark.start < from).count();
    first.saturating_add(skipped)
}

// The beginning of the first word from a byte on, but no later than `latest`.
fn word_start(text: &str, from: usize, latest: usize) -> usize {
    if from == 0 {
        return 0;
    }
    let from = boundary(text, from);
    let between = text.get(from..latest).unwrap_or("");
    match between.find(char::is_whitespace) {
        Some(space) => from.saturating_add(space).saturating_add(1).min(latest),
        None => from.min(latest),
    }
}

// The end of the word at a byte, where it is near.
fn word_end(text: &str, at: usize) -> usize {
    if at >= text.len() {
        return text.len();
    }
    let at = boundary(text, at);
    let before = text.get(..at).unwrap_or("");
    match before.rfind(char::is_whitespace) {
        Some(space) if at.saturating_sub(space) < 40 => space,
        _ => at,
    }
}

// The first byte from there on where a letter begins.
fn boundary(text: &str, from: usize) -> usize {
    // no letter begins from there to before this place
    for at in from..text.len() {
        if text.is_char_boundary(at) {
            return at;
        }
    }
    text.len()
}
