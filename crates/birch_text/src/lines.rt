//! Documents that are lines or paragraphs.

use crate::passage::{Passages, Place};

/// Hands over each line that isn't empty, without its end.
pub fn add_lines<P: Passages>(text: &str, passages: &mut P) {
    let mut start: usize = 0;
    let mut line: u32 = 1;
    // the lines before this one are added
    for whole in text.split_inclusive('\n') {
        let words = whole.trim_end();
        if !words.is_empty() {
            let len = words.len();
            passages.add(words, Place { line, start, len });
        }
        start = start.saturating_add(whole.len());
        line = line.saturating_add(1);
    }
}

// The lines of a paragraph so far.
#[derive(Clone, Copy)]
struct Open {
    line: u32,
    start: usize,
    end: usize,
}

/// Hands over each paragraph: lines that stand together, up to an empty one or to the end.
pub fn add_paragraphs<P: Passages>(text: &str, passages: &mut P) {
    let mut open: Option<Open> = None;
    let mut start: usize = 0;
    let mut line: u32 = 1;
    // the paragraphs that ended before this line are added, and the one that it goes on with is open
    for whole in text.split_inclusive('\n') {
        let words = whole.trim_end();
        if words.is_empty() {
            close(text, open, passages);
            open = None;
        } else {
            let end = start.saturating_add(words.len());
            open = Some(with_line(open, line, start, end));
        }
        start = start.saturating_add(whole.len());
        line = line.saturating_add(1);
    }
    close(text, open, passages);
}

// The paragraph with one more line.
fn with_line(open: Option<Open>, line: u32, start: usize, end: usize) -> Open {
    match open {
        Some(open) => Open { end, ..open },
        None => Open { line, start, end },
    }
}

// Hands over a paragraph, where there is one.
fn close<P: Passages>(text: &str, open: Option<Open>, passages: &mut P) {
    let Some(Open { line, start, end }) = open else {
        return;
    };
    if let Some(words) = text.get(start..end) {
        let len = words.len();
        passages.add(words, Place { line, start, len });
    }
}
