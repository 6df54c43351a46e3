//! Where the rows of a table stand.

use crate::passage::Place;

/// Tells where the rows of a table stand, one after another.
#[derive(Clone, Copy)]
pub(crate) struct RowPlaces<'a> {
    text: &'a str,
    // the number of the line at the byte
    line: u32,
    at: usize,
}

impl<'a> RowPlaces<'a> {
    /// Of the table that is this text.
    pub(crate) fn new(text: &'a str) -> RowPlaces<'a> {
        RowPlaces {
            text,
            line: 1,
            at: 0,
        }
    }

    /// Where a row stands that was read from one byte up to another: it begins behind the end of the row before it and
    /// empty lines.
    pub(crate) fn next_place(&mut self, from: u64, end: u64) -> Place {
        let start = row_start(self.text, from as usize);
        let line = self.line_at(start);
        let len = (end as usize).saturating_sub(start);
        Place { line, start, len }
    }

    // The number of the line at a later byte.
    fn line_at(&mut self, at: usize) -> u32 {
        let between = self.text.as_bytes().get(self.at..at).unwrap_or(&[]);
        let ends = between.iter().filter(|byte| **byte == b'\n').count();
        let ends = u32::try_from(ends).unwrap_or(u32::MAX);
        self.line = self.line.saturating_add(ends);
        self.at = at;
        self.line
    }
}

// The first byte of a row, behind the end of the row before it and empty lines.
fn row_start(text: &str, from: usize) -> usize {
    let rest = text.as_bytes().get(from..).unwrap_or(&[]);
    let ends = rest
        .iter()
        .take_while(|byte| **byte == b'\n' || **byte == b'\r');
    from.saturating_add(ends.count())
}
