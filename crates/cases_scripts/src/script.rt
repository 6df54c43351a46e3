//! A script that rows spell, each line with its answer.

use crate::spelled::read_bytes;
use cases::{Done, Fault, Row};
use std::alloc::{AllocError, Global};

/// A script, and what its lines are to be answered.
#[derive(Drop)]
pub struct Script {
    bytes: Vec<u8>,
    /// the answers, a line each
    pub text: String,
    /// the lines that are answered
    pub answered: Vec<Answered>,
    /// the exit status
    pub status: u8,
    ends: Vec<LineEnd>,
    // how many lines have ended
    lines: u64,
    // whether the last line is answered without an end, so that nothing may follow
    is_ended: bool,
}

/// A line that is answered.
#[derive(Clone, Copy)]
pub struct Answered {
    /// the line of the row that spells it
    pub row: u64,
    /// its number in the script
    pub number: u64,
}

// How long the script and the text are, each up to and with a line.
#[derive(Clone, Copy)]
struct LineEnd {
    bytes: usize,
    text: usize,
}

impl Script {
    /// An empty script.
    pub fn new(alloc: Global) -> Script {
        Script {
            bytes: Vec::new(alloc),
            text: String::new(alloc),
            answered: Vec::new(alloc),
            status: 0,
            ends: Vec::new(alloc),
            lines: 0,
            is_ended: false,
        }
    }

    /// How many bytes it has.
    pub fn len(&self) -> usize {
        self.bytes.len()
    }

    /// Its first so many bytes.
    pub fn beginning(&self, length: usize) -> &[u8] {
        &self.bytes[..length.min(self.bytes.len())]
    }

    /// How long the answers are of the lines that its first so many bytes have whole.
    pub fn owed(&self, length: usize) -> usize {
        let mut owed = 0;
        // of the ends so far, the last within these bytes says it
        for end in &self.ends {
            if end.bytes <= length {
                owed = end.text;
            }
        }
        owed
    }

    /// Takes a row `line ..`, `words ..` or `text ..`, by the words behind the first.
    pub fn take(&mut self, row: &Row<'_>, name: &str, spelled: &str) -> Done {
        if self.is_ended || (name == "words" && !row.wanted.is_empty()) {
            return Err(Fault::NotUnderstood);
        }
        read_bytes(spelled, &mut self.bytes)?;
        match name {
            "line" => {
                self.bytes.push(b'\n')?;
                self.take_answer(row)?;
                Ok(self.end_line()?)
            }
            "words" => Ok(self.bytes.push(b' ')?),
            _ => {
                self.is_ended = !row.wanted.is_empty();
                Ok(self.take_answer(row)?)
            }
        }
    }

    fn end_line(&mut self) -> Result<(), AllocError> {
        self.lines = self.lines.saturating_add(1);
        let end = LineEnd {
            bytes: self.bytes.len(),
            text: self.text.as_str().len(),
        };
        Ok(self.ends.push(end)?)
    }

    // Takes what the line is answered that stands last, if it is.
    fn take_answer(&mut self, row: &Row<'_>) -> Result<(), AllocError> {
        if row.wanted.is_empty() {
            return Ok(());
        }
        let number = self.lines.saturating_add(1);
        let status = status_of(row.wanted);
        if status > 0 {
            write!(self.text, "line {number}: ")?;
        }
        if row.wanted != "none" {
            self.text.push_str(row.wanted)?;
        }
        self.text.push('\n')?;
        self.status = self.status.max(status);
        let row = row.line;
        Ok(self.answered.push(Answered { row, number })?)
    }
}

// The exit status of a script of one line that is answered so.
fn status_of(answer: &str) -> u8 {
    if answer == "not understood" {
        2
    } else {
        u8::from(answer.starts_with("refused "))
    }
}
