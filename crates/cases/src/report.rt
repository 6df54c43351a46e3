//! What was wanted and did not come.

use crate::fault::{Done, Fault};
use crate::listing::Listing;
use crate::memory::is_heard;
use crate::row::Row;
use std::alloc::Global;

// room for the answers of rows that are to take no memory
const ROOM: usize = 65536;

/// The rows that were played, and a text of those that are wrong.
#[derive(Drop)]
pub struct Report {
    text: Listing,
    /// what a row was answered, as far as it is written
    pub got: Listing,
    file: Listing,
    // the line before the first of the file
    begin: u64,
    rows: u64,
    wrong: u64,
    // whether there was no memory for what a row was to be answered
    is_refused: bool,
}

impl Report {
    pub fn new(alloc: Global) -> Report {
        let (mut text, mut got) = (Listing::new(alloc), Listing::new(alloc));
        text.reserve(ROOM);
        got.reserve(ROOM);
        Report {
            text,
            got,
            file: Listing::new(alloc),
            begin: 0,
            rows: 0,
            wrong: 0,
            is_refused: false,
        }
    }

    /// From the next line on, lines are those of this file.
    pub fn begin_file(&mut self, line: u64, name: &str) {
        self.begin = line;
        self.file.clear();
        self.file.word(name);
    }

    /// Takes what a row was answered: what was written, or a fault.
    pub fn take(&mut self, row: &Row<'_>, answer: Done) {
        match answer {
            Ok(()) => self.take_written(row.line, row.wanted),
            Err(Fault::Refused(error)) => {
                self.got.clear();
                write!(self.got, "refused {error:?}");
                self.take_written(row.line, row.wanted);
            }
            Err(Fault::NotUnderstood) => self.wrong(row.line, "not understood"),
            Err(Fault::NotAllowed) => self.wrong(row.line, "not allowed"),
            Err(Fault::Memory) => self.is_refused = true,
        }
    }

    // Takes what was wanted of a line; what came is written.
    fn take_written(&mut self, line: u64, wanted: &str) {
        self.rows = self.rows.saturating_add(1);
        if self.got.as_str() != wanted {
            self.wrong = self.wrong.saturating_add(1);
            let line = line.saturating_sub(self.begin);
            let (file, got) = (self.file.as_str(), self.got.as_str());
            write!(self.text, "{file}:{line}: wanted {wanted}, got {got}\n");
        }
        self.got.clear();
    }

    /// Takes what was wanted of a line, and what came.
    pub fn compare(&mut self, line: u64, wanted: &str, got: &str) {
        self.got.clear();
        self.got.word(got);
        self.take_written(line, wanted);
    }

    /// A line that is wrong in itself.
    pub fn wrong(&mut self, line: u64, why: &str) {
        self.compare(line, "a row that can be played", why);
    }

    /// Takes a row from which on requests for memory are refused. It is wrong where no refusal is heard.
    pub fn hear(&mut self, alloc: Global, row: &Row<'_>) {
        let heard = if is_heard(alloc) { "" } else { "unheard" };
        self.compare(row.line, row.wanted, heard);
    }

    /// A fault where there was no memory for something that was answered or written.
    pub fn check_memory(&self) -> Done {
        if self.is_refused
            || self.text.is_refused()
            || self.got.is_refused()
            || self.file.is_refused()
        {
            return Err(Fault::Memory);
        }
        Ok(())
    }

    /// Ends the text with the counts.
    pub fn finish(&mut self) -> Done {
        let (rows, wrong) = (self.rows, self.wrong);
        write!(self.text, "{rows} rows, {wrong} wrong\n");
        self.check_memory()
    }

    /// The wrong rows, a line each.
    pub fn text(&self) -> &str {
        self.text.as_str()
    }

    /// Whether there was a row, and none was wrong.
    pub fn is_right(&self) -> bool {
        self.rows > 0 && self.wrong == 0
    }
}
