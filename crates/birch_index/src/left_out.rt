//! What is left out of a search, and how that is told.

use crate::reading::Reading;
use birch_text::Cleaned;
use std::alloc::AllocError;
use std::cell::Cell;
use std::io;

/// Why a file, or some of its rows, are not searched.
#[derive(Clone, Copy, PartialEq, Eq)]
pub enum LeftOut {
    /// It has a zero byte.
    Binary,
    /// It is larger than a file may be.
    TooLarge,
    /// The first row of the table has no such column.
    NoColumn,
    /// So many rows have no such text, the first of them on that line.
    Rows {
        /// The line of the first.
        line: u32,
        /// How many.
        count: u32,
    },
}

/// How much is left out, by the reasons; each file is listed where that is wanted.
#[derive(Drop)]
pub struct Notes {
    is_listed: bool,
    binary: Cell<u64>,
    too_large: Cell<u64>,
    no_column: Cell<u64>,
    rows: Cell<u64>,
    unreadable: Cell<u64>,
    bad_names: Cell<u64>,
    // whether something is wrong with a path of the command line
    has_failed: Cell<bool>,
}

impl Notes {
    /// Nothing is left out yet. Each file is to be listed, or none.
    pub fn new(is_listed: bool) -> Notes {
        Notes {
            is_listed,
            binary: Cell::new(0),
            too_large: Cell::new(0),
            no_column: Cell::new(0),
            rows: Cell::new(0),
            unreadable: Cell::new(0),
            bad_names: Cell::new(0),
            has_failed: Cell::new(false),
        }
    }

    /// Begins anew, as all files are looked at once more.
    pub fn begin(&self) {
        self.binary.set(0);
        self.too_large.set(0);
        self.no_column.set(0);
        self.rows.set(0);
        self.unreadable.set(0);
        self.bad_names.set(0);
        self.has_failed.set(false);
    }

    /// Whether a path of the command line can't be read.
    pub fn has_failed(&self) -> bool {
        self.has_failed.get()
    }

    /// Counts a file, or rows of it.
    pub fn add(&self, rt: &HostRuntime, path: &str, why: LeftOut) {
        match why {
            LeftOut::Binary => self.count(rt, &self.binary, path, "left out, it is binary"),
            LeftOut::TooLarge => {
                let what = "left out, it is larger than --max-size";
                self.count(rt, &self.too_large, path, what);
            }
            LeftOut::NoColumn => {
                let what = "left out, its first row has no such column";
                self.count(rt, &self.no_column, path, what);
            }
            LeftOut::Rows { line, count } => {
                self.rows
                    .set(self.rows.get().saturating_add(u64::from(count)));
                if self.is_listed {
                    let path = Cleaned(path);
                    let _ = eprintln!(rt;
                        "birch: {path}:{line}: rows left out from here on: {count}"
                    );
                }
            }
        }
    }

    fn count(&self, rt: &HostRuntime, counter: &Cell<u64>, path: &str, what: &str) {
        counter.set(counter.get().saturating_add(1));
        if self.is_listed {
            note(rt, path, what);
        }
    }

    /// Counts a file or folder that can't be read. One of the command line is always told. Want of memory is handed on.
    pub fn add_error(
        &self,
        rt: &HostRuntime,
        reading: &Reading<'_>,
        path: &str,
        error: &io::Error,
    ) -> Result<(), AllocError> {
        if error.kind() == io::ErrorKind::OutOfMemory {
            return Err(AllocError);
        }
        let is_given = reading.paths.iter().any(|given| *given == path);
        if is_given {
            self.has_failed.set(true);
        } else if error.kind() == io::ErrorKind::InvalidFilename {
            self.bad_names.set(self.bad_names.get().saturating_add(1));
        } else {
            self.unreadable.set(self.unreadable.get().saturating_add(1));
        }
        if is_given || self.is_listed {
            let path = Cleaned(path);
            let _ = eprintln!(rt; "birch: {path}: {error}");
        }
        Ok(())
    }

    /// Tells in one line how much is left out, where anything is.
    pub fn tell(&self, rt: &HostRuntime) {
        let mut told = Told {
            rt,
            is_begun: false,
        };
        told.add(self.binary.get(), "binary");
        told.add(self.unreadable.get(), "unreadable");
        told.add(self.bad_names.get(), "with a name that is no UTF-8");
        told.add(self.too_large.get(), "larger than --max-size");
        told.add(self.no_column.get(), "without the column");
        told.add(self.rows.get(), "rows without a text");
        if !told.is_begun {
            return;
        }
        let hint = if self.is_listed {
            ""
        } else {
            "; --notes lists them"
        };
        let _ = eprintln!(rt; "{hint}");
    }
}

// Tells counts, one behind another.
#[derive(Clone, Copy)]
struct Told<'a> {
    rt: &'a HostRuntime,
    // whether one was told
    is_begun: bool,
}

impl<'a> Told<'a> {
    fn add(&mut self, count: u64, what: &str) {
        if count == 0 {
            return;
        }
        let before = if self.is_begun {
            ", "
        } else {
            "birch: left out: "
        };
        let _ = eprint!(self.rt; "{before}{count} {what}");
        self.is_begun = true;
    }
}

/// Tells on standard error what is the matter with a file.
pub fn note(rt: &HostRuntime, path: &str, what: &str) {
    let path = Cleaned(path);
    let _ = eprintln!(rt; "birch: {path}: {what}");
}
