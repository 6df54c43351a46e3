//! What the input and the output of one run know of each other.

use std::cell::Cell;
use std::io;
use std::io::ErrorKind;

/// What the input and the output of one run know of each other.
#[derive(Drop)]
pub struct Watch {
    /// how many bytes had been written at the last flush that went well
    pub flushed: Cell<usize>,
    has_failed: Cell<bool>,
    /// how many calls came behind the first error
    pub calls_behind: Cell<u64>,
}

impl Watch {
    /// Nothing was called yet.
    pub fn new() -> Watch {
        Watch {
            flushed: Cell::new(0),
            has_failed: Cell::new(false),
            calls_behind: Cell::new(0),
        }
    }

    /// A call of any kind begins.
    pub fn begin_call(&self) {
        if self.has_failed.get() {
            let calls = self.calls_behind.get();
            self.calls_behind.set(calls.saturating_add(1));
        }
    }

    /// A call has failed for good: no further one should come.
    pub fn fail(&self) {
        self.has_failed.set(true);
    }

    /// What a call answers that goes so.
    pub fn answer(&self, turn: Result<usize, ErrorKind>) -> io::Result<usize> {
        match turn {
            Ok(most) => Ok(most),
            Err(kind) => {
                if kind != ErrorKind::Interrupted {
                    self.fail();
                }
                Err(io::Error::from(kind))
            }
        }
    }
}
