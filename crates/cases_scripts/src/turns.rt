//! How the calls of one kind go: the reads of an input, the writes or the flushes of an output.

use cases::{Done, Fault, word};
use std::io::ErrorKind;

/// How the calls of one kind go, and how many were made.
#[derive(Clone, Copy)]
pub struct Turns {
    /// how many bytes a call moves at most
    most: usize,
    /// whether each call is interrupted once before it
    is_interrupted: bool,
    was_interrupted: bool,
    /// the number of the call that fails, and how; 0 where none does
    failing: u64,
    kind: ErrorKind,
    /// how many calls were made; those that were interrupted don't count
    pub made: u64,
}

impl Turns {
    /// All calls go well.
    pub fn new() -> Turns {
        Turns {
            most: usize::MAX,
            is_interrupted: false,
            was_interrupted: false,
            failing: 0,
            kind: ErrorKind::BrokenPipe,
            made: 0,
        }
    }

    /// Takes what a row says: `at most N`, `interrupted`, or `fails N` and a kind of error.
    pub fn take(&mut self, words: &[&str]) -> Done {
        match word(words, 0) {
            "interrupted" => self.is_interrupted = true,
            "at" => match word(words, 2).parse() {
                Ok(most) => self.most = most,
                Err(_) => return Err(Fault::NotUnderstood),
            },
            "fails" => match (word(words, 1).parse(), read_kind(word(words, 2))) {
                (Ok(failing), Some(kind)) => {
                    self.failing = failing;
                    self.kind = kind;
                }
                _ => return Err(Fault::NotUnderstood),
            },
            _ => return Err(Fault::NotUnderstood),
        }
        Ok(())
    }

    /// The same, but that the call of this number fails, and no other one.
    pub fn failing(self, number: u64) -> Turns {
        Turns {
            failing: number,
            ..self
        }
    }

    /// How the next call goes: how many bytes it may move, or which error it answers.
    pub fn next(&mut self) -> Result<usize, ErrorKind> {
        self.was_interrupted = self.is_interrupted && !self.was_interrupted;
        if self.was_interrupted {
            return Err(ErrorKind::Interrupted);
        }
        self.made = self.made.saturating_add(1);
        if self.made == self.failing {
            Err(self.kind)
        } else {
            Ok(self.most)
        }
    }
}

fn read_kind(name: &str) -> Option<ErrorKind> {
    match name {
        "" => Some(ErrorKind::BrokenPipe),
        "Interrupted" => Some(ErrorKind::Interrupted),
        "OutOfMemory" => Some(ErrorKind::OutOfMemory),
        "TimedOut" => Some(ErrorKind::TimedOut),
        "UnexpectedEof" => Some(ErrorKind::UnexpectedEof),
        "WouldBlock" => Some(ErrorKind::WouldBlock),
        _ => None,
    }
}
