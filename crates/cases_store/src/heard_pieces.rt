//! Bytes of the case's own that are read as a segment: which counts how they are read, and may refuse it.

use qm_store::{Pieces, StoreError};
use std::cell::Cell;

/// How often the bytes were asked for, and how many were read.
#[derive(Drop)]
pub struct Heard {
    pub calls: Cell<u64>,
    pub bytes: Cell<u64>,
    /// the number of the call that is refused, from 1 on; none where it is 0
    pub refused: u64,
}

impl Heard {
    pub fn new(refused: u64) -> Heard {
        Heard {
            calls: Cell::new(0),
            bytes: Cell::new(0),
            refused,
        }
    }

    // Counts a call, which may be the one that is refused.
    fn count(&self, bytes: u64) -> Result<(), StoreError> {
        let calls = self.calls.get().saturating_add(1);
        self.calls.set(calls);
        if calls == self.refused {
            return Err(StoreError::Failed);
        }
        self.bytes.set(self.bytes.get().saturating_add(bytes));
        Ok(())
    }
}

/// Bytes, and who hears how they are read.
#[derive(Drop)]
pub struct HeardPieces<'a> {
    pub bytes: &'a [u8],
    pub heard: &'a Heard,
}

impl<'a> Pieces for HeardPieces<'a> {
    fn byte_count(&self) -> Result<u64, StoreError> {
        self.heard.count(0)?;
        Ok(self.bytes.len() as u64)
    }

    fn read_at(&self, at: u64, count: u64, into: &mut Vec<u8>) -> Result<(), StoreError> {
        self.heard.count(count)?;
        let there = self.bytes.len() as u64;
        if at > there || count > there - at {
            return Err(StoreError::Damaged);
        }
        let start = at as usize;
        Ok(into.extend_from_slice(&self.bytes[start..start + count as usize])?)
    }
}
