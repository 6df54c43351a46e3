//! How often members were moved.

use std::cell::Cell;

/// How often the first of a block's own cursors was moved, and how often all others were.
#[derive(Drop)]
pub struct Moves {
    pub first: Cell<u64>,
    pub others: Cell<u64>,
}

impl Moves {
    pub fn new() -> Moves {
        Moves {
            first: Cell::new(0),
            others: Cell::new(0),
        }
    }

    /// How often any of them was moved.
    pub fn total(&self) -> u64 {
        self.first.get().saturating_add(self.others.get())
    }
}
