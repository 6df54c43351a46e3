//! A block of a case.

use crate::fault::Done;
use crate::memory::Memory;
use crate::report::Report;
use crate::row::Row;
use std::alloc::Global;

/// What a block makes, and the rows below it.
#[derive(Clone, Copy)]
pub struct Block<'a> {
    pub line: u64,
    pub words: &'a [&'a str],
    pub rows: &'a [Row<'a>],
    /// which requests for memory are refused as its thing is made, and no other ones
    pub memory: Memory,
}

/// What makes the things of blocks and plays their rows.
pub trait Player {
    /// Makes what the words of a block say, with some requests for memory refused in the one call that
    /// makes it, and plays the rows on it. A refusal of that call is answered as
    /// [`Fault::Refused`](crate::Fault::Refused), and then no row was played.
    fn play(&mut self, alloc: Global, block: Block<'_>, report: &mut Report) -> Done;
}
