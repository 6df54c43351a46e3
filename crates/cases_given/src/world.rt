//! What blocks are played on.

use cases::Fault;
use qm_docset::AliveBitSet;
use qm_postings::{Searcher, SegmentReader};

/// Who says what terms weigh.
#[derive(Clone, Copy)]
pub enum Manner {
    /// The searcher itself.
    Searcher,
    /// A provider that refuses whatever it is asked, with this code.
    Answers(u32),
    /// A provider that lets each term weigh 1000, and counts the terms that it is asked for.
    Counts,
}

/// What blocks are played on.
#[derive(Drop)]
pub struct World {
    pub searcher: Searcher,
    /// what `count` counts
    pub alive: AliveBitSet,
    /// who says what terms weigh
    pub manner: Manner,
}

impl World {
    /// The segment of this number.
    pub fn segment(&self, number: u32) -> Result<&SegmentReader, Fault> {
        match self.searcher.segment_reader(number) {
            Some(segment) => Ok(segment),
            None => Err(Fault::NotAllowed),
        }
    }
}
