//! Postings whose positions are shifted.

ghost use Rattle.std.specs.Prelude.{◌≡◌, ◌+◌, ◌<◌, ◌≤◌, All, drop, vec_capacity};
ghost use Rattle.qm_docset.specs.Cursor.{IsSeekAnswer, OnFound};
ghost use Rattle.qm_docset.specs.Entry.{from, head_document, head_positions};
ghost use Rattle.qm_phrase.specs.PostingsWithOffset.{ReadsAtOffset, offset_of, inner_postings};
ghost use Rattle.qm_postings.specs.Positions.{shifted};

use qm_docset::{
    AliveBitSet, COLLECT_BLOCK_BUFFER_LEN, DocId, DocSet, SeekDangerResult, TERMINATED,
};
use qm_postings::Postings;

/// Postings beside an offset, by which their positions are shifted when they are read. As a cursor it
/// is its postings.
#[derive(Drop)]
pub struct PostingsWithOffset<P> {
    offset: u32,
    postings: P,
}

impl<P: Postings> PostingsWithOffset<P> {
    /// These postings, to be read at this offset. They stay where they are. Takes no memory.
    pub fn new(postings: P, offset: u32) -> PostingsWithOffset<P>
        ensures postings { inner_postings result ≡ postings }
        ensures offset { offset_of result ≡ offset }
    {
        PostingsWithOffset { offset, postings }
    }

    /// Leaves in the output the positions of the document that the cursor stands on, each plus the
    /// offset, ascending.
    ///
    /// Asks that the cursor stands on a document, that each sum is at most 4294967295, and that the
    /// output has room for the postings' `max_term_freq` numbers. Takes no memory.
    pub fn positions(&mut self, output: &mut Vec<u32>)
        requires valid { P.valid (inner_postings self.old) }
        requires placed { P.placed (inner_postings self.old) }
        requires here { head_document (P.entries (inner_postings self.old)) < TERMINATED }
        requires sums { All (λ p. p + offset_of self.old ≤ 4294967295) (head_positions (P.entries (inner_postings self.old))) }
        requires room { (P.limits (inner_postings self.old)).room ≤ vec_capacity output.old }
        ensures positions { output.new.items ≡ shifted (offset_of self.old) (head_positions (P.entries (inner_postings self.old))) }
        ensures capacity { vec_capacity output.old ≤ vec_capacity output.new }
        ensures entries { P.entries (inner_postings self.new) ≡ P.entries (inner_postings self.old) }
        ensures limits { P.limits (inner_postings self.new) ≡ P.limits (inner_postings self.old) }
        ensures valid { P.valid (inner_postings self.new) }
        ensures placed { P.placed (inner_postings self.new) }
        ensures offset { offset_of self.new ≡ offset_of self.old }
    {
        self.postings.positions_with_offset(self.offset, output);
    }
}

/// Every call is that of the postings, and keeps the offset.
impl<P: Postings> DocSet for PostingsWithOffset<P> {
    ghost entries = { λ s. P.entries s.postings };

    ghost limits = { λ s. P.limits s.postings };

    ghost keeps = { λ s t. ReadsAtOffset P.DocSet s t };

    ghost placed = { λ s. P.placed s.postings };

    ghost valid = { λ s. P.valid s.postings };

    fn doc(&self) -> DocId {
        self.postings.doc()
    }

    fn advance(&mut self) -> DocId {
        self.postings.advance()
    }

    fn seek(&mut self, target: DocId) -> DocId {
        self.postings.seek(target)
    }

    fn seek_danger(&mut self, target: DocId) -> SeekDangerResult {
        self.postings.seek_danger(target)
    }

    fn fill_buffer(&mut self, buffer: &mut [DocId; COLLECT_BLOCK_BUFFER_LEN]) -> usize {
        self.postings.fill_buffer(buffer)
    }

    fn size_hint(&self) -> u32 {
        self.postings.size_hint()
    }

    fn cost(&self) -> u64 {
        self.postings.cost()
    }

    fn count(&mut self, alive: &AliveBitSet) -> u32 {
        self.postings.count(alive)
    }

    fn count_including_deleted(&mut self) -> u32 {
        self.postings.count_including_deleted()
    }

    ghost ascending = { λ s h. P.ascending s.postings h };
}
