//! What is asked of a segment that is written.

use crate::asked_segment::{Call, ask, write_error};
use crate::writes::{Writes, ask_written};
use cases::{Done, Listing};
use qm_postings::SegmentReader;
use qm_store::{StoreError, segment_bytes, write_segment};
use std::alloc::Global;
use std::io::Write;

/// A segment, as what is written.
#[derive(Drop)]
struct WrittenSegment<'a> {
    segment: &'a SegmentReader,
}

impl<'a> Writes for WrittenSegment<'a> {
    fn bytes(&self, alloc: Global, key: u64) -> Result<Vec<u8>, StoreError> {
        segment_bytes(alloc, self.segment, key)
    }

    fn write<W: Write>(&self, alloc: Global, key: u64, out: &mut W) -> Result<(), StoreError> {
        write_segment(alloc, self.segment, key, out)
    }
}

/// Answers what is asked of how the segment is written; else what is asked of a stored segment, of its bytes.
pub fn ask_segment(
    alloc: Global,
    segment: &SegmentReader,
    call: &Call<'_>,
    words: &[&str],
    text: &mut Listing,
) -> Done {
    let written = WrittenSegment { segment };
    if let Some(answer) = ask_written(alloc, &written, call.key, call.memory, words, text) {
        return answer;
    }
    match segment_bytes(alloc, segment, call.key) {
        Ok(bytes) => ask(alloc, bytes, call, words, text),
        Err(error) => write_error(error, text),
    }
}
