//! How many documents of an index are in its open segment.

ghost use Rattle.std.specs.Prelude.{◌≡◌, ◌+◌, ◌≤◌, length};
ghost use Rattle.qm_index.specs.Indexed.{indexed};
ghost use Rattle.qm_index.specs.Numbers.{document_count};

use qm_index::Index;
use qm_postings::SegmentReader;

// How many documents the open segment has. Costs a step for each segment.
pub(crate) fn open_documents(index: &Index) -> u64
    ensures { result ≡ length (indexed index.now).current.documents }
{
    let all = index.document_count();
    documents_behind(index.ended_segments(), all)
}

// How many of so many documents are behind those of some segments.
fn documents_behind(segments: &[SegmentReader], all: u64) -> u64
    requires within { document_count segments.now ≤ all }
    ensures { result + document_count segments.now ≡ all }
{
    let mut left = all;
    // those of the segments before this one are taken off
    for segment in segments {
        left -= u64::from(segment.max_doc());
    }
    left
}
