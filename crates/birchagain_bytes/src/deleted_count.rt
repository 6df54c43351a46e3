//! How many documents of a segment are deleted.

ghost use Rattle.std.specs.Prelude.{◌≡◌, ◌≤◌, length};
ghost use Rattle.qm_postings.specs.Segment.{deleted_documents};

use qm_postings::SegmentReader;

// How many documents of a segment are deleted. Constant time.
pub(crate) fn deleted_count(segment: &SegmentReader) -> u32
    ensures deleted { result ≡ length segment.now.segment.deleted }
    ensures ascending { segment.now.segment.deleted ≡ deleted_documents segment.now.segment }
    ensures few { length segment.now.segment.documents ≤ 4294967295 }
{
    let count = segment.max_doc();
    match segment.alive_bitset() {
        Some(_) => count - segment.num_docs(),
        None => 0,
    }
}
