//! Whether a document of a segment is there.

ghost use Rattle.std.specs.Prelude.{◌≡◌, ◌<◌, length};
ghost use Rattle.qm_postings.specs.Segment.{is_alive};

use qm_docset::DocId;
use qm_postings::SegmentReader;

// Whether a document was not deleted. Constant time.
pub(crate) fn is_alive(segment: &SegmentReader, doc: DocId) -> bool
    requires { doc < length segment.now.segment.documents }
    ensures { result ≡ is_alive segment.now.segment doc }
{
    match segment.alive_bitset() {
        Some(alive) => alive.is_alive(doc),
        None => true,
    }
}
