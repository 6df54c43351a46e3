//! How far a buffer of documents below a bound goes.

ghost use Rattle.std.specs.Prelude.{◌≡◌, ◌+◌, ◌≤◌, List, length};
ghost use Rattle.qm_docset.specs.Documents.{AreDocuments};
ghost use Rattle.qm_docset.specs.Entry.{AreEntries, Entry, Limits, documents};
ghost use Rattle.qm_postings.specs.EndBelow.{place_below};

use qm_docset::{COLLECT_BLOCK_BUFFER_LEN, DocId, gallop};

// The place behind the next documents that are below a bound, from a place on, at most as many as a buffer has room for.
#[inline]
pub(crate) fn end_below(docs: &[DocId], start: usize, bound: DocId) -> usize
    requires documents { AreDocuments docs.now }
    requires start { start ≤ length docs.now }
    ensures from_start { start ≤ result }
    ensures within { result ≤ length docs.now }
    ensures room { result ≤ start + COLLECT_BLOCK_BUFFER_LEN }
    ensures place { (es : List Entry) (limits : Limits) →
        documents es ≡ docs.now → AreEntries 0 limits es → result ≡ place_below start bound es }
{
    let most = COLLECT_BLOCK_BUFFER_LEN.min(docs.len() - start);
    let end = start + most;
    if most == 0 || docs[end - 1] < bound {
        return end;
    }
    gallop(&docs[..end], start, bound)
}
