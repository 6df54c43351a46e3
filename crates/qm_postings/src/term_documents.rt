//! A cursor over the documents of a term.
//!
//! Such a cursor has three words of memory, where one with frequencies has twenty: a query may have 10,000 of them.

ghost use Rattle.std.specs.Prelude.{◌≡◌, ◌≤◌, [], drop, length, map, min, take};
ghost use Rattle.qm_docset.specs.AliveBitSet.{alive_entries};
ghost use Rattle.qm_docset.specs.Cursor.{IsSeekAnswer};
ghost use Rattle.qm_docset.specs.Documents.{AreDocuments};
ghost use Rattle.qm_docset.specs.DocumentsFacts.{AreEntries-documents};
ghost use Rattle.qm_docset.specs.Entry.{below, documents, from, head_document, no_limits, plain};
ghost use Rattle.qm_docset.specs.EntryFacts.{AreEntries-drop};
ghost use Rattle.qm_docset.specs.Lists.{Lists};
ghost use Rattle.qm_postings.specs.TermDocuments.{IsOverDocuments, LeavesDocuments, documents_left};

use crate::end_below::end_below;
use qm_docset::{COLLECT_BLOCK_BUFFER_LEN, DocId, DocSet, TERMINATED, gallop};

/// A cursor over the documents that hold a term, of which nothing else is known: it takes three words of the machine,
/// where [`SegmentPostings`](crate::SegmentPostings) takes twenty. It borrows the array of its segment; copying it takes
/// no memory.
#[derive(Clone, Copy, Debug)]
pub struct TermDocuments<'a> {
    documents: &'a [DocId],
    cursor: usize,
}

impl<'a> TermDocuments<'a> {
    // Stands on the first of these documents, which ascend strictly and are below `TERMINATED`.
    pub(crate) fn new(documents: &'a [DocId]) -> TermDocuments<'a>
        requires { AreDocuments documents.now }
        ensures { Lists ⟦<TermDocuments<'a> as DocSet>⟧ result (map plain documents.now) no_limits }
    {
        TermDocuments {
            documents,
            cursor: 0,
        }
    }
}

/// A cursor over documents is always placed. `seek` costs the logarithm of the distance, a buffer or a count no step at
/// all.
impl<'a> DocSet for TermDocuments<'a> {
    ghost entries = { documents_left };

    ghost placed = { λ _. Unit {0} };

    ghost valid = { IsOverDocuments };

    fn doc(&self) -> DocId {
        match self.documents.get(self.cursor) {
            Some(doc) => *doc,
            None => TERMINATED,
        }
    }

    fn advance(&mut self) -> DocId
        requires { IsOverDocuments self.old }
        ensures head { result ≡ head_document (documents_left self.new) }
        ensures left { LeavesDocuments self.new (drop 1 (documents_left self.old)) }
    {
        if self.cursor < self.documents.len() {
            self.cursor += 1;
        }
        self.doc()
    }

    fn seek(&mut self, target: DocId) -> DocId
        requires valid { IsOverDocuments self.old }
        requires target { target ≤ TERMINATED }
        ensures head { result ≡ head_document (documents_left self.new) }
        ensures left { LeavesDocuments self.new (from target (documents_left self.old)) }
    {
        self.cursor = gallop(self.documents, self.cursor, target);
        self.doc()
    }

    fn fill_buffer(&mut self, buffer: &mut [DocId; COLLECT_BLOCK_BUFFER_LEN]) -> usize
        requires { IsOverDocuments self.old }
        ensures count { result ≡ min COLLECT_BLOCK_BUFFER_LEN (length (documents_left self.old)) }
        ensures documents { take result buffer.new ≡ documents (take COLLECT_BLOCK_BUFFER_LEN (documents_left self.old)) }
        ensures left { LeavesDocuments self.new (drop COLLECT_BLOCK_BUFFER_LEN (documents_left self.old)) }
    {
        let count = COLLECT_BLOCK_BUFFER_LEN.min(self.documents.len() - self.cursor);
        let end = self.cursor + count;
        buffer[..count].copy_from_slice(&self.documents[self.cursor..end]);
        self.cursor = end;
        count
    }

    fn fill_buffer_below(
        &mut self,
        bound: DocId,
        buffer: &mut [DocId; COLLECT_BLOCK_BUFFER_LEN],
    ) -> usize
        requires valid { IsOverDocuments self.old }
        ensures count { result ≡ min COLLECT_BLOCK_BUFFER_LEN (length (below bound (documents_left self.old))) }
        ensures documents { take result buffer.new ≡ documents (take result (documents_left self.old)) }
        ensures left { LeavesDocuments self.new (drop result (documents_left self.old)) }
    {
        let end = end_below(self.documents, self.cursor, bound);
        let count = end - self.cursor;
        buffer[..count].copy_from_slice(&self.documents[self.cursor..end]);
        self.cursor = end;
        count
    }

    fn size_hint(&self) -> u32 {
        u32::try_from(self.documents.len() - self.cursor).unwrap_or(u32::MAX)
    }

    fn count_including_deleted(&mut self) -> u32
        requires { IsOverDocuments self.old }
        ensures count { result ≡ length (documents_left self.old) }
        ensures left { LeavesDocuments self.new [] }
    {
        let count = (self.documents.len() - self.cursor) as u32;
        self.cursor = self.documents.len();
        count
    }

    ghost ascending = { λ s h. AreEntries-drop s.cursor 0 no_limits _ (AreEntries-documents 0 s.documents.now h.documents) };
}
