//! A cursor over a list of documents.
//!
//! What a place of an ascending list has left is proved once, for this cursor and for those over postings
//! (`proofs/PlacesLeft.antt`).

ghost use Rattle.std.specs.Prelude.{◌≡◌, ◌≤◌, [], length, map, min, take, drop, vec_len};
ghost use Rattle.qm_docset.specs.AliveBitSet.{alive_entries};
ghost use Rattle.qm_docset.specs.Cursor.{IsSeekAnswer};
ghost use Rattle.qm_docset.specs.Documents.{AreDocuments};
ghost use Rattle.qm_docset.specs.DocumentsFacts.{AreEntries-documents};
ghost use Rattle.qm_docset.specs.Entry.{documents, from, head_document, no_limits, plain};
ghost use Rattle.qm_docset.specs.Lists.{Lists};
ghost use Rattle.qm_docset.specs.VecDocSet.{remaining_documents, IsVecCursor, HasLeft, full_length};

use crate::alive_bitset::AliveBitSet;
use crate::docset::{DocSet, SeekDangerResult, seek_answer};
use crate::galloping::gallop;
use crate::has_len::HasLen;
use crate::numbers::{COLLECT_BLOCK_BUFFER_LEN, DocId, TERMINATED};

/// A cursor over a list of documents that it owns.
#[derive(Debug, Drop)]
pub struct VecDocSet {
    docs: Vec<DocId>,
    cursor: usize,
}

impl VecDocSet {
    /// A cursor that stands on the first of these documents. Asks that they ascend strictly and
    /// are below [`TERMINATED`].
    pub fn new(docs: Vec<DocId>) -> VecDocSet
        requires { AreDocuments docs.items }
        ensures lists { Lists ⟦<VecDocSet as DocSet>⟧ result (map plain docs.items) no_limits }
        ensures len { full_length result ≡ vec_len docs }
    {
        VecDocSet { docs, cursor: 0 }
    }
}

/// The length is that of the list that the cursor was made with, however far it has gone.
impl HasLen for VecDocSet {
    ghost len_of = { full_length };

    fn len(&self) -> usize {
        self.docs.len()
    }

    fn is_empty(&self) -> bool {
        self.docs.is_empty()
    }
}

/// A cursor over a list is always placed. `seek` costs the logarithm of the distance, a buffer or a
/// count no step at all.
impl DocSet for VecDocSet {
    ghost entries = { remaining_documents };

    ghost placed = { λ _. Unit {0} };

    ghost valid = { IsVecCursor };

    fn doc(&self) -> DocId {
        match self.docs.get(self.cursor) {
            Some(doc) => *doc,
            None => TERMINATED,
        }
    }

    fn advance(&mut self) -> DocId
        requires { IsVecCursor self.old }
        ensures head { result ≡ head_document (remaining_documents self.new) }
        ensures left { HasLeft self.old self.new (drop 1 (remaining_documents self.old)) }
    {
        if self.cursor < self.docs.len() {
            self.cursor += 1;
        }
        self.doc()
    }

    fn seek(&mut self, target: DocId) -> DocId
        requires valid { IsVecCursor self.old }
        requires target { target ≤ TERMINATED }
        ensures head { result ≡ head_document (remaining_documents self.new) }
        ensures left { HasLeft self.old self.new (from target (remaining_documents self.old)) }
    {
        self.cursor = gallop(&self.docs, self.cursor, target);
        self.doc()
    }

    fn seek_danger(&mut self, target: DocId) -> SeekDangerResult
        requires valid { IsVecCursor self.old }
        requires target { target ≤ TERMINATED }
        ensures answer { IsSeekAnswer target (remaining_documents self.new) result }
        ensures left { HasLeft self.old self.new (from target (remaining_documents self.old)) }
    {
        let doc = self.seek(target);
        seek_answer(target, doc)
    }

    fn fill_buffer(&mut self, buffer: &mut [DocId; COLLECT_BLOCK_BUFFER_LEN]) -> usize
        requires { IsVecCursor self.old }
        ensures count { result ≡ min COLLECT_BLOCK_BUFFER_LEN (length (remaining_documents self.old)) }
        ensures documents { take result buffer.new ≡ documents (take COLLECT_BLOCK_BUFFER_LEN (remaining_documents self.old)) }
        ensures left { HasLeft self.old self.new (drop COLLECT_BLOCK_BUFFER_LEN (remaining_documents self.old)) }
    {
        let count = COLLECT_BLOCK_BUFFER_LEN.min(self.docs.len() - self.cursor);
        let end = self.cursor + count;
        buffer[..count].copy_from_slice(&self.docs[self.cursor..end]);
        self.cursor = end;
        count
    }

    fn size_hint(&self) -> u32 {
        u32::try_from(self.docs.len() - self.cursor).unwrap_or(u32::MAX)
    }

    fn count(&mut self, alive: &AliveBitSet) -> u32
        requires { IsVecCursor self.old }
        ensures count { result ≡ length (alive_entries alive.now (remaining_documents self.old)) }
        ensures left { HasLeft self.old self.new [] }
    {
        let mut count = 0;
        // with those alive that are still to be looked at, all of them are counted
        for doc in &self.docs[self.cursor..] {
            if alive.is_alive(*doc) {
                count += 1;
            }
        }
        self.cursor = self.docs.len();
        count
    }

    fn count_including_deleted(&mut self) -> u32
        requires { IsVecCursor self.old }
        ensures count { result ≡ length (remaining_documents self.old) }
        ensures left { HasLeft self.old self.new [] }
    {
        let count = (self.docs.len() - self.cursor) as u32;
        self.cursor = self.docs.len();
        count
    }

    ghost ascending = { λ s h. AreEntries-documents s.cursor s.docs.items h.documents };
}
