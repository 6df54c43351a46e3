//! Ended segments of an index, joined by their rows, or without what is deleted of them.
//!
//! Why it is so:
//! - Neighbours alone are joined, with their deleted documents, so that all documents keep their numbers.
//! - Segments are joined by hand, since joining costs all that they hold: a caller knows when there is time for it.
//! - `join_small_segments` stops where two can't be joined, and is not refused: it is called behind each end of a
//!   segment.

ghost use Rattle.std.specs.Prelude.{◌≡◌, ◌≢◌, ◌≤◌, ◌<◌, ◌↔◌, ◌*◌, ◌-◌, IfErr, IfOk, IsErrOf, IsOkUnless, OnErr, OnOk, length, true};
ghost use Rattle.qm_folder.specs.Disk.{Contents};
ghost use Rattle.qm_merge.specs.Merging.{alive_only, joined};
ghost use Rattle.qm_index.specs.Indexed.{IsMerged, IsRefreshed, indexed, statistics};
ghost use Rattle.qm_index.specs.Joining.{HasSmallLast, HasTooManyLast, HasUnlikeLast, HaveSameDocuments, IsJoiningRefusal, JoinsLast, LastOne, LastTwo, LeavesOut, with_last, without_last};
ghost use Rattle.qm_index.specs.Saving.{IsKeptIn};

use crate::addresses::count_documents;
use crate::index::Index;
use qm_docset::TERMINATED;
use qm_merge::{MergeError, merge};
use qm_postings::SegmentReader;
use qm_schema::QueryError;
use std::alloc::Global;

impl Index {
    /// Makes the last two of the ended segments one, of the documents of both, by the rows that they keep: no text is
    /// read. What was deleted stays deleted, and every document keeps its number over the index. Answers whether there
    /// were two. What was saved of the two is written anew by the next [`Index::save`]. The open segment stays as it is.
    /// Costs a step for each posting, position, term and document of the two, and for each segment.
    ///
    /// Refused with [`QueryError::BadBlockLength`] exactly where the two have blocks of different lengths, as they may
    /// where the index was made of a searcher; else with [`QueryError::TooManyDocuments`] exactly where they have more
    /// than [`TERMINATED`] documents together; else with [`QueryError::Memory`] alone. Then nothing has changed.
    pub fn join_last_segments(&mut self, alloc: Global) -> Result<bool, QueryError>
        ensures joined { IfOk result (λ were_two. JoinsLast (indexed self.old) were_two (indexed self.new)) }
        ensures numbers { HaveSameDocuments (indexed self.old).ended (indexed self.new).ended }
        ensures unchanged { OnErr result (indexed self.new ≡ indexed self.old) }
        ensures statistics { statistics self.new ≡ statistics self.old }
        ensures refreshed { IsRefreshed self.old → IsRefreshed self.new }
        ensures merged { IsMerged self.old → IsMerged self.new }
        ensures kept { (c : Contents) → IsKeptIn self.old c → IsKeptIn self.new c }
        ensures unlike { IsErrOf result QueryError.BadBlockLength ↔ HasUnlikeLast (indexed self.old) }
        ensures many { IsErrOf result QueryError.TooManyDocuments ↔ HasTooManyLast (indexed self.old) }
        ensures refused { IfErr result IsJoiningRefusal }
    {
        if self.ended < 2 {
            return Ok(false);
        }
        let joined = self.last_two_joined(alloc)?;
        self.drop_last_segment();
        self.replace_last_segment(joined);
        Ok(true)
    }

    /// Joins the last ended segments, as [`Index::join_last_segments`] does, as long as the one before the last has fewer
    /// than twice its documents, and the two can be joined. So where it is called whenever a segment has ended there are
    /// no more of them than the logarithm of the number of documents, but for those that can't be joined; and a document
    /// is joined no more often than that.
    ///
    /// Refused with [`QueryError::Memory`] alone; then some may have been joined.
    pub fn join_small_segments(&mut self, alloc: Global) -> Result<(), QueryError>
        ensures numbers { HaveSameDocuments (indexed self.old).ended (indexed self.new).ended }
        ensures current { (indexed self.new).current ≡ (indexed self.old).current }
        ensures fewer { length (indexed self.new).ended ≤ length (indexed self.old).ended }
        ensures large { OnOk result (¬ HasSmallLast (indexed self.new)) }
        ensures statistics { statistics self.new ≡ statistics self.old }
        ensures refreshed { IsRefreshed self.old → IsRefreshed self.new }
        ensures merged { IsMerged self.old → IsMerged self.new }
        ensures kept { (c : Contents) → IsKeptIn self.old c → IsKeptIn self.new c }
        ensures refused { IsOkUnless result QueryError.Memory }
    {
        // the ended segments have the documents that they had
        while self.has_small_last() {
            self.join_last_segments(alloc)?;
        }
        Ok(())
    }

    /// Leaves the deleted documents of the last ended segment out: those behind them have the numbers that follow from
    /// then on, over the index as in the segment, and terms that no other document holds are gone. Answers whether there
    /// was an ended segment, and any of its documents was deleted. What was saved of it is written anew by the next
    /// [`Index::save`]. Costs a step for each of its postings, positions, terms and documents, and for each segment.
    ///
    /// Refused with [`QueryError::Memory`] alone, and then nothing has changed.
    pub fn leave_out_deleted(&mut self, alloc: Global) -> Result<bool, QueryError>
        ensures left { IfOk result (λ were_deleted. LeavesOut (indexed self.old) were_deleted (indexed self.new)) }
        ensures unchanged { OnErr result (indexed self.new ≡ indexed self.old) }
        ensures statistics { statistics self.new ≡ statistics self.old }
        ensures refreshed { IsRefreshed self.old → IsRefreshed self.new }
        ensures merged { IsMerged self.old → IsMerged self.new }
        ensures kept { (c : Contents) → IsKeptIn self.old c → IsKeptIn self.new c }
        ensures refused { IsOkUnless result QueryError.Memory }
    {
        if self.ended == 0 {
            return Ok(false);
        }
        let last = &self.searcher.segment_readers()[self.ended - 1];
        if !last.has_deletes() {
            return Ok(false);
        }
        let alive = qm_merge::leave_out_deleted(alloc, last)?;
        self.replace_last_segment(alive);
        Ok(true)
    }

    // The segment of the last two of the ended ones, joined.
    fn last_two_joined(&self, alloc: Global) -> Result<SegmentReader, QueryError>
        requires two { 2 ≤ self.now.ended }
        ensures joined { IfOk result (λ r. (it : LastTwo (indexed self.now).ended) × (r.segment ≡ joined it.first it.second)) }
        ensures schema { IfOk result (λ r. r.segment.schema ≡ self.now.searcher.schema) }
        ensures unlike { IsErrOf result QueryError.BadBlockLength ↔ HasUnlikeLast (indexed self.now) }
        ensures many { IsErrOf result QueryError.TooManyDocuments ↔ HasTooManyLast (indexed self.now) }
        ensures refused { IfErr result IsJoiningRefusal }
    {
        let readers = self.searcher.segment_readers();
        let (first, second) = (&readers[self.ended - 2], &readers[self.ended - 1]);
        match merge(alloc, first, second) {
            Ok(joined) => Ok(joined),
            Err(MergeError::Unlike) => Err(QueryError::BadBlockLength),
            Err(MergeError::TooMany) => Err(QueryError::TooManyDocuments),
            Err(MergeError::Memory) => Err(QueryError::Memory),
        }
    }

    // Whether the one before the last ended segment has fewer than twice its documents, and the two can be joined.
    fn has_small_last(&self) -> bool
        ensures { (result ≡ true) ↔ HasSmallLast (indexed self.now) }
    {
        if self.ended < 2 {
            return false;
        }
        let readers = self.searcher.segment_readers();
        let (first, second) = (&readers[self.ended - 2], &readers[self.ended - 1]);
        if first.block_len() != second.block_len() {
            return false;
        }
        if first.max_doc() > TERMINATED - second.max_doc() {
            return false;
        }
        first.max_doc() < 2 * second.max_doc()
    }

    // Lets the last of the ended segments go.
    fn drop_last_segment(&mut self)
        requires some { 0 < self.old.ended }
        ensures dropped { indexed self.new ≡ without_last (indexed self.old) }
        ensures ended { self.new.ended ≡ self.old.ended - 1 }
        ensures statistics { statistics self.new ≡ statistics self.old }
        ensures refreshed { IsRefreshed self.old → IsRefreshed self.new }
        ensures merged { IsMerged self.old → IsMerged self.new }
        ensures kept { (c : Contents) → IsKeptIn self.old c → IsKeptIn self.new c }
    {
        let place = self.ended - 1;
        self.searcher.remove_segment(place as u32);
        self.ended_documents = count_documents(&self.searcher.segment_readers()[..place]);
        self.ends.truncate(place);
        self.saved.segments.truncate(place);
        self.ended = place;
    }

    // Puts a segment in the place of the last of the ended ones.
    fn replace_last_segment(&mut self, segment: SegmentReader)
        requires some { 0 < self.old.ended }
        requires schema { segment.segment.schema ≡ self.old.searcher.schema }
        ensures replaced { indexed self.new ≡ with_last (indexed self.old) segment.segment }
        ensures statistics { statistics self.new ≡ statistics self.old }
        ensures refreshed { IsRefreshed self.old → IsRefreshed self.new }
        ensures merged { IsMerged self.old → IsMerged self.new }
        ensures kept { (c : Contents) → IsKeptIn self.old c → IsKeptIn self.new c }
    {
        let place = self.ended - 1;
        self.saved.segments.truncate(place);
        self.searcher.replace_segment(place as u32, segment);
        self.ended_documents = count_documents(&self.searcher.segment_readers()[..self.ended]);
        self.ends[place] = self.ended_documents;
    }
}
