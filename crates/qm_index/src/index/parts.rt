//! Parts of the open segment, joined by the rows that they keep: as a segment ends, so that a refresh before that builds
//! nothing twice.

ghost use Rattle.std.specs.Prelude.{◌≡◌, ◌≤◌, ◌<◌, ◌+◌, IfOk, IsOkUnless, OnErr, OnOk, length};
ghost use Rattle.qm_index.specs.Indexed.{IsMerged, IsRefreshed, indexed, statistics};
ghost use Rattle.qm_index.specs.Parts.{IsLastTwoJoined};

use crate::index::Index;
use qm_merge::{MergeError, merge};
use qm_postings::SegmentReader;
use qm_schema::QueryError;
use std::alloc::Global;

impl Index {
    // Makes all documents of the open segment one part: those that no part has are built, and no others. The others
    // are joined first, so that they alone are joined often.
    pub(super) fn make_one_part(&mut self, alloc: Global) -> Result<(), QueryError>
        ensures documents { indexed self.new ≡ indexed self.old }
        ensures statistics { statistics self.new ≡ statistics self.old }
        ensures saved { self.new.saved ≡ self.old.saved }
        ensures ended { self.new.ended ≡ self.old.ended }
        ensures refreshed { OnOk result (IsRefreshed self.new) }
        ensures one { OnOk result (length self.new.searcher.segments ≡ self.new.ended + 1) }
        ensures refused { IsOkUnless result QueryError.Memory }
    {
        self.join_parts(alloc)?;
        if self.built < self.documents.len() || self.part_count() == 0 {
            self.build_part(alloc)?;
            self.join_parts(alloc)?;
        }
        Ok(())
    }

    // Makes the parts one, where there are several.
    fn join_parts(&mut self, alloc: Global) -> Result<(), QueryError>
        ensures documents { indexed self.new ≡ indexed self.old }
        ensures statistics { statistics self.new ≡ statistics self.old }
        ensures saved { self.new.saved ≡ self.old.saved }
        ensures ended { self.new.ended ≡ self.old.ended }
        ensures refreshed { IsRefreshed self.old → IsRefreshed self.new }
        ensures merged { OnOk result (IsMerged self.new) }
        ensures some { self.old.ended < length self.old.searcher.segments → self.new.ended < length self.new.searcher.segments }
        ensures refused { IsOkUnless result QueryError.Memory }
    {
        // the open segment has the documents that it had
        while self.part_count() > 1 {
            self.join_last_parts(alloc)?;
        }
        Ok(())
    }

    // Makes the last two parts one.
    fn join_last_parts(&mut self, alloc: Global) -> Result<(), QueryError>
        requires two { self.old.ended + 2 ≤ length self.old.searcher.segments }
        ensures documents { indexed self.new ≡ indexed self.old }
        ensures statistics { statistics self.new ≡ statistics self.old }
        ensures saved { self.new.saved ≡ self.old.saved }
        ensures ended { self.new.ended ≡ self.old.ended }
        ensures refreshed { IsRefreshed self.old → IsRefreshed self.new }
        ensures fewer { OnOk result (length self.new.searcher.segments + 1 ≡ length self.old.searcher.segments) }
        ensures unchanged { OnErr result (self.new ≡ self.old) }
        ensures refused { IsOkUnless result QueryError.Memory }
    {
        let joined = self.last_parts_joined(alloc)?;
        let last = self.searcher.segment_readers().len() - 1;
        self.searcher.remove_segment(last as u32);
        self.searcher.replace_segment(last as u32 - 1, joined);
        Ok(())
    }

    // The segment of the last two parts, joined. They have the same fields and blocks, and few enough documents.
    fn last_parts_joined(&self, alloc: Global) -> Result<SegmentReader, QueryError>
        requires two { self.now.ended + 2 ≤ length self.now.searcher.segments }
        ensures joined { IfOk result (λ r. IsLastTwoJoined self.now.searcher.segments r.segment) }
        ensures refused { IsOkUnless result QueryError.Memory }
    {
        let readers = self.searcher.segment_readers();
        let (first, second) = (&readers[readers.len() - 2], &readers[readers.len() - 1]);
        match merge(alloc, first, second) {
            Ok(joined) => Ok(joined),
            Err(MergeError::Unlike) => unreachable!(),
            Err(MergeError::TooMany) => unreachable!(),
            Err(MergeError::Memory) => Err(QueryError::Memory),
        }
    }
}
