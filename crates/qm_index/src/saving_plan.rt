//! What a save writes.

ghost use Rattle.std.specs.Prelude.{◌≡◌, ◌<◌, ◌≤◌, ◌+◌, ◌^◌, [], All, IfOk, IfSome, OnOk, length, slice_get, vec_len};
ghost use Rattle.std.specs.String.{string_bytes};
ghost use Rattle.qm_folder.specs.Names.{file_names};
ghost use Rattle.qm_store.specs.Deletions.{AreNumbers};
ghost use Rattle.qm_store.specs.Stored.{IsStored, stored};
ghost use Rattle.qm_index.specs.FileNames.{AreNumbered, IsNameOf, deletions_name, segment_name};
ghost use Rattle.qm_index.specs.SavedFiles.{IsNumberedBelow};
ghost use Rattle.qm_index.specs.SavedIndex.{HasFile, HasMore, HaveNothingNew, HoldAll, Holds, IsAdded, TellsDeleted, deletions_stored};
ghost use Rattle.qm_folder.specs.Disk.{Contents};
ghost use Rattle.qm_folder.specs.Steps.{AreWhole};
ghost use Rattle.qm_index.specs.Parts.{segments_of};

use crate::deleted_count::deleted_count;
use crate::file_names::{deletions_name, segment_name};
use qm_folder::NewFile;
use qm_postings::SegmentReader;
use qm_store::{KeptSegment, StoreError, deletions_bytes, segment_bytes};
use std::alloc::Global;

/// What a save writes: new files, whose numbers go on from one number, and from a moment where that is later, and what
/// the manifest says of each segment.
#[derive(Drop)]
pub(crate) struct SavingPlan {
    first: u64,
    moment: u64,
    pub(crate) next: u64,
    pub(crate) files: Vec<NewFile>,
    pub(crate) segments: Vec<KeptSegment>,
    ghost some: { 0 < first },
    ghost few: { next < 2 ^ 64 },
    ghost numbered: { All (IsNumberedBelow next) segments.items },
}

impl SavingPlan {
    // Nothing is to be written; the first file will have this number, or that of the moment where it is later.
    pub(crate) fn new(alloc: Global, first: u64, moment: u64) -> SavingPlan
        requires some { 0 < first }
        ensures first { result.first ≡ first }
        ensures no_files { result.files.items ≡ [] }
        ensures in_order { AreNumbered result.first (file_names result.files.items) result.next }
        ensures no_segments { result.segments.items ≡ [] }
        ensures next { result.next ≡ first }
    {
        SavingPlan {
            first,
            moment,
            next: first,
            files: Vec::new(alloc),
            segments: Vec::new(alloc),
        }
    }

    // The number of the next file.
    fn next_number(&self) -> u64
        ensures later { self.now.next ≤ result }
    {
        self.next.max(self.moment)
    }

    // Adds a file, whose name is that of this number, and answers it.
    fn add(&mut self, number: u64, name: String, bytes: Vec<u8>) -> Result<u64, StoreError>
        requires later { self.old.next ≤ number }
        requires named { IsNameOf number (string_bytes name) }
        requires in_order { AreNumbered self.old.first (file_names self.old.files.items) self.old.next }
        ensures in_order { OnOk result (AreNumbered self.new.first (file_names self.new.files.items) self.new.next) }
        ensures number { IfOk result (λ given. given ≡ number) }
        ensures added { OnOk result (IsAdded (string_bytes name) bytes.items self.old.files.items self.new.files.items) }
        ensures first { self.new.first ≡ self.old.first }
        ensures next { OnOk result (self.new.next ≡ number + 1) }
        ensures segments { self.new.segments ≡ self.old.segments }
    {
        if number == u64::MAX {
            return Err(StoreError::Failed);
        }
        self.files.push(NewFile { name, bytes })?;
        self.next = number + 1;
        Ok(number)
    }

    // Adds the file of a segment, and answers its number.
    fn add_segment(&mut self, alloc: Global, segment: &SegmentReader) -> Result<u64, StoreError>
        requires in_order { AreNumbered self.old.first (file_names self.old.files.items) self.old.next }
        ensures in_order { OnOk result (AreNumbered self.new.first (file_names self.new.files.items) self.new.next) }
        ensures later { IfOk result (λ key. self.old.next ≤ key) }
        ensures added { IfOk result (λ key. IsAdded (segment_name key) (stored key segment.now) self.old.files.items self.new.files.items) }
        ensures storable { IfOk result (λ key. IsStored key segment.now) }
        ensures first { self.new.first ≡ self.old.first }
        ensures next { IfOk result (λ key. self.new.next ≡ key + 1) }
        ensures segments { self.new.segments ≡ self.old.segments }
    {
        let number = self.next_number();
        let bytes = segment_bytes(alloc, segment, number)?;
        let name = segment_name(alloc, number)?;
        let key = self.add(number, name, bytes)?;
        Ok(key)
    }

    // Adds the file that tells what is deleted of the segment of a key, and answers its number.
    fn add_deletions(
        &mut self,
        alloc: Global,
        segment: &SegmentReader,
        key: u64,
    ) -> Result<u64, StoreError>
        requires in_order { AreNumbered self.old.first (file_names self.old.files.items) self.old.next }
        ensures in_order { OnOk result (AreNumbered self.new.first (file_names self.new.files.items) self.new.next) }
        ensures later { IfOk result (λ number. self.old.next ≤ number) }
        ensures added { IfOk result (λ number. IsAdded (deletions_name number) (deletions_stored key segment.now.segment)
            self.old.files.items self.new.files.items) }
        ensures numbers { OnOk result (AreNumbers (length segment.now.segment.documents) segment.now.segment.deleted) }
        ensures first { self.new.first ≡ self.old.first }
        ensures next { IfOk result (λ number. self.new.next ≡ number + 1) }
        ensures segments { self.new.segments ≡ self.old.segments }
    {
        let bytes = deletions_bytes(alloc, segment, key)?;
        let number = self.next_number();
        let name = deletions_name(alloc, number)?;
        let number = self.add(number, name, bytes)?;
        Ok(number)
    }

    // The key of a segment, of which this was saved before. Its file is added where nothing was.
    fn key_of(
        &mut self,
        alloc: Global,
        segment: &SegmentReader,
        before: Option<KeptSegment>,
    ) -> Result<u64, StoreError>
        requires in_order { AreNumbered self.old.first (file_names self.old.files.items) self.old.next }
        requires before { IfSome before (IsNumberedBelow self.old.first) }
        ensures in_order { OnOk result (AreNumbered self.new.first (file_names self.new.files.items) self.new.next) }
        ensures file { IfOk result (λ key. HasFile self.new.first self.new.files.items before key segment.now.segment) }
        ensures numbered { IfOk result (λ key. key < self.new.next) }
        ensures more { OnOk result (HasMore self.old.files.items self.new.files.items) }
        ensures first { self.new.first ≡ self.old.first }
        ensures next { OnOk result (self.old.next ≤ self.new.next) }
        ensures segments { self.new.segments ≡ self.old.segments }
    {
        match before {
            Some(kept) => Ok(kept.key),
            None => {
                let key = self.add_segment(alloc, segment)?;
                Ok(key)
            }
        }
    }

    // The number of the file that tells what is deleted of the segment of a key; it is added, where anything is.
    fn deletions_of(
        &mut self,
        alloc: Global,
        segment: &SegmentReader,
        key: u64,
    ) -> Result<u64, StoreError>
        requires in_order { AreNumbered self.old.first (file_names self.old.files.items) self.old.next }
        ensures in_order { OnOk result (AreNumbered self.new.first (file_names self.new.files.items) self.new.next) }
        ensures told { IfOk result (λ number. (c : Contents) → AreWhole self.new.files.items c → TellsDeleted c key number segment.now.segment) }
        ensures numbered { IfOk result (λ number. number < self.new.next) }
        ensures more { OnOk result (HasMore self.old.files.items self.new.files.items) }
        ensures first { self.new.first ≡ self.old.first }
        ensures next { OnOk result (self.old.next ≤ self.new.next) }
        ensures segments { self.new.segments ≡ self.old.segments }
    {
        if deleted_count(segment) == 0 {
            return Ok(0);
        }
        let number = self.add_deletions(alloc, segment, key)?;
        Ok(number)
    }

    // Adds what is new of a segment, of which this was saved before.
    fn add_changes(
        &mut self,
        alloc: Global,
        segment: &SegmentReader,
        before: Option<KeptSegment>,
    ) -> Result<KeptSegment, StoreError>
        requires in_order { AreNumbered self.old.first (file_names self.old.files.items) self.old.next }
        requires before { IfSome before (IsNumberedBelow self.old.first) }
        ensures in_order { OnOk result (AreNumbered self.new.first (file_names self.new.files.items) self.new.next) }
        ensures holds { IfOk result (λ k. Holds self.new.first self.new.files.items before k segment.now.segment) }
        ensures counted { IfOk result (λ k. k.deleted ≡ length segment.now.segment.deleted) }
        ensures idle { IfSome before (λ k. k.deleted ≡ length segment.now.segment.deleted → self.new.next ≡ self.old.next) }
        ensures numbered { IfOk result (IsNumberedBelow self.new.next) }
        ensures more { OnOk result (HasMore self.old.files.items self.new.files.items) }
        ensures first { self.new.first ≡ self.old.first }
        ensures next { OnOk result (self.old.next ≤ self.new.next) }
        ensures segments { self.new.segments ≡ self.old.segments }
    {
        let deleted = deleted_count(segment);
        if let Some(kept) = before {
            if kept.deleted == deleted {
                return Ok(kept);
            }
        }
        let key = self.key_of(alloc, segment, before)?;
        let deletions = self.deletions_of(alloc, segment, key)?;
        Ok(KeptSegment {
            key,
            deletions,
            deleted,
        })
    }

    // Adds what is new of segments, of the first of which this was saved before.
    pub(crate) fn add_all(
        &mut self,
        alloc: Global,
        segments: &[SegmentReader],
        before: &[KeptSegment],
    ) -> Result<(), StoreError>
        requires in_order { AreNumbered self.old.first (file_names self.old.files.items) self.old.next }
        requires empty { self.old.segments.items ≡ [] }
        requires before { All (IsNumberedBelow self.old.first) before.now }
        ensures in_order { OnOk result (AreNumbered self.new.first (file_names self.new.files.items) self.new.next) }
        ensures holds { OnOk result (HoldAll self.new.first self.new.files.items before.now self.new.segments.items (segments_of segments.now)) }
        ensures count { OnOk result (vec_len self.new.segments ≡ length segments.now) }
        ensures all { OnOk result (HaveNothingNew self.new.segments.items (segments_of segments.now)) }
        ensures idle { OnOk result (HaveNothingNew before.now (segments_of segments.now) → self.new.next ≡ self.old.next) }
        ensures first { self.new.first ≡ self.old.first }
    {
        // those of the segments so far are there
        for place in 0..segments.len() {
            let kept = self.add_changes(alloc, &segments[place], saved_at(before, place))?;
            self.segments.push(kept)?;
        }
        Ok(())
    }
}

// What was saved of the segment at a place, if anything was.
fn saved_at(before: &[KeptSegment], place: usize) -> Option<KeptSegment>
    ensures { result ≡ slice_get before.now place }
{
    before.get(place).copied()
}
