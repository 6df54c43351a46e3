//! The files of an index, read.

ghost use Rattle.std.specs.Prelude.{◌≡◌, ◌<◌, [], List, All, IfErr, IfOk, IsOk, IsOkUnless, IsSome, OnOk, Some, length, option_map, vec_len};
ghost use Rattle.qm_folder.specs.Calls.{KeepsBut};
ghost use Rattle.qm_postings.specs.Reading.{Reader};
ghost use Rattle.qm_postings.specs.Segment.{Segment, without};
ghost use Rattle.qm_store.specs.Stored.{IsStored, stored};
ghost use Rattle.qm_index.specs.Numbers.{AreOf};
ghost use Rattle.qm_index.specs.Opening.{IsFolderRefusal};
ghost use Rattle.qm_index.specs.Parts.{segments_of};
ghost use Rattle.qm_index.specs.SavedFiles.{IsNumberedBelow};
ghost use Rattle.qm_index.specs.SavedIndex.{AreHeld, HaveSchema, IsDeletionsFile, IsFileOf, IsHeld};
ghost use Rattle.qm_index.specs.FileNames.{segment_name};
ghost use Rattle.qm_store.specs.Deletions.{deleting_only};

use crate::file_names::{deletions_name, segment_name};
use qm_folder::{Folder, FolderError};
use qm_postings::SegmentReader;
use qm_schema::Schema;
use qm_store::{KeptSegment, StoreError, StoredSegment, delete_stored};
use std::alloc::Global;

// The bytes of a file; none where there is none of that name.
pub(crate) fn read_file<F: Folder>(
    alloc: Global,
    folder: &mut F,
    name: &str,
) -> Result<Option<Vec<u8>>, StoreError>
    ensures bytes { F.is_told → IfOk result (λ r. option_map (λ v. v.items) r ≡ (F.disk folder.old).seen name.now) }
    ensures refused { IfErr result IsFolderRefusal }
    ensures kept { F.is_told → KeepsBut [] (F.disk folder.old) (F.disk folder.new) }
{
    match folder.read(alloc, name) {
        Ok(found) => Ok(found),
        Err(FolderError::Memory) => Err(StoreError::Memory),
        Err(FolderError::Failed) => Err(StoreError::Failed),
    }
}

// The bytes of a file that a manifest names.
fn read_named<F: Folder>(alloc: Global, folder: &mut F, name: &str) -> Result<Vec<u8>, StoreError>
    ensures bytes { F.is_told → IfOk result (λ v. (F.disk folder.old).seen name.now ≡ Some v.items) }
    ensures refused { F.is_told → IsSome ((F.disk folder.old).seen name.now) → IfErr result IsFolderRefusal }
    ensures kept { F.is_told → KeepsBut [] (F.disk folder.old) (F.disk folder.new) }
{
    match read_file(alloc, folder, name)? {
        Some(bytes) => Ok(bytes),
        None => Err(StoreError::Damaged),
    }
}

// The segment that the bytes of a file are, of which nothing is deleted.
fn segment_of_file(
    alloc: Global,
    bytes: Vec<u8>,
    schema: &Schema,
    key: u64,
) -> Result<SegmentReader, StoreError>
    ensures whole { (r : Reader) → IsStored key r → r.segment.schema ≡ schema.now → bytes.items ≡ stored key r
        → IfOk result (λ it. it.segment ≡ without [] r.segment) }
    ensures refused { (r : Reader) → IsStored key r → r.segment.schema ≡ schema.now → bytes.items ≡ stored key r → IsOkUnless result StoreError.Memory }
    ensures schema { IfOk result (λ it. it.segment.schema ≡ schema.now) }
    ensures none_deleted { IfOk result (λ it. it.segment.deleted ≡ []) }
{
    let stored = StoredSegment::open(alloc, bytes, schema, key)?;
    let segment = stored.whole(alloc, schema)?;
    Ok(segment)
}

// The segment whose file has this number, of which nothing is deleted.
fn open_whole<F: Folder>(
    alloc: Global,
    folder: &mut F,
    schema: &Schema,
    key: u64,
) -> Result<SegmentReader, StoreError>
    ensures opened { F.is_told → (s : Segment) → s.schema ≡ schema.now → IsFileOf key s ((F.disk folder.old).seen (segment_name key))
        → IfOk result (λ it. it.segment ≡ without [] s) }
    ensures refused { F.is_told → (s : Segment) → s.schema ≡ schema.now → IsFileOf key s ((F.disk folder.old).seen (segment_name key))
        → IfErr result IsFolderRefusal }
    ensures schema { IfOk result (λ it. it.segment.schema ≡ schema.now) }
    ensures none_deleted { IfOk result (λ it. it.segment.deleted ≡ []) }
    ensures kept { F.is_told → KeepsBut [] (F.disk folder.old) (F.disk folder.new) }
{
    let name = segment_name(alloc, key)?;
    let bytes = read_named(alloc, folder, name.as_str())?;
    let segment = segment_of_file(alloc, bytes, schema, key)?;
    Ok(segment)
}

// Deletes in the segment of a key what the deletions file of this number tells.
fn delete_told<F: Folder>(
    alloc: Global,
    folder: &mut F,
    segment: &mut SegmentReader,
    key: u64,
    number: u64,
) -> Result<(), StoreError>
    requires none { segment.old.segment.deleted ≡ [] }
    ensures told { F.is_told → (s : Segment) → segment.old.segment ≡ without [] s → IsDeletionsFile (F.disk folder.old).seen key number s
        → OnOk result (segment.new.segment ≡ s) }
    ensures refused { F.is_told → (s : Segment) → segment.old.segment ≡ without [] s → IsDeletionsFile (F.disk folder.old).seen key number s
        → IfErr result IsFolderRefusal }
    ensures others { segment.new ≡ deleting_only segment.new.segment.deleted segment.old }
    ensures kept { F.is_told → KeepsBut [] (F.disk folder.old) (F.disk folder.new) }
{
    let name = deletions_name(alloc, number)?;
    let bytes = read_named(alloc, folder, name.as_str())?;
    delete_stored(alloc, segment, key, &bytes)?;
    Ok(())
}

// The segment that a manifest names.
fn open_segment<F: Folder>(
    alloc: Global,
    folder: &mut F,
    schema: &Schema,
    kept: &KeptSegment,
) -> Result<SegmentReader, StoreError>
    ensures opened { F.is_told → (s : Segment) → s.schema ≡ schema.now → IsHeld (F.disk folder.old).seen kept.now s
        → IfOk result (λ it. it.segment ≡ s) }
    ensures refused { F.is_told → (s : Segment) → s.schema ≡ schema.now → IsHeld (F.disk folder.old).seen kept.now s → IfErr result IsFolderRefusal }
    ensures schema { IfOk result (λ it. it.segment.schema ≡ schema.now) }
    ensures kept { F.is_told → KeepsBut [] (F.disk folder.old) (F.disk folder.new) }
{
    let mut segment = open_whole(alloc, folder, schema, kept.key)?;
    if kept.deletions != 0 {
        delete_told(alloc, folder, &mut segment, kept.key, kept.deletions)?;
    }
    Ok(segment)
}

// The segments that a manifest names, in order.
pub(crate) fn open_segments<F: Folder>(
    alloc: Global,
    folder: &mut F,
    schema: &Schema,
    kept: &[KeptSegment],
) -> Result<Vec<SegmentReader>, StoreError>
    ensures opened { F.is_told → (ss : List Segment) → HaveSchema schema.now ss → AreHeld (F.disk folder.old).seen kept.now ss
        → IfOk result (λ v. segments_of v.items ≡ ss) }
    ensures refused { F.is_told → (ss : List Segment) → HaveSchema schema.now ss → AreHeld (F.disk folder.old).seen kept.now ss
        → IfErr result IsFolderRefusal }
    ensures alike { IfOk result (λ v. AreOf schema.now v.items) }
    ensures count { IfOk result (λ v. vec_len v ≡ length kept.now) }
    ensures kept { F.is_told → KeepsBut [] (F.disk folder.old) (F.disk folder.new) }
{
    let mut segments = Vec::new(alloc);
    // those of the segments so far are there
    for place in 0..kept.len() {
        let segment = open_segment(alloc, folder, schema, &kept[place])?;
        segments.push(segment)?;
    }
    Ok(segments)
}

// A number that is above those of all files.
pub(crate) fn next_number(kept: &[KeptSegment]) -> Result<u64, StoreError>
    ensures above { IfOk result (λ next. All (IsNumberedBelow next) kept.now) }
    ensures some { IfOk result (λ next. 0 < next) }
    ensures there { All (IsNumberedBelow 18446744073709551615) kept.now → IsOk result }
{
    let mut last: u64 = 0;
    // it is that of no file so far, or above it
    for place in 0..kept.len() {
        last = last.max(kept[place].key).max(kept[place].deletions);
    }
    match last.checked_add(1) {
        Some(next) => Ok(next),
        None => Err(StoreError::Damaged),
    }
}
