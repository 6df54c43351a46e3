//! The files of an index, one behind the other.

ghost use Rattle.std.specs.Prelude.{◌≡◌, IfErr, IfOk, IsTrue, OnOk, true};
ghost use Rattle.std.specs.List.Sorted.{IsNonDecreasing};
ghost use Rattle.std.specs.String.{string_bytes};
ghost use Rattle.qm_index.specs.FileNames.{deletions_name, segment_name};
ghost use Rattle.qm_index.specs.Indexed.{IsRefreshed, indexed};
ghost use Rattle.qm_index.specs.Parts.{segments_of};
ghost use Rattle.birchagain_bytes.specs.Bytes.{AreDeletionsAdded, AreLeftOut, ArePacked, IsIndexPacked, IsManifestAdded, IsPacked, IsSegmentAdded, is_known};
ghost use Rattle.birchagain_bytes.specs.Refusals.{IsPackRefusal};

use crate::deleted_count::deleted_count;
use crate::packing::{begin, push_file};
use crate::refusal::{BytesRefusal, of_writing};
use qm_folder::MANIFEST;
use qm_index::Index;
use qm_postings::SegmentReader;
use qm_store::{KeptSegment, deletions_bytes, manifest_bytes, segment_bytes};
use std::alloc::{AllocError, Global};

/// How many postings a block has in a segment that is added to an index of this library.
pub(crate) const BLOCK_LEN: u32 = 128;

// The files of an index by these numbers, those of known numbers without bytes. The manifest is the last.
pub(crate) fn pack_index(
    alloc: Global,
    index: &Index,
    numbers: &[KeptSegment],
    known: &[u64],
) -> Result<Vec<u8>, BytesRefusal>
    requires refreshed { IsRefreshed index.now }
    ensures packed { (indexed index.now).current.block_len ≡ 128 → IfOk result (λ out. IsIndexPacked known.now index.now out.items) }
    ensures left_out { (indexed index.now).current.block_len ≡ 128 → IsNonDecreasing known.now
        → IfOk result (λ out. AreLeftOut known.now out.items) }
    ensures refused { IfErr result IsPackRefusal }
{
    let mut out = begin(alloc)?;
    let kept = pack_segments(alloc, &mut out, index.ended_segments(), numbers, known)?;
    push_manifest(alloc, &mut out, index, &kept)?;
    Ok(out)
}

// Adds the files of segments by their numbers, and answers what the manifest says of them.
fn pack_segments(
    alloc: Global,
    out: &mut Vec<u8>,
    segments: &[SegmentReader],
    numbers: &[KeptSegment],
    known: &[u64],
) -> Result<Vec<KeptSegment>, BytesRefusal>
    ensures packed { IfOk result (λ kept. ArePacked known.now kept.items (segments_of segments.now) out.old.items out.new.items) }
    ensures refused { IfErr result IsPackRefusal }
{
    if numbers.len() != segments.len() {
        return Err(BytesRefusal::NoNumber);
    }
    let mut kept = Vec::with_capacity(alloc, segments.len())?;
    // the files of the segments before this place are there
    for place in 0..segments.len() {
        let it = pack_segment(alloc, out, &segments[place], &numbers[place], known)?;
        kept.push(it)?;
    }
    Ok(kept)
}

// Adds the files of a segment by its numbers, and answers what the manifest says of it.
fn pack_segment(
    alloc: Global,
    out: &mut Vec<u8>,
    segment: &SegmentReader,
    numbers: &KeptSegment,
    known: &[u64],
) -> Result<KeptSegment, BytesRefusal>
    ensures packed { IfOk result (λ kept. IsPacked known.now kept segment.now.segment out.old.items out.new.items) }
    ensures refused { IfErr result IsPackRefusal }
{
    if numbers.key == u64::MAX || numbers.deletions == u64::MAX {
        return Err(BytesRefusal::NoNumber);
    }
    push_segment(alloc, out, segment, numbers.key, known)?;
    let deleted = deleted_count(segment);
    let mut deletions = 0;
    if deleted > 0 {
        deletions = numbers.deletions;
        push_deletions(alloc, out, segment, numbers, known)?;
    }
    Ok(KeptSegment {
        key: numbers.key,
        deletions,
        deleted,
    })
}

// Adds the file of a segment, without bytes where its number is known.
fn push_segment(
    alloc: Global,
    out: &mut Vec<u8>,
    segment: &SegmentReader,
    key: u64,
    known: &[u64],
) -> Result<(), BytesRefusal>
    ensures added { OnOk result (IsSegmentAdded known.now key segment.now.segment out.old.items out.new.items) }
    ensures refused { IfErr result IsPackRefusal }
{
    let name = segment_name(alloc, key)?;
    if is_known(known, key) {
        return Ok(push_file(out, name.as_str(), &[])?);
    }
    match segment_bytes(alloc, segment, key) {
        Ok(bytes) => Ok(push_file(out, name.as_str(), &bytes)?),
        Err(error) => Err(of_writing(error)),
    }
}

// Adds the file that tells which documents of a segment are deleted, without bytes where its number is known.
fn push_deletions(
    alloc: Global,
    out: &mut Vec<u8>,
    segment: &SegmentReader,
    numbers: &KeptSegment,
    known: &[u64],
) -> Result<(), BytesRefusal>
    ensures added { OnOk result
        (AreDeletionsAdded known.now numbers.now.key numbers.now.deletions segment.now.segment out.old.items out.new.items) }
    ensures refused { IfErr result IsPackRefusal }
{
    // a segment of which nothing is deleted has no such file
    let deleted = deleted_count(segment);
    if numbers.deletions == 0 || deleted == 0 {
        return Err(BytesRefusal::NoNumber);
    }
    let name = deletions_name(alloc, numbers.deletions)?;
    if is_known(known, numbers.deletions) {
        return Ok(push_file(out, name.as_str(), &[])?);
    }
    match deletions_bytes(alloc, segment, numbers.key) {
        Ok(bytes) => Ok(push_file(out, name.as_str(), &bytes)?),
        Err(error) => Err(of_writing(error)),
    }
}

// Adds the manifest of an index whose segments have these files.
fn push_manifest(
    alloc: Global,
    out: &mut Vec<u8>,
    index: &Index,
    kept: &[KeptSegment],
) -> Result<(), BytesRefusal>
    requires refreshed { IsRefreshed index.now }
    ensures added { (indexed index.now).current.block_len ≡ 128
        → OnOk result (IsManifestAdded index.now kept.now out.old.items out.new.items) }
    ensures refused { IfErr result IsPackRefusal }
{
    match manifest_bytes(alloc, index.searcher(), BLOCK_LEN, kept, &[]) {
        Ok(bytes) => Ok(push_file(out, MANIFEST, &bytes)?),
        Err(error) => Err(of_writing(error)),
    }
}

// Whether a number is one of these, which ascend.
fn is_known(known: &[u64], number: u64) -> bool
    ensures found { IsTrue result → is_known known.now number ≡ true }
    ensures all { IsNonDecreasing known.now → result ≡ is_known known.now number }
{
    known.binary_search(&number).is_ok()
}

// The name of the segment's file of a number.
fn segment_name(alloc: Global, number: u64) -> Result<String, AllocError>
    ensures { IfOk result (λ name. string_bytes name ≡ segment_name number) }
{
    let name = format!(in alloc; "{number}.seg")?;
    Ok(name)
}

// The name of the deletions file of a number.
fn deletions_name(alloc: Global, number: u64) -> Result<String, AllocError>
    ensures { IfOk result (λ name. string_bytes name ≡ deletions_name number) }
{
    let name = format!(in alloc; "{number}.del")?;
    Ok(name)
}
