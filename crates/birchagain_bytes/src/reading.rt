//! Bytes of which an index is made.

ghost use Rattle.std.specs.Prelude.{◌≡◌, ◌≢◌, ◌↔◌, [], Err, IfErr, IfOk, IsErrOf, IsOkUnless, OnOk};
ghost use Rattle.std.specs.List.Sorted.{IsNonDecreasing};
ghost use Rattle.qm_index.specs.Indexed.{indexed, statistics};
ghost use Rattle.qm_index.specs.declared.index.Index.{Index};
ghost use Rattle.qm_store.specs.Manifest.{ManifestFacts};
ghost use Rattle.birchagain_bytes.specs.Bytes.{AreBytesOf, AreOfOtherBlocks, TellsManifest};
ghost use Rattle.birchagain_bytes.specs.Packed.{AreFiles, head_at};
ghost use Rattle.birchagain_bytes.specs.PackedFolder.{contents_in};
ghost use Rattle.birchagain_bytes.specs.Refusals.{IsBlocksRefusal, IsFromBytesRefusal, IsOfOtherBlocks};

use crate::index_files::BLOCK_LEN;
use crate::packed_files::PackedFiles;
use crate::refusal::{BytesRefusal, of_reading};
use qm_folder::MANIFEST;
use qm_index::Index;
use qm_store::read_manifest;
use std::alloc::Global;

/// The index that some bytes are: as [`to_bytes`](crate::to_bytes) made them with nothing known, or the files of a folder
/// in which an index was saved, each once and in any order. It has the segments, with what is deleted of them, and
/// terms weigh the same; the open segment has no document. Costs a step for each posting, position, term and document.
///
/// Refused with [`BytesRefusal::OtherFile`] where these are no bytes of an index, and with
/// [`BytesRefusal::OtherVersion`] where they, or a file of theirs, are of another version; with
/// [`BytesRefusal::Damaged`] where something is missing or not what was written; with [`BytesRefusal::OtherBlocks`]
/// where postings are cut into blocks of another length than 128; and else for want of memory.
pub fn from_bytes(alloc: Global, bytes: &[u8]) -> Result<Index, BytesRefusal>
    ensures documents { (saved : Index) → AreBytesOf [] saved bytes.now → IfOk result (λ i. indexed i ≡ indexed saved) }
    ensures statistics { (saved : Index) → AreBytesOf [] saved bytes.now → IfOk result (λ i. statistics i ≡ statistics saved) }
    // What is the bytes of an index is refused for want of memory alone; its norms do not fall, as no searcher's do.
    ensures whole { (saved : Index) → AreBytesOf [] saved bytes.now → IsNonDecreasing (statistics saved).norms
        → IsOkUnless result BytesRefusal.Memory }
    ensures other_blocks { (saved : Index) → AreOfOtherBlocks saved bytes.now → IsOfOtherBlocks result }
    // Nothing else is read than files, each once.
    ensures only { OnOk result (AreFiles bytes.now) }
    ensures other_file { IsErrOf result BytesRefusal.OtherFile ↔ (head_at bytes.now ≡ Err BytesRefusal.OtherFile) }
    ensures other_version { head_at bytes.now ≡ Err BytesRefusal.OtherVersion → IsErrOf result BytesRefusal.OtherVersion }
    ensures refused { IfErr result IsFromBytesRefusal }
{
    let mut files = PackedFiles::read(alloc, bytes)?;
    check_blocks(alloc, &files)?;
    match Index::open(alloc, &mut files) {
        Ok(Some(index)) => Ok(index),
        Ok(None) => Err(BytesRefusal::Damaged),
        Err(error) => Err(of_reading(error)),
    }
}

// Whether a manifest is among the files, by which postings are cut into blocks of the length of this library.
fn check_blocks(alloc: Global, files: &PackedFiles<'_>) -> Result<(), BytesRefusal>
    ensures whole { (m : ManifestFacts) → TellsManifest (contents_in files.now.files) m → m.block_len ≡ 128
        → IsOkUnless result BytesRefusal.Memory }
    ensures others { (m : ManifestFacts) → TellsManifest (contents_in files.now.files) m → m.block_len ≢ 128
        → IsOfOtherBlocks result }
    ensures refused { IfErr result IsBlocksRefusal }
{
    let Some(bytes) = files.file(MANIFEST) else {
        return Err(BytesRefusal::Damaged);
    };
    match read_manifest(alloc, bytes) {
        Ok(manifest) if manifest.block_len == BLOCK_LEN => Ok(()),
        Ok(_) => Err(BytesRefusal::OtherBlocks),
        Err(error) => Err(of_reading(error)),
    }
}
