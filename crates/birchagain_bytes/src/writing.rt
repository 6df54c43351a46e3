//! An index that is made bytes.

ghost use Rattle.std.specs.Prelude.{◌≡◌, ◌≢◌, ◌↔◌, [], List, All, IfErr, IfOk, IsErrOf, OnErr, OnOk, map};
ghost use Rattle.std.specs.List.Sorted.{IsNonDecreasing};
ghost use Rattle.qm_folder.specs.Names.{AreDistinct};
ghost use Rattle.qm_index.specs.Indexed.{indexed, statistics};
ghost use Rattle.qm_index.specs.Saving.{IsSaved};
ghost use Rattle.birchagain_bytes.specs.Bytes.{AreBytesOf, AreLeftOut};
ghost use Rattle.birchagain_bytes.specs.Fills.{Fills};
ghost use Rattle.birchagain_bytes.specs.Packed.{File, IsFile, packed};
ghost use Rattle.birchagain_bytes.specs.Refusals.{IsPackRefusal, IsToBytesRefusal, IsWriteRefusal};

use crate::index_files::pack_index;
use crate::numbering::number_files;
use crate::open_documents::open_documents;
use crate::packed_files::PackedFiles;
use crate::refusal::BytesRefusal;
use qm_index::Index;
use std::alloc::Global;

/// An index as bytes: the files of its ended segments, of what is deleted of them, and its manifest, but for the files whose
/// number is one of `known`, which ascend. With none of these [`from_bytes`](crate::from_bytes) makes the index of them again.
///
/// Each file has a number of its own, which the index keeps: a later call gives the same file the same name. Those that are
/// new get numbers from `moment` on, but for those that it gave before: a time in nanoseconds does.
///
/// Costs a step for each posting, position, term and document of the segments whose files are not known, twice for those that
/// are new, and a step for each segment and weight.
///
/// Refused with [`BytesRefusal::OpenSegment`] exactly where the open segment has documents, with
/// [`BytesRefusal::NoNumber`] where no number below 2^64 - 1 is left or a segment has more than 2^60 bytes, and else for
/// want of memory. What the index holds is as it was, whatever the answer.
pub fn to_bytes(
    alloc: Global,
    index: &mut Index,
    moment: u64,
    known: &[u64],
) -> Result<Vec<u8>, BytesRefusal>
    ensures bytes { (indexed index.old).current.block_len ≡ 128 → IfOk result (λ bytes. AreBytesOf known.now index.old bytes.items) }
    ensures left_out { (indexed index.old).current.block_len ≡ 128 → IsNonDecreasing known.now
        → IfOk result (λ bytes. AreLeftOut known.now bytes.items) }
    // each ended segment has the numbers of its files
    ensures saved { OnOk result (IsSaved index.new) }
    ensures open { IsErrOf result BytesRefusal.OpenSegment ↔ ((indexed index.old).current.documents ≢ []) }
    ensures documents { indexed index.new ≡ indexed index.old }
    ensures statistics { statistics index.new ≡ statistics index.old }
    ensures refused { IfErr result (IsToBytesRefusal (indexed index.old)) }
{
    if open_documents(index) > 0 {
        return Err(BytesRefusal::OpenSegment);
    }
    if index.refresh(alloc).is_err() {
        return Err(BytesRefusal::Memory);
    }
    let numbers = number_files(alloc, index, moment)?;
    let bytes = pack_index(alloc, index, &numbers, known)?;
    check_files(alloc, &bytes)?;
    Ok(bytes)
}

// Whether the files that some bytes are can be read again: no two have one name.
fn check_files(alloc: Global, bytes: &[u8]) -> Result<(), BytesRefusal>
    ensures distinct { (fs : List File) → All IsFile fs → bytes.now ≡ packed fs → OnOk result (AreDistinct (map (λ f. f.name) fs)) }
    ensures refused { IfErr result IsPackRefusal }
{
    match PackedFiles::read(alloc, bytes) {
        Ok(_) => Ok(()),
        Err(BytesRefusal::Memory) => Err(BytesRefusal::Memory),
        Err(_) => Err(BytesRefusal::NoNumber),
    }
}

/// Fills the front of `out` with what [`to_bytes`] answers, and writes at `size` how many bytes these are, also where there
/// is no room for them. Costs what that does, with or without room.
///
/// Refused as that is, and with [`BytesRefusal::NoRoom`] where they are more than `out` has; then `out` has what it had.
pub fn write_bytes(
    alloc: Global,
    index: &mut Index,
    moment: u64,
    known: &[u64],
    out: &mut [u8],
    size: &mut usize,
) -> Result<(), BytesRefusal>
    ensures bytes { (indexed index.old).current.block_len ≡ 128 → OnOk result (Fills (AreBytesOf known.now index.old) out.old out.new size.new) }
    ensures left_out { (indexed index.old).current.block_len ≡ 128 → IsNonDecreasing known.now
        → OnOk result (Fills (AreLeftOut known.now) out.old out.new size.new) }
    ensures saved { OnOk result (IsSaved index.new) }
    ensures untouched { OnErr result (out.new ≡ out.old) }
    ensures size { ¬ IsErrOf result BytesRefusal.NoRoom → OnErr result (size.new ≡ size.old) }
    ensures open { IsErrOf result BytesRefusal.OpenSegment ↔ ((indexed index.old).current.documents ≢ []) }
    ensures documents { indexed index.new ≡ indexed index.old }
    ensures statistics { statistics index.new ≡ statistics index.old }
    ensures refused { IfErr result (IsWriteRefusal (indexed index.old) out.old size.new) }
{
    let bytes = to_bytes(alloc, index, moment, known)?;
    *size = bytes.len();
    if bytes.len() > out.len() {
        return Err(BytesRefusal::NoRoom);
    }
    out[..bytes.len()].copy_from_slice(&bytes);
    Ok(())
}
