//! An index as bytes, and back.
//!
//! Nothing is kept between two calls, so nothing has to be freed; the buffer is the caller's.

ghost use Rattle.std.specs.Prelude.{◌≡◌, ◌≢◌, ◌↔◌, ◌⊎◌, [], Err, IfErr, IfOk, IsErrOf, IsOkUnless, None};
ghost use Rattle.std.specs.List.Sorted.{IsNonDecreasing};
ghost use Rattle.qm_index.specs.Indexed.{indexed, statistics};
ghost use Rattle.qm_index.specs.declared.index.Index.{Index};
ghost use Rattle.birchagain.specs.Changes.{IsSame};
ghost use Rattle.birchagain_bytes.specs.Bytes.{AreBytesOf};
ghost use Rattle.birchagain_bytes.specs.Packed.{head_at};
ghost use Rattle.birchagain_bytes.specs.Refusals.{IsFromBytesRefusal, IsWriteRefusal};
ghost use Rattle.birchagain_bytes.specs.Statuses.{status_of};
ghost use Rattle.birchagain_c.specs.Bytes.{IsBytesStatus, IsWritten, status_after};
ghost use Rattle.birchagain_c.specs.Held.{Holds, content};

use crate::statuses::{DONE, EMPTY};
use birchagain_bytes::{BytesRefusal, from_bytes, write_bytes};
use birchagain_handle::Handle;
use qm_index::Index;
use std::alloc::Global;

/// Fills the front of `out` with the files of the index, those of known numbers without bytes, and writes at `size` how many
/// bytes these are, also where there is no room for them.
#[unsafe(no_mangle)]
pub extern "C" fn birchagain_to_bytes(
    alloc: Global,
    index: &mut Handle,
    moment: u64,
    known: &[u64],
    out: &mut [u8],
    size: &mut usize,
) -> u32
    ensures same { content index.new.held ≡ content index.old.held }
    ensures written { result ≡ 0 → Holds (IsWritten known.now out.old out.new size.new) index.old.held }
    ensures untouched { result ≢ 0 → out.new ≡ out.old }
    ensures size { result ≢ 0 → result ≢ 86 → size.new ≡ size.old }
    ensures empty { result ≡ 64 ↔ (index.old.held ≡ None) }
    ensures status { IsBytesStatus (λ i. IsWriteRefusal (indexed i) out.old size.new) index.old.held result }
{
    match index.take(alloc) {
        None => EMPTY,
        Some(mut held) => {
            let done = write_bytes(alloc, &mut held, moment, known, out, size);
            index.put(alloc, held);
            status_after(done)
        }
    }
}

/// Puts the index that some bytes are into the handle; what it held is freed. Where it is refused the handle holds what it
/// held.
#[unsafe(no_mangle)]
pub extern "C" fn birchagain_from_bytes(alloc: Global, index: &mut Handle, bytes: &[u8]) -> u32
    ensures read { result ≡ 0 → Holds (λ i. (saved : Index) → AreBytesOf [] saved bytes.now → IsSame saved i) index.new.held }
    ensures whole { (saved : Index) → AreBytesOf [] saved bytes.now → IsNonDecreasing (statistics saved).norms → (result ≡ 0) ⊎ (result ≡ 13) }
    ensures refused { result ≢ 0 → index.new.held ≡ index.old.held }
    ensures other_file { result ≡ 80 ↔ (head_at bytes.now ≡ Err BytesRefusal.OtherFile) }
    ensures status { (result ≡ 0) ⊎ ((refusal : BytesRefusal) × (result ≡ status_of refusal) × IsFromBytesRefusal refusal) }
{
    match boxed_index(alloc, bytes) {
        Ok(opened) => {
            index.put(alloc, opened);
            DONE
        }
        Err(refusal) => refusal.status(),
    }
}

// The index that some bytes are, on the heap.
fn boxed_index(alloc: Global, bytes: &[u8]) -> Result<Box<Index, Global>, BytesRefusal>
    ensures read { (saved : Index) → AreBytesOf [] saved bytes.now → IfOk result (λ b. IsSame saved b.value) }
    ensures whole { (saved : Index) → AreBytesOf [] saved bytes.now → IsNonDecreasing (statistics saved).norms
        → IsOkUnless result BytesRefusal.Memory }
    ensures other_file { IsErrOf result BytesRefusal.OtherFile ↔ (head_at bytes.now ≡ Err BytesRefusal.OtherFile) }
    ensures refused { IfErr result IsFromBytesRefusal }
{
    let index = from_bytes(alloc, bytes)?;
    Ok(Box::new(alloc, index)?)
}

// The status of a call that was refused, or wasn't: never that of an empty handle.
fn status_after(done: Result<(), BytesRefusal>) -> u32
    ensures { result ≡ status_after done }
{
    match done {
        Ok(()) => DONE,
        Err(refusal) => refusal.status(),
    }
}
