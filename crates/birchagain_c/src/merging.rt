//! The best of what several indexes answer.

ghost use Rattle.std.specs.Prelude.{◌≡◌, ◌≢◌, ◌↔◌, OnErr, OnOk};
ghost use Rattle.birchagain_partitions.specs.Merging.{AreRanked, HasBestOfBoth, HaveNumbers};

use crate::statuses::DONE;
use birchagain_partitions::{MergeRefusal, merge_hits};
use qm_script::Hit;

/// Fills the front of `out` with the best of two answers to one query, as many as there is room for, and writes at
/// `filled` how many these are. The documents of the second are numbered from `offset` on.
#[unsafe(no_mangle)]
pub extern "C" fn birchagain_merge(
    first: &[Hit],
    second: &[Hit],
    offset: u64,
    out: &mut [Hit],
    filled: &mut usize,
) -> u32
    ensures best { result ≡ 0 → HasBestOfBoth offset first.now second.now out.old out.new filled.new }
    ensures untouched { result ≢ 0 → (out.new ≡ out.old) × (filled.new ≡ filled.old) }
    ensures not_ranked { result ≡ 73 ↔ (AreRanked first.now second.now → ⊥) }
    ensures no_number { result ≡ 74 → HaveNumbers offset second.now → ⊥ }
    ensures numbered { result ≡ 0 → HaveNumbers offset second.now }
{
    match merge_hits(first, second, offset, out) {
        Ok(count) => {
            *filled = count;
            DONE
        }
        Err(refusal) => refusal.status(),
    }
}
