//! Words: what they weigh, and how many documents hold them.

ghost use Rattle.std.specs.Prelude.{◌≡◌, ◌≢◌, ◌↔◌, ◌≤◌, IfErr, None, OnErr, OnOk, map, nat_abs};
ghost use Rattle.qm_index.specs.Indexed.{all_segments, indexed};
ghost use Rattle.birchagain.specs.Body.{body_term};
ghost use Rattle.birchagain.specs.Changes.{IsSame, IsWeighed};
ghost use Rattle.birchagain.specs.CutWords.{AreWords, IsCutRefusal, words_from};
ghost use Rattle.birchagain.specs.Holding.{holder_count};
ghost use Rattle.birchagain.specs.Weighing.{IsWeighRefusal};
ghost use Rattle.birchagain_c.specs.Frequencies.{IsFrequencyRefusal};
ghost use Rattle.birchagain_c.specs.Held.{Becomes, Holds, IsStatus, content};

use crate::statuses::{EMPTY, status_after};
use birchagain::{Refusal, frequencies, rarity, weigh};
use birchagain_handle::Handle;
use qm_index::Index;
use std::alloc::Global;

/// Gives a word its weight from now on.
#[unsafe(no_mangle)]
pub extern "C" fn birchagain_weigh(
    alloc: Global,
    index: &mut Handle,
    word: &[u8],
    weight: i64,
) -> u32
    ensures weighed { result ≡ 0 → Becomes (IsWeighed word.now (nat_abs weight)) index.old.held index.new.held }
    ensures refused { result ≢ 0 → content index.new.held ≡ content index.old.held }
    ensures empty { result ≡ 64 ↔ (index.old.held ≡ None) }
    ensures status { IsStatus (λ _. IsWeighRefusal word.now weight) index.old.held result }
{
    match index.take(alloc) {
        None => EMPTY,
        Some(mut held) => {
            let done = weigh(alloc, &mut held, word, weight);
            index.put(alloc, held);
            status_after(done)
        }
    }
}

/// Fills `out` with how many documents hold each word, deleted ones too. It has as many numbers as there are words.
#[unsafe(no_mangle)]
pub extern "C" fn birchagain_frequencies(
    alloc: Global,
    index: &mut Handle,
    bytes: &[u8],
    ends: &[usize],
    out: &mut [u64],
) -> u32
    ensures same { content index.new.held ≡ content index.old.held }
    ensures counted { result ≡ 0 → Holds (λ i.
        out.new ≡ map (λ w. holder_count (body_term w) (all_segments (indexed i))) (words_from 0 ends.now bytes.now)) index.old.held }
    ensures untouched { result ≢ 0 → out.new ≡ out.old }
    ensures empty { result ≡ 64 ↔ (index.old.held ≡ None) }
    ensures status { IsStatus (λ _. IsFrequencyRefusal ends.now bytes.now out.old) index.old.held result }
{
    match index.take(alloc) {
        None => EMPTY,
        Some(mut held) => {
            let done = write_frequencies(alloc, &mut held, bytes, ends, out);
            index.put(alloc, held);
            status_after(done)
        }
    }
}

// The same of an index.
fn write_frequencies(
    alloc: Global,
    index: &mut Index,
    bytes: &[u8],
    ends: &[usize],
    out: &mut [u64],
) -> Result<(), Refusal>
    ensures same { IsSame index.old index.new }
    ensures counted { OnOk result (out.new ≡ map (λ w. holder_count (body_term w) (all_segments (indexed index.old))) (words_from 0 ends.now bytes.now)) }
    ensures untouched { OnErr result (out.new ≡ out.old) }
    ensures refused { IfErr result (IsFrequencyRefusal ends.now bytes.now out.old) }
{
    if out.len() != ends.len() {
        return Err(Refusal::UnevenRows);
    }
    let counts = frequencies(alloc, index, bytes, ends)?;
    out.copy_from_slice(&counts);
    Ok(())
}

/// What a word weighs that so many of the documents hold: at most 45747.
#[unsafe(no_mangle)]
pub extern "C" fn birchagain_rarity(documents: u64, held: u64) -> u64
    ensures few { result ≤ 45747 }
{
    rarity(documents, held)
}
