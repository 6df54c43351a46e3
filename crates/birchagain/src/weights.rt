//! What words weigh.
//!
//! `weigh` takes one word. Of several, the first would have their weights where memory runs out for a later one.

ghost use Rattle.std.specs.Prelude.{◌≡◌, ◌↔◌, ◌≤◌, ◌<◌, ◌^◌, ◌≤ℤ◌, IfErr, IsErrOf, OnErr, OnOk, nat_abs, pos};
ghost use Rattle.qm_index.specs.Indexed.{indexed, statistics};
ghost use Rattle.qm_postings.specs.Statistics.{with_weight};
ghost use Rattle.birchagain.specs.Body.{body_term};
ghost use Rattle.birchagain.specs.Weighing.{IsWeighRefusal};

use crate::body::{body_term, text_of};
use crate::refusal::Refusal;
use qm_docset::Score;
use qm_index::Index;
use std::alloc::Global;

/// Gives a word its weight from now on, in whole scores. Costs a search by halving among the words that were given one.
///
/// Refused with [`Refusal::NegativeWeight`] exactly where the weight is below 0, else with [`Refusal::NotText`] only
/// where the word is not UTF-8, and else for want of memory.
pub fn weigh(alloc: Global, index: &mut Index, word: &[u8], weight: Score) -> Result<(), Refusal>
    ensures weighed { OnOk result (statistics index.new ≡ with_weight (statistics index.old) (body_term word.now) (nat_abs weight)) }
    ensures unchanged { OnErr result (statistics index.new ≡ statistics index.old) }
    ensures documents { indexed index.new ≡ indexed index.old }
    ensures negative { IsErrOf result Refusal.NegativeWeight ↔ ¬ (pos 0 ≤ℤ weight) }
    ensures refused { IfErr result (IsWeighRefusal word.now weight) }
{
    if weight < 0 {
        return Err(Refusal::NegativeWeight);
    }
    let word = text_of(word)?;
    let term = body_term(alloc, word)?;
    index.set_weight(term, weight)?;
    Ok(())
}

/// What a word weighs that so many of the documents hold: BM25's weight, the natural logarithm of
/// `1 + (documents - held + 0.5) / (held + 0.5)`, in thousandths, rounded down. However many documents there are, it
/// is at most 45747.
pub fn rarity(documents: u64, held: u64) -> u64
    ensures few { result ≤ 45747 }
{
    let above = u128::from(documents) * 2 + 2;
    let below = u128::from(held.min(documents)) * 2 + 1;
    log_in_thousandths((above << ONE) / below)
}

// A number of 1 has this bit, in what stands for it below.
const ONE: u32 = 60;

// The natural logarithm of 2, in parts of 10^12.
const LOG_OF_2: u128 = 693_147_180_560;

// How many bits of a logarithm are found.
const LOG_BITS: u32 = 40;

// The natural logarithm of a number from 1 up to 2 ^ 66, in thousandths.
fn log_in_thousandths(number: u128) -> u64
    requires few { number < 2 ^ 126 }
    ensures few { result ≤ 45747 }
{
    let number = number.max(1 << ONE);
    let power = number.ilog2().saturating_sub(ONE);
    let mut part = number.checked_shr(power).unwrap_or(1 << ONE);
    let mut log = u128::from(power);
    // a square has twice the logarithm, whose next bit says whether it passes 2: so `log` is below (power + 1) * 2 ^ bit
    for bit in 0..LOG_BITS {
        part = part.saturating_mul(part) >> ONE;
        log = log.saturating_mul(2);
        if part >= 2 << ONE {
            part >>= 1;
            log = log.saturating_add(1);
        }
    }
    let trillionths = log.saturating_mul(LOG_OF_2);
    u64::try_from(trillionths / (1_000_000_000 << LOG_BITS)).unwrap_or(u64::MAX)
}
