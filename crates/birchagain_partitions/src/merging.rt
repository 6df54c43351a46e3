//! The best hits of two answers.

ghost use Rattle.std.specs.Prelude.{◌≡◌, ◌↔◌, ◌⊎◌, ◌+◌, ◌<◌, ◌≤◌, IfOk, IsErrOf, OnErr, false, length, true};
ghost use Rattle.birchagain_partitions.specs.Merging.{AreRanked, HasBestOfBoth, HaveNumbers, IsFirstNext, IsSecondNext, items, moved_hit};
ghost use Rattle.birchagain_partitions.specs.Ranked.{IsRanked};

use crate::merge_refusal::MergeRefusal;
use qm_script::Hit;

/// Fills the front of `out` with the best of two answers to one query, as many as there is room for, and answers how
/// many these are: by score downwards, and of one score those of the first answer first. The documents of the second
/// are numbered from `offset` on. Each answer has its own best first, as [`qm_script::best_hits`] gives them.
///
/// So where one index was asked for its best and another for its own, and words weigh the same in both, the answer is
/// that of an index which has the segments of both. Takes no memory, and costs a step for each hit.
///
/// Refused with [`MergeRefusal::NotRanked`] and [`MergeRefusal::NumberTooHigh`], in that order, and then `out` is as it was.
pub fn merge_hits(
    first: &[Hit],
    second: &[Hit],
    offset: u64,
    out: &mut [Hit],
) -> Result<usize, MergeRefusal>
    ensures best { IfOk result (HasBestOfBoth offset first.now second.now out.old out.new) }
    ensures untouched { OnErr result (out.new ≡ out.old) }
    ensures not_ranked { IsErrOf result MergeRefusal.NotRanked ↔ (AreRanked first.now second.now → ⊥) }
    ensures no_number { IsErrOf result MergeRefusal.NumberTooHigh → (HaveNumbers offset second.now → ⊥) }
    ensures numbered { IfOk result (λ _. HaveNumbers offset second.now) }
{
    if !is_ranked(first) || !is_ranked(second) {
        return Err(MergeRefusal::NotRanked);
    }
    if !have_numbers(second, offset) {
        return Err(MergeRefusal::NumberTooHigh);
    }
    Ok(write_best(first, second, offset, out))
}

// Whether none scores more than the one before it.
fn is_ranked(hits: &[Hit]) -> bool
    ensures { result ≡ true ↔ IsRanked (items hits.now) }
{
    let Some((best, others)) = hits.split_first() else {
        return true;
    };
    let mut bound = best.score;
    // those before this one are
    for hit in others {
        if hit.score > bound {
            return false;
        }
        bound = hit.score;
    }
    true
}

// Whether documents that are numbered from this one on have numbers of 64 bits.
fn have_numbers(hits: &[Hit], offset: u64) -> bool
    ensures { result ≡ true ↔ HaveNumbers offset hits.now }
{
    let highest = u64::MAX - offset;
    // those before this one have
    for hit in hits {
        if hit.document > highest {
            return false;
        }
    }
    true
}

// Fills the front with the best of both.
fn write_best(first: &[Hit], second: &[Hit], offset: u64, out: &mut [Hit]) -> usize
    requires ranked { AreRanked first.now second.now }
    requires numbered { HaveNumbers offset second.now }
    ensures { HasBestOfBoth offset first.now second.now out.old out.new result }
{
    let all = first.len() + second.len();
    let room = out.len().min(all);
    let (mut i, mut j, mut count) = (0, 0, 0);
    // what is written, and behind it the best of what is left, are the best of both
    while count < room {
        if is_first_next(first, i, second, j) {
            out[count] = first[i];
            i += 1;
        } else {
            let hit = second[j];
            out[count] = renumbered(hit, offset);
            j += 1;
        }
        count += 1;
    }
    count
}

// Whether the next of the first answer comes before that of the second: this is not there, or does not score more.
fn is_first_next(first: &[Hit], i: usize, second: &[Hit], j: usize) -> bool
    requires first { i ≤ length first.now }
    requires second { j ≤ length second.now }
    requires some { (i < length first.now) ⊎ (j < length second.now) }
    ensures first { result ≡ true → IsFirstNext first.now i second.now j }
    ensures second { result ≡ false → IsSecondNext first.now i second.now j }
{
    if i == first.len() {
        return false;
    }
    j == second.len() || first[i].score >= second[j].score
}

// The same hit where documents are numbered from this one on.
fn renumbered(hit: Hit, offset: u64) -> Hit
    requires number { offset + hit.document ≤ 18446744073709551615 }
    ensures { result ≡ moved_hit offset hit }
{
    Hit {
        document: offset + hit.document,
        score: hit.score,
    }
}
