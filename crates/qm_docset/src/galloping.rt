//! Search in an ascending list, from a place near the answer.
//!
//! The first document is looked at by itself, then come half a block and blocks of eight, in which is counted without a
//! branch, then doubling and halving: most seeks are near.

ghost use Rattle.std.specs.Prelude.{ℕ, ◌<◌, ◌≤◌, IfErr, IfOk, length, slice_index};
ghost use Rattle.std.specs.List.Sorted.{IsStrictlyIncreasing};

use crate::numbers::DocId;

// how many blocks are looked at one by one, by their last document
const NEAR_BLOCKS: usize = 4;

// how many documents a block has: of so many those below the target are counted without a branch
const BLOCK: usize = 8;

/// The place of the first document at or past `target` in an ascending list, from the place `start`
/// on, or the list's length where there is none.
///
/// Most targets are near: the first document is looked at by itself, and then half a block and a few
/// blocks of eight by their last document; in the one that has the target the documents below it are
/// counted, without a branch that a processor would have to guess. Behind these the stride doubles
/// until it reaches the target, and the last stride is halved. So the cost is logarithmic in the
/// distance from `start`, not in the list's length.
#[inline]
pub fn gallop(docs: &[DocId], start: usize, target: DocId) -> usize
    requires ascending { IsStrictlyIncreasing docs.now }
    requires within { start ≤ length docs.now }
    ensures from_start { start ≤ result }
    ensures within { result ≤ length docs.now }
    ensures passed { (k : ℕ) → start ≤ k → k < result → slice_index docs.now k < target }
    ensures reached { result < length docs.now → target ≤ slice_index docs.now result }
{
    if start == docs.len() || docs[start] >= target {
        return start;
    }
    let mut low = match find_in_block(docs, start + 1, BLOCK / 2, target) {
        Ok(place) => return place,
        Err(passed) => passed,
    };
    // all before low are below the target
    'skips: for _ in 0..NEAR_BLOCKS {
        match find_in_block(docs, low, BLOCK, target) {
            Ok(place) => return place,
            Err(passed) => low = passed,
        }
    }
    gallop_far(docs, low, target)
}

// The place of the first document at or past the target among so many from here on; or where none of these is, how far
// all are below it. Nothing is passed where fewer are left.
#[inline]
fn find_in_block(docs: &[DocId], low: usize, size: usize, target: DocId) -> Result<usize, usize>
    requires ascending { IsStrictlyIncreasing docs.now }
    requires within { low ≤ length docs.now }
    requires some { 0 < size }
    ensures from_low { IfOk result (λ place. low ≤ place) }
    ensures within { IfOk result (λ place. place ≤ length docs.now) }
    ensures below { IfOk result (λ place. (k : ℕ) → low ≤ k → k < place → slice_index docs.now k < target) }
    ensures reached { IfOk result (λ place. place < length docs.now → target ≤ slice_index docs.now place) }
    ensures behind { IfErr result (λ next. low ≤ next × (next ≤ length docs.now)) }
    ensures passed { IfErr result (λ next. (k : ℕ) → low ≤ k → k < next → slice_index docs.now k < target) }
{
    if docs.len() - low < size {
        return Err(low);
    }
    let end = low + size;
    if docs[end - 1] < target {
        return Err(end);
    }
    Ok(low + count_below(&docs[low..end], target))
}

// The same without a look at what is near.
fn gallop_far(docs: &[DocId], start: usize, target: DocId) -> usize
    requires ascending { IsStrictlyIncreasing docs.now }
    requires within { start ≤ length docs.now }
    ensures from_start { start ≤ result }
    ensures within { result ≤ length docs.now }
    ensures passed { (k : ℕ) → start ≤ k → k < result → slice_index docs.now k < target }
    ensures reached { result < length docs.now → target ≤ slice_index docs.now result }
{
    let mut low = start;
    let mut high = docs.len();
    let mut stride = BLOCK;
    // all before low are below the target, none from high on is
    while stride <= high - low {
        let probe = low + (stride - 1);
        if docs[probe] >= target {
            high = probe;
            break;
        }
        low = probe + 1;
        stride = stride.saturating_mul(2);
    }
    // as before
    while low < high {
        let middle = low + (high - low) / 2;
        if docs[middle] < target {
            low = middle + 1;
        } else {
            high = middle;
        }
    }
    low
}

// How many of some ascending documents are below the target, which are the first of them.
#[inline]
fn count_below(docs: &[DocId], target: DocId) -> usize
    requires { IsStrictlyIncreasing docs.now }
    ensures within { result ≤ length docs.now }
    ensures passed { (k : ℕ) → k < result → slice_index docs.now k < target }
    ensures reached { (k : ℕ) → result ≤ k → k < length docs.now → target ≤ slice_index docs.now k }
{
    let mut below = 0;
    // the first are below the target, as many as were counted
    for doc in docs {
        if *doc < target {
            below += 1;
        }
    }
    below
}
