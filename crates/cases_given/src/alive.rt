//! The documents that `count` counts.

use crate::given::row_of;
use cases::{Fault, Row, behind, number, read_documents};
use qm_docset::{AliveBitSet, BitSet};
use qm_postings::SegmentReader;
use std::alloc::Global;

/// The documents of a row `alive MAX DOC..`, or those of the first segment that weren't deleted.
pub fn read_alive(
    alloc: Global,
    rows: &[Row<'_>],
    segments: &[SegmentReader],
) -> Result<AliveBitSet, Fault> {
    let words = row_of(alloc, rows, "alive")?;
    if words.is_empty() {
        return alive_of(alloc, segments);
    }
    let max_value = number(&words, 1).ok_or(Fault::NotUnderstood)?;
    Ok(AliveBitSet::from(read_set(alloc, max_value, behind(&words, 2))?))
}

// The set of documents, each of which is below a number.
fn read_set(alloc: Global, max_value: u32, words: &[&str]) -> Result<BitSet, Fault> {
    let docs = read_documents(alloc, words)?;
    let mut set = BitSet::with_max_value(alloc, max_value)?;
    if !add_all(&mut set, docs.as_slice()) {
        return Err(Fault::NotUnderstood);
    }
    Ok(set)
}

/// Adds numbers to a set; whether each is below the set's greatest one.
pub fn add_all(set: &mut BitSet, numbers: &[u32]) -> bool {
    let mut are_below = true;
    // the numbers before this one that the set has room for are in it, and it is known whether all are
    for number in numbers {
        if *number < set.max_value() {
            set.insert(*number);
        } else {
            are_below = false;
        }
    }
    are_below
}

fn alive_of(alloc: Global, segments: &[SegmentReader]) -> Result<AliveBitSet, Fault> {
    let Some(segment) = segments.first() else {
        return Ok(AliveBitSet::from(BitSet::with_max_value(alloc, 0)?));
    };
    let max_doc = segment.max_doc();
    let mut set = BitSet::with_max_value(alloc, max_doc)?;
    // the set has those of the documents before this one that are alive
    for doc in 0..max_doc {
        let is_alive = match segment.alive_bitset() {
            Some(alive) => alive.is_alive(doc),
            None => true,
        };
        if is_alive && doc < set.max_value() {
            set.insert(doc);
        }
    }
    Ok(AliveBitSet::from(set))
}
