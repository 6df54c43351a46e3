//! Where the terms of a segment may stand, by their texts.
//!
//! A guess says where a term stands before it is halved for. A wrong one costs a look, and is never an answer.

ghost use Rattle.std.specs.Prelude.{IsOkUnless};

use crate::segment_reader::TermEntry;
use crate::term_head::{HEAD_LEN, text_head};
use qm_schema::QueryError;
use std::alloc::Global;

/// How many slots there are for each term.
const SLOTS_A_TERM: usize = 2;

/// How many slots a term may stand in: the one that its text says, and those behind it.
const PROBES: usize = 2;

/// What stands in a slot that no term has.
const NO_TERM: u32 = u32::MAX;

/// What texts are mixed by: the golden ratio's part behind the point, of 64 bits.
const MIX: u64 = 0x9e37_79b9_7f4a_7c15;

/// Slots for the terms of a segment, in one of which a term stands by its place in their order. Its text says which
/// those may be.
///
/// What stands in a slot is a guess: whoever follows it looks whether the term that it seeks stands at that place, and
/// else seeks it by halving the terms. So nothing is promised of a slot, and a term whose slots were all taken when its
/// turn came has none.
#[derive(Debug, Drop)]
pub(crate) struct TermGuesses {
    slots: Vec<u32>,
}

impl TermGuesses {
    // Slots for these terms. Costs a step for each term, and eight bytes of memory.
    pub(crate) fn new(alloc: Global, terms: &[TermEntry]) -> Result<TermGuesses, QueryError>
        ensures { IsOkUnless result QueryError.Memory }
    {
        let count = terms.len().saturating_mul(SLOTS_A_TERM);
        let mut guesses = TermGuesses {
            slots: vec![in alloc; NO_TERM; count]?,
        };
        let mut place = 0u32;
        // the terms before this one are put in, and this one has that place
        for entry in terms {
            guesses.put(entry, place);
            place = place.saturating_add(1);
        }
        Ok(guesses)
    }

    // Puts the place of a term into one of its slots, where one is free.
    fn put(&mut self, entry: &TermEntry, place: u32) {
        let first = self.slot_of(entry.head, entry.term.serialized_value_bytes());
        // the slots from the first to before this one have other terms
        for slot in first..first.saturating_add(PROBES).min(self.slots.len()) {
            if self.slots[slot] == NO_TERM {
                self.slots[slot] = place;
                return;
            }
        }
    }

    // The first slot of a text that has this head: its first bytes, its last ones and its length tell it from most
    // others.
    #[inline]
    pub(crate) fn slot_of(&self, head: u64, text: &[u8]) -> usize {
        let mut hash = head ^ text.len() as u64;
        if text.len() > HEAD_LEN {
            let tail = text_head(&text[text.len() - HEAD_LEN..]);
            hash = hash.wrapping_mul(MIX).rotate_left(29) ^ tail;
        }
        let high = hash.wrapping_mul(MIX) >> 32;
        (high.wrapping_mul(self.slots.len() as u64) >> 32) as usize
    }

    // The places that stand in the slots from one on.
    #[inline]
    pub(crate) fn guesses_from(&self, slot: usize) -> &[u32] {
        let first = slot.min(self.slots.len());
        let count = PROBES.min(self.slots.len() - first);
        &self.slots[first..first + count]
    }
}
