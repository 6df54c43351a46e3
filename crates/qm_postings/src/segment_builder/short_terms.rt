//! The numbers of short terms that were asked for before, found without a search.
//!
//! Terms of at most eight bytes stand in slots beside the map of all terms, so that one look finds most numbers.

ghost use Rattle.std.specs.Prelude.{List, IsTrue, IfSome, IsOkUnless};
ghost use Rattle.qm_schema.specs.Term.{TermKey};
ghost use Rattle.qm_postings.specs.ShortTerms.{AreNumbersOf, IsNumberOf, IsOf, KeepsNumber};

use crate::headed_term::HeadedTerm;
use crate::term_head::HEAD_LEN;
use qm_schema::QueryError;
use std::alloc::Global;

/// From how many terms on a look at a slot saves more than it costs.
const FEW: usize = 256;

/// How many slots there are at most, of 24 bytes each: words beyond so many are rare ones.
const MOST_SLOTS: usize = 1 << 16;

/// An odd number of mixed bits, to spread heads over the slots: the golden ratio's.
const MIX: u64 = 0x9E37_79B9_7F4A_7C15;

/// A term of at most eight bytes, as its field (by number), its head and its length tell it from all others,
/// and its number.
#[derive(Clone, Copy, Debug)]
pub(crate) struct ShortTerm {
    pub(crate) field: u32,
    pub(crate) number: u32,
    pub(crate) head: u64,
    pub(crate) len: usize,
}

/// What an empty slot has: no term, since none that is looked up here is as long.
const NO_TERM: ShortTerm = ShortTerm {
    field: 0,
    number: 0,
    head: 0,
    len: HEAD_LEN + 1,
};

/// Slots for short terms and their numbers. A term's head says its slot, which has the first that was kept
/// there.
#[derive(Debug, Drop)]
pub(crate) struct ShortTerms {
    pub(crate) slots: Vec<ShortTerm>,
}

impl ShortTerms {
    pub(super) fn new(alloc: Global) -> ShortTerms
        ensures { (names : List TermKey) → AreNumbersOf names result.slots.items }
    {
        ShortTerms {
            slots: Vec::new(alloc),
        }
    }

    // The number of a term, where it stands in its slot.
    #[inline]
    pub(super) fn number_of(&self, term: &HeadedTerm) -> Option<u32>
        ensures { IfSome result (IsNumberOf term.now self.now.slots.items) }
    {
        let known = self.slots.get(self.place_of(term))?;
        if is_of(known, term) {
            Some(known.number)
        } else {
            None
        }
    }

    // Keeps the number of a term in its slot, where the term is short and the slot is empty: words that come
    // first are the frequent ones.
    pub(super) fn keep(&mut self, term: &HeadedTerm, number: u32)
        ensures { KeepsNumber term.now number self.old.slots.items self.new.slots.items }
    {
        let len = term.text_len();
        if len > HEAD_LEN {
            return;
        }
        let place = self.place_of(term);
        if place < self.slots.len() && self.slots[place].len > HEAD_LEN {
            self.slots[place] = ShortTerm {
                field: term.field().field_id(),
                number,
                head: term.head(),
                len,
            };
        }
    }

    // Makes more slots, all of them empty, where they are few for so many terms.
    pub(super) fn make_room(&mut self, terms: usize) -> Result<(), QueryError>
        ensures kept { (names : List TermKey) → AreNumbersOf names self.old.slots.items → AreNumbersOf names self.new.slots.items }
        ensures refused { IsOkUnless result QueryError.Memory }
    {
        let slots = self.slots.len();
        if terms < FEW || terms < slots || slots >= MOST_SLOTS {
            return Ok(());
        }
        let wanted = (slots * 4).clamp(FEW * 4, MOST_SLOTS);
        self.slots = vec![in *self.slots.allocator(); NO_TERM; wanted]?;
        Ok(())
    }

    // The slot of a term.
    #[inline]
    fn place_of(&self, term: &HeadedTerm) -> usize {
        let head = term.head();
        let mixed = (head ^ (head >> 32) ^ u64::from(term.field().field_id())).wrapping_mul(MIX);
        (mixed >> 40) as usize & self.slots.len().wrapping_sub(1)
    }
}

// Whether a slot has a term, which is short then.
#[inline]
fn is_of(known: &ShortTerm, term: &HeadedTerm) -> bool
    ensures { IsTrue result → IsOf term.now known.now }
{
    let len = term.text_len();
    known.head == term.head()
        && known.len == len
        && known.field == term.field().field_id()
        && len <= HEAD_LEN
}
