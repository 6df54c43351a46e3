//! The places of one term in a document, with its positions.

ghost use Rattle.std.specs.Prelude.{◌≡◌, ◌<◌, ◌≤◌, ◌++◌, ◌∷◌, [], IfOk, length, min};
ghost use Rattle.qm_docset.specs.Entry.{head_document, head_positions};
ghost use Rattle.qm_postings.specs.Positions.{shifted};
ghost use Rattle.qm_phrase.specs.Places.{Ascends, HasPassed, first_place, left_in, past, places_left, places_of, room_of, shift_of};

use crate::row::{ALL_PLACES, Row};
use qm_docset::TERMINATED;
use qm_postings::Postings;
use std::alloc::{AllocError, Global};

/// The positions of one term in the document looked at, and the row that goes through them.
#[derive(Drop)]
pub(crate) struct Places {
    pub(crate) row: Row,
    pub(crate) positions: Vec<u32>,
}

impl Places {
    /// A buffer for so many positions, with none yet. Fails where there is no room for them.
    pub(crate) fn with_room(
        alloc: Global,
        shift: u32,
        max_term_freq: u64,
    ) -> Result<Places, AllocError>
        ensures shift { IfOk result (λ places. shift_of places ≡ shift) }
        ensures room { IfOk result (λ places. room_of places ≡ max_term_freq) }
    {
        Ok(Places {
            row: Row { shift, passed: 0 },
            positions: Vec::with_capacity(alloc, max_term_freq as usize)?,
        })
    }

    /// The first place that no count has passed, or [`ALL_PLACES`] where none is left.
    pub(crate) fn first(&self) -> u64
        ensures { result ≡ first_place (places_left self.now) }
    {
        self.row.first(&self.positions)
    }

    /// Passes the first place, where it is this one.
    pub(crate) fn pass(&mut self, place: u64)
        requires { place < ALL_PLACES }
        ensures left { places_left self.new ≡ past place (places_left self.old) }
        ensures all { places_of self.new ≡ places_of self.old }
        ensures shift { shift_of self.new ≡ shift_of self.old }
        ensures room { room_of self.new ≡ room_of self.old }
    {
        self.row.pass(&self.positions, place);
    }

    /// Passes the places below this one. Costs the logarithm of their number.
    pub(crate) fn pass_below(&mut self, place: u64)
        requires { Ascends 0 (places_left self.old) }
        ensures left { HasPassed place (places_left self.old) (places_left self.new) }
        ensures all { places_of self.new ≡ places_of self.old }
        ensures shift { shift_of self.new ≡ shift_of self.old }
        ensures room { room_of self.new ≡ room_of self.old }
    {
        self.row.pass_below(&self.positions, place);
    }

    /// Begins anew with its first place.
    pub(crate) fn rewind(&mut self)
        ensures left { places_left self.new ≡ places_of self.old }
        ensures all { places_of self.new ≡ places_of self.old }
        ensures shift { shift_of self.new ≡ shift_of self.old }
        ensures room { room_of self.new ≡ room_of self.old }
    {
        self.row.passed = 0;
    }

    /// Drops all places.
    pub(crate) fn clear(&mut self)
        ensures none { places_of self.new ≡ [] }
        ensures shift { shift_of self.new ≡ shift_of self.old }
        ensures room { room_of self.old ≤ room_of self.new }
    {
        self.positions.clear();
        self.row.passed = 0;
    }

    /// Adds the first place of a row that is shifted alike. Takes no memory: asks for the room.
    pub(crate) fn push_first(&mut self, positions: &[u32], row: &Row)
        requires shift { shift_of self.old ≡ row.now.shift }
        requires some { first_place (left_in positions.now row.now) < ALL_PLACES }
        requires room { length (places_of self.old) < room_of self.old }
        ensures all { places_of self.new ≡ places_of self.old ++ first_place (left_in positions.now row.now) ∷ [] }
        ensures shift { shift_of self.new ≡ shift_of self.old }
        ensures room { room_of self.old ≤ room_of self.new }
    {
        self.positions.push(positions[row.passed]).unwrap();
    }

    /// How many places there are, held at 4294967295.
    pub(crate) fn len(&self) -> u32
        ensures { result ≡ min 4294967295 (length (places_of self.now)) }
    {
        self.positions.len().min(u32::MAX as usize) as u32
    }

    /// Reads the positions of a term in the document that it stands on, and begins anew. Takes no
    /// memory.
    pub(crate) fn read<P: Postings>(&mut self, postings: &mut P)
        requires valid { P.valid postings.old }
        requires placed { P.placed postings.old }
        requires here { head_document (P.entries postings.old) < TERMINATED }
        requires room { (P.limits postings.old).room ≤ room_of self.old }
        ensures left { places_left self.new ≡ shifted (shift_of self.old) (head_positions (P.entries postings.old)) }
        ensures shift { shift_of self.new ≡ shift_of self.old }
        ensures room { room_of self.old ≤ room_of self.new }
        ensures entries { P.entries postings.new ≡ P.entries postings.old }
        ensures limits { P.limits postings.new ≡ P.limits postings.old }
        ensures valid { P.valid postings.new }
        ensures placed { P.placed postings.new }
    {
        postings.positions(&mut self.positions);
        self.row.passed = 0;
    }
}
