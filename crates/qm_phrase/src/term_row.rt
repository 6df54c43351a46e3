//! A term of a phrase, over the positions of all members.

ghost use Rattle.std.specs.Prelude.{◌≡◌, ◌<◌, length};
ghost use Rattle.qm_phrase.specs.Places.{Ascends, HasPassed, first_place, past};
ghost use Rattle.qm_phrase.specs.TermRows.{term_left, term_of};

use crate::row::{ALL_PLACES, Row};

/// A term of a phrase: the number of its member, whose postings are the term's, and the row of its
/// places. Terms that are equal share a member, and so its positions.
#[derive(Drop)]
pub(crate) struct TermRow {
    pub(crate) member: usize,
    pub(crate) row: Row,
}

impl TermRow {
    /// The first place that no count has passed, or [`ALL_PLACES`] where none is left.
    pub(crate) fn first(&self, positions: &[Vec<u32>]) -> u64
        requires { self.now.member < length positions.now }
        ensures { result ≡ first_place (term_left positions.now self.now) }
    {
        self.row.first(&positions[self.member])
    }

    /// Passes the first place, where it is this one, and then the places below a floor. Costs the
    /// logarithm of their number.
    pub(crate) fn pass(&mut self, positions: &[Vec<u32>], place: u64, floor: u64)
        requires inside { self.old.member < length positions.now }
        requires place { place < ALL_PLACES }
        requires ascends { Ascends 0 (term_left positions.now self.old) }
        ensures left { HasPassed floor (past place (term_left positions.now self.old)) (term_left positions.now self.new) }
        ensures term { term_of self.new ≡ term_of self.old }
    {
        let positions = &positions[self.member];
        self.row.pass(positions, place);
        self.row.pass_below(positions, floor);
    }
}
