//! The places of a term in a document, as a count passes them one after another.

ghost use Rattle.std.specs.Prelude.{◌≡◌, ◌<◌};
ghost use Rattle.qm_phrase.specs.Places.{Ascends, HasPassed, first_place, left_in, past};

use qm_docset::gallop;

/// Past every place: a position and a shift are below 4294967296 each.
pub(crate) const ALL_PLACES: u64 = 8589934592;

/// How far the positions of a term in the document looked at are shifted, and how many of them a count
/// has passed. The shift is added where places are compared, in 64 bits. The positions stand beside it.
#[derive(Drop)]
pub(crate) struct Row {
    pub(crate) shift: u32,
    pub(crate) passed: usize,
}

impl Row {
    /// The first place that no count has passed, or [`ALL_PLACES`] where none is left.
    pub(crate) fn first(&self, positions: &[u32]) -> u64
        ensures { result ≡ first_place (left_in positions.now self.now) }
    {
        match positions.get(self.passed) {
            Some(position) => u64::from(*position) + u64::from(self.shift),
            None => ALL_PLACES,
        }
    }

    /// Passes the first place, where it is this one.
    pub(crate) fn pass(&mut self, positions: &[u32], place: u64)
        requires { place < ALL_PLACES }
        ensures left { left_in positions.now self.new ≡ past place (left_in positions.now self.old) }
        ensures shift { self.new.shift ≡ self.old.shift }
    {
        if self.first(positions) == place {
            self.passed += 1;
        }
    }

    /// Passes the places below this one. Costs the logarithm of their number.
    pub(crate) fn pass_below(&mut self, positions: &[u32], place: u64)
        requires { Ascends 0 (left_in positions.now self.old) }
        ensures left { HasPassed place (left_in positions.now self.old) (left_in positions.now self.new) }
        ensures shift { self.new.shift ≡ self.old.shift }
    {
        if self.passed < positions.len() {
            let position = place.saturating_sub(u64::from(self.shift));
            let target = position.min(u64::from(u32::MAX)) as u32;
            let left = &positions[self.passed..];
            self.passed += gallop(left, 0, target);
        }
    }
}
