//! How many members of a union need to have a document.

ghost use Rattle.std.specs.Prelude.{◌≡◌, ℕ, ◌≤◌};
ghost use Rattle.qm_combine.specs.Combiner.{IsCleared};
ghost use Rattle.qm_combine.specs.Counted.{most_counted};
ghost use Rattle.qm_combine.specs.Window.{IsUntil, KeepsEnough, window_combiner};

use crate::counted::Counted;
use crate::score_combiner::ScoreCombiner;
use crate::union::window::Window;

/// How many of its members need to have a document that a [`BufferedUnion`](crate::BufferedUnion) lists, and what
/// leaves the others out of its window.
pub trait LeastMembers<C: ScoreCombiner>: Drop {
    // how many members
    ghost least: { Self → ℕ };

    /// How many members: one or more.
    fn number(&self) -> usize
        ensures { result ≡ least self.now };

    /// Leaves in a window the documents that so many scores were added to.
    fn keep_enough(&self, window: &mut Window<C>)
        requires cleared { IsCleared C.cleared (window_combiner window.old) }
        requires until { IsUntil window.old }
        ensures { KeepsEnough C.step (least self.now) window.old window.new };

    // no document is listed that no member has
    ghost some: { (s : Self) → 1 ≤ least s };
}

/// One member is enough: a window keeps all that it took in.
#[derive(Clone, Copy)]
pub struct AnyMember;

impl<C: ScoreCombiner> LeastMembers<C> for AnyMember {
    ghost use Rattle.std.proofs.Math.Nat.{le_refl};

    ghost least = { λ _. 1 };

    fn number(&self) -> usize {
        1
    }

    fn keep_enough(&self, _window: &mut Window<C>) {}

    ghost some = { λ _. le_refl 1 };
}

/// So many members are enough: a window counts the scores of each document.
#[derive(Clone, Copy)]
pub struct AtLeast {
    minimum: usize,
    ghost some: { 1 ≤ minimum },
    ghost countable: { minimum ≤ most_counted },
}

impl AtLeast {
    /// So many members: one or more, and at most `usize::MAX`.
    pub fn new(minimum: usize) -> AtLeast
        requires { 1 ≤ minimum }
        ensures { result.minimum ≡ minimum }
    {
        AtLeast { minimum }
    }
}

impl<C: ScoreCombiner> LeastMembers<Counted<C>> for AtLeast {
    ghost least = { λ s. s.minimum };

    fn number(&self) -> usize {
        self.minimum
    }

    fn keep_enough(&self, window: &mut Window<Counted<C>>) {
        window.keep_enough(self.minimum);
    }

    ghost some = { λ s. s.some };
}
