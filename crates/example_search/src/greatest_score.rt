//! A combiner of one's own: the greatest of the scores that a document has.

ghost use Rattle.std.specs.Prelude.{◌≡◌, ℕ, ◌≤◌, max, refl};
ghost use Rattle.std.proofs.Common.{arith};
ghost use Rattle.qm_docset.specs.Entry.{greatest_score};
ghost use Rattle.qm_combine.specs.Combine.{greatest_of};
ghost use Rattle.qm_combine.specs.CombineFacts.{greatest_of-le};

use qm_combine::{BoundedBySum, ScoreCombiner, Scorer};
use qm_docset::Score;
use std::marker::Model;

/// Takes the greatest of the scores.
#[derive(Clone, Copy)]
pub struct GreatestScore {
    greatest: u64,
}

// contracts see the combiner as the greatest score so far
impl Model for GreatestScore {
    ghost Value = { ℕ };

    ghost view = { λ s. s.greatest };

    ghost invariant = { λ s. s.greatest ≤ greatest_score };

    ghost inverse = { λ greatest. record { greatest = greatest } };
}

impl Default for GreatestScore {
    ghost is_default = { λ c. c ≡ 0 };

    /// A combiner with no score yet.
    fn default() -> GreatestScore {
        GreatestScore { greatest: 0 }
    }
}

// A combiner says what it makes of a document's scores (`combined`), and how it goes there: its state
// after one more score (`step`) and without any (`cleared`), what a state stands for (`value`), and
// for which scores it has room. The calls mirror these. The laws at the end say that both agree, that
// the order of the scores is of no consequence, and that no more comes out than went in.
impl ScoreCombiner for GreatestScore {
    ghost combined = { λ _ scores. greatest_of scores };

    ghost step = { λ c score. max c score };

    ghost cleared = { λ _. 0 };

    ghost value = { λ c. c };

    ghost has_room = { λ _ _. Unit {0} };

    fn update<S: Scorer>(&mut self, scorer: &mut S) {
        self.greatest = self.greatest.max(scorer.score() as u64);
    }

    fn clear(&mut self) {
        self.greatest = 0;
    }

    fn score(&self) -> Score {
        self.greatest as Score
    }

    ghost combines = { λ _ _. refl };

    ghost clear_keeps = { λ _. refl };

    ghost commutes = { λ _ _ _. Prim.omega arith };

    ghost clears = { λ _ _. refl };

    ghost bounded = { λ _ scores _. Prim.omega (arith, greatest_of-le scores) };

    ghost room = { λ _ _ _ _. tt };
}

// The greatest of some scores is no more than their sum, and 0 where there are none. So a run over terms that combines by
// it may pass over blocks.
impl BoundedBySum for GreatestScore {
    ghost within_sum = { λ _ scores. Prim.omega (arith, greatest_of-le scores) };
}
