//! A combiner that counts.

ghost use Rattle.std.specs.Prelude.{◌≡◌, ℕ};

use crate::score_combiner::ScoreCombiner;
use crate::scorer::Scorer;
use qm_docset::Score;

/// Counts the scores of a document beside what another combiner makes of them, as far as `usize` goes.
#[derive(Clone, Copy, Debug)]
pub struct Counted<C> {
    count: usize,
    combiner: C,
}

impl<C: ScoreCombiner> Counted<C> {
    /// Counts beside a combiner, which keeps its state.
    pub fn new(combiner: C) -> Counted<C>
        ensures none { result.count ≡ 0 }
        ensures combiner { result.combiner ≡ combiner }
    {
        Counted { count: 0, combiner }
    }

    /// How many scores it took since it was cleared, or `usize::MAX` where there were more.
    pub fn count(&self) -> usize
        ensures { result ≡ self.now.count }
    {
        self.count
    }
}

impl<C: ScoreCombiner> Default for Counted<C> {
    ghost is_default = { λ c. (c.count ≡ 0) × C.is_default c.combiner };

    /// The other's default, and no score yet.
    fn default() -> Counted<C> {
        Counted::new(C::default())
    }
}

impl<C: ScoreCombiner> ScoreCombiner for Counted<C> {
    ghost use Rattle.std.proofs.Common.{ap, subst, sym, ◌∙◌};
    ghost use Rattle.qm_combine.specs.Counted.{counted-fold, counted_again, counted_cleared, counted_from_none, counted_step};

    ghost combined = { λ c. C.combined c.combiner };

    ghost step = { counted_step C.step };

    ghost cleared = { counted_cleared C.cleared };

    ghost value = { λ c. C.value c.combiner };

    ghost has_room = { λ c x. C.has_room c.combiner x };

    fn update<S: Scorer>(&mut self, scorer: &mut S) {
        self.combiner.update(scorer);
        self.count = self.count.saturating_add(1);
    }

    fn clear(&mut self) {
        self.combiner.clear();
        self.count = 0;
    }

    fn score(&self) -> Score {
        self.combiner.score()
    }

    ghost combines = { λ c scores. ap C.value (counted-fold C.step (counted_cleared C.cleared c) scores) ∙ C.combines c.combiner scores };

    ghost clear_keeps = { λ c. C.clear_keeps c.combiner };

    ghost commutes = { λ c x y. ap (counted_again c) (C.commutes c.combiner x y) };

    ghost clears = { λ c x. ap counted_from_none (C.clears c.combiner x) };

    ghost bounded = { λ c scores h. C.bounded c.combiner scores h };

    ghost room = { λ c scores x h. let same = sym (counted-fold C.step (counted_cleared C.cleared c) scores) in
        subst (λ k. C.has_room k x) same (C.room c.combiner scores x h) };
}
