//! A collector of the best pairs, as a user of the pruned run writes it.

ghost use Rattle.std.specs.Prelude.{◌≡◌, ◌<◌, IfOk, IfSome, OnOk, false, length, position};
ghost use Rattle.std.specs.Int.RustNames.{int_lt};
ghost use Rattle.qm_docset.specs.Lists.{IsPlaced};
ghost use Rattle.qm_weight.specs.Best.{best, kept_with, score_to_pass};
ghost use Rattle.qm_weight.specs.Callers.{pairs};

use qm_combine::Scorer;
use qm_docset::{DocId, DocSet, Score};
use qm_weight::for_each_pruning_scorer;
use std::alloc::{AllocError, Global};

/// The best pairs so far, the best first.
#[derive(Drop)]
pub struct BestPairs {
    pub limit: usize,
    pub kept: Vec<(DocId, Score)>,
    /// Whether memory was refused; then nothing is known of the pairs.
    pub refused: bool,
}

impl BestPairs {
    /// Answers what a further pair must score more than, now that this one is entered.
    pub fn add(&mut self, doc: DocId, score: Score) -> Score
        ensures limit { self.new.limit ≡ self.old.limit }
        ensures before { self.new.refused ≡ false → self.old.refused ≡ false }
        ensures kept { self.new.refused ≡ false → self.new.kept.items ≡ kept_with self.old.limit (doc, score) self.old.kept.items }
        ensures answer { result ≡ score_to_pass self.new.limit self.new.kept.items }
    {
        if !self.refused {
            self.refused = self.enter(doc, score).is_err();
        }
        self.score_to_pass()
    }

    // Puts a pair behind those that score as much; what is then past the limit goes.
    fn enter(&mut self, doc: DocId, score: Score) -> Result<(), AllocError>
        ensures limit { self.new.limit ≡ self.old.limit }
        ensures refused { self.new.refused ≡ self.old.refused }
        ensures kept { OnOk result (self.new.kept.items ≡ kept_with self.old.limit (doc, score) self.old.kept.items) }
    {
        let place = first_below(self.kept.as_slice(), score).unwrap_or(self.kept.len());
        self.kept.insert(place, (doc, score))?;
        self.kept.truncate(self.limit);
        Ok(())
    }

    // The score of the last pair that there is room for.
    pub fn score_to_pass(&self) -> Score
        ensures { result ≡ score_to_pass self.now.limit self.now.kept.items }
    {
        let Some(last) = self.limit.checked_sub(1) else {
            return Score::MAX;
        };
        match self.kept.get(last) {
            Some(pair) => pair.1,
            None => Score::MIN,
        }
    }
}

// Where the first pair stands that scores less.
fn first_below(pairs: &[(DocId, Score)], score: Score) -> Option<usize>
    ensures first { result ≡ position (λ pair. int_lt pair.1 score) pairs.now }
    ensures within { IfSome result (λ place. place < length pairs.now) }
{
    pairs.iter().position(|pair| pair.1 < score)
}

/// The best of the pairs that the scorer has left, at most so many, the best first. Of pairs with one
/// score the lower document is the better. Want of memory alone refuses it.
pub fn best_pairs<S: Scorer>(
    alloc: Global,
    scorer: &mut S,
    limit: usize,
) -> Result<Vec<(DocId, Score)>, AllocError>
    requires { IsPlaced S.DocSet scorer.old }
    ensures { IfOk result (λ v. v.items ≡ best limit (pairs (S.entries scorer.old))) }
{
    let mut best = BestPairs {
        limit,
        kept: Vec::new(alloc),
        refused: false,
    };
    let threshold = best.score_to_pass();
    for_each_pruning_scorer(scorer, threshold, &mut |doc, score| best.add(doc, score));
    if best.refused {
        Err(AllocError)
    } else {
        Ok(best.kept)
    }
}
