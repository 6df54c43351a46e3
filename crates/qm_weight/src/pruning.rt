//! Pruned runs over a scorer of their own, which pass over what they can.
//!
//! Why it is so:
//! - A run goes down through boosts and lone clauses. Past 300 terms it is the plain loop, which is the quicker one
//!   at worst.
//! - The plain loop ends where no score can pass the threshold; a constant gains no more by another way.

ghost use Rattle.std.specs.Prelude.{◌≡◌, ◌≤◌, All, IfErr, IfOk, IsOkUnless, OnErr, length, sum, true};
ghost use Rattle.qm_combine.specs.Union.{IsRefusedByBounds};
ghost use Rattle.qm_docset.specs.Lists.{IsPlaced};
ghost use Rattle.qm_scorer.specs.AnyCombiner.{any_combined};
ghost use Rattle.qm_term.specs.Conjunction.{PrunesBy};
ghost use Rattle.qm_term.specs.Runs.{InRange, MayPrune};
ghost use Rattle.qm_weight.specs.ClauseScorers.{KeepsOneScore};
ghost use Rattle.qm_weight.specs.Scorers.{IsRefusalOf};
ghost use Rattle.qm_weight.specs.TermUnions.{ListTogether};
ghost use Rattle.qm_weight.specs.TreeRuns.{MayPruneTreeAt, PrunesTreeBy};

use crate::boolean_weight::{BooleanRule, keeps_one_score};
use crate::shared_runs::StandsFor;
use crate::weight::turn;
use qm_combine::{Scorer, sum_of_bounds};
use qm_docset::{DocId, DocSet, Score, TERMINATED};
use qm_postings::SegmentReader;
use qm_schema::QueryError;
use qm_scorer::{AnyCombiner, AnyScorer};
use qm_term::{Norms, TermScorer, WandCount, block_wand, block_wand_all, block_wand_single_scorer};
use std::alloc::Global;

// The run over what the scorer has left: where it is that of a term, by the bounds of its blocks, and else up
// to its own bound.
pub(crate) fn prune_scorer<'a, S: Scorer, F: FnMut(DocId, Score) -> Score>(
    scorer: AnyScorer<'a, S>,
    threshold: Score,
    callback: &mut F,
) -> WandCount
    requires placed { IsPlaced ⟦<AnyScorer<'a, S> as DocSet>⟧ scorer }
    requires allowed { MayPrune (InRange F.step) F.pre threshold callback.old (⟦<AnyScorer<'a, S> as DocSet>⟧.entries scorer) }
    ensures calls { PrunesBy F.step (⟦<AnyScorer<'a, S> as DocSet>⟧.entries scorer.entry) threshold callback.old result callback.new }
{
    match scorer {
        AnyScorer::Term(term) => {
            block_wand_single_scorer(Box::into_inner(term), threshold, callback)
        }
        other => prune_to_bound(other, threshold, callback),
    }
}

// The plain loop over what the scorer has left, which ends where no document can score above the threshold: so
// one over documents with one score, as those of a constant, reads no more of them once it is reached.
pub(crate) fn prune_to_bound<S: Scorer, F: FnMut(DocId, Score) -> Score>(
    mut scorer: S,
    mut threshold: Score,
    callback: &mut F,
) -> WandCount
    requires placed { IsPlaced S.DocSet scorer }
    requires allowed { MayPrune (InRange F.step) F.pre threshold callback.old (S.entries scorer) }
    ensures calls { PrunesBy F.step (S.entries scorer) threshold callback.old result callback.new }
{
    let most = scorer.max_score();
    let mut doc = scorer.doc();
    let mut scored: u128 = 0;
    // the run over what the scorer has left, from this threshold on, is what is still to come
    while doc != TERMINATED && threshold < most {
        threshold = turn(threshold, doc, scorer.score(), callback);
        doc = scorer.advance();
        scored += 1;
    }
    WandCount {
        turns: scored,
        ticks: scored,
    }
}

// What is counted where there is nothing to run over.
pub(crate) fn counted_none() -> WandCount
    ensures { result ≡ record { turns = 0; ticks = 0 } }
{
    WandCount { turns: 0, ticks: 0 }
}

/// The most clauses of one run that passes over blocks. Up to them it takes some two thirds of the time that the plain
/// loop over the union takes, or less. But to pass a block it looks at all its terms. Where the bounds of a third of
/// them only just reach the threshold, it takes twice that time for 300 terms, and three to five times for thousands.
/// A run over the documents that all terms have looks at all of them too; that one was not measured.
const MOST_TERMS_BY_BLOCKS: usize = 300;

// Whether a run over so many terms that should match may pass over blocks: scoring is on, one of them is enough, what the
// combiner makes of scores is bounded by their sum, and they are no more than such a run is fast for.
pub(crate) fn may_pass_over_blocks(rule: BooleanRule, terms: usize) -> bool
    ensures least { result ≡ true → rule.minimum_number_should_match ≤ 1 }
    ensures kept { result ≡ true → KeepsOneScore rule.score_combiner }
{
    let is_enough = rule.scoring_enabled && rule.minimum_number_should_match <= 1;
    is_enough && terms <= MOST_TERMS_BY_BLOCKS && keeps_one_score(rule.score_combiner)
}

// Whether a run over so many terms that must match may pass over blocks: scoring is on, no clause is needed of those that
// should match, and they are two or more, and no more than such a run is fast for.
pub(crate) fn may_run_over_all(rule: BooleanRule, terms: usize) -> bool
    ensures least { result ≡ true → rule.minimum_number_should_match ≡ 0 }
    ensures several { result ≡ true → 2 ≤ terms }
{
    let is_free = rule.scoring_enabled && rule.minimum_number_should_match == 0;
    is_free && terms >= 2 && terms <= MOST_TERMS_BY_BLOCKS
}

// Scorers of terms, and how the scores that they have in a document are joined.
#[derive(Drop)]
pub(crate) struct JoinedTerms<'a, N: Norms> {
    pub(crate) terms: Vec<TermScorer<'a, N>>,
    pub(crate) combiner: AnyCombiner,
}

// The run over the scorers of terms, which passes over blocks. What they list together is the list of the weight's
// tree at the boost.
pub(crate) fn prune_by_blocks<'a, W: StandsFor, F: FnMut(DocId, Score) -> Score, N: Norms>(
    weight: &W,
    alloc: Global,
    reader: &SegmentReader,
    joined: JoinedTerms<'a, N>,
    boost: u64,
    threshold: Score,
    callback: &mut F,
) -> Result<WandCount, QueryError>
    requires kept { KeepsOneScore joined.combiner }
    requires terms { ListTogether ⟦<TermScorer<'a, N> as DocSet>⟧ 1 (any_combined joined.combiner) (W.tree weight.now) boost reader.now.segment joined.terms.items }
    requires allowed { MayPruneTreeAt F.step F.pre (W.tree weight.now) boost reader.now.segment threshold callback.old }
    ensures calls { IfOk result (λ count.
        PrunesTreeBy F.step (W.tree weight.now) boost reader.now.segment threshold callback.old count callback.new) }
    ensures unchanged { OnErr result (callback.new ≡ callback.old) }
    ensures refused { IfErr result (IsRefusalOf (W.tree weight.now) boost) }
{
    let JoinedTerms { terms, combiner } = joined;
    match combiner {
        AnyCombiner::Sum(sum) => block_wand(alloc, terms, sum, threshold, callback),
        AnyCombiner::DisjunctionMax(greatest) => {
            block_wand(alloc, terms, greatest, threshold, callback)
        }
        AnyCombiner::DoNothing(_) => unreachable!(),
    }
}

// The run over the documents that all of several terms have, which passes over blocks. These are the list of the weight's
// tree at the boost, each with the sum of its scores. Refused where the scorers' bounds together are no score.
pub(crate) fn prune_over_all<'a, W: StandsFor, F: FnMut(DocId, Score) -> Score, N: Norms>(
    weight: &W,
    reader: &SegmentReader,
    terms: Vec<TermScorer<'a, N>>,
    boost: u64,
    threshold: Score,
    callback: &mut F,
) -> Result<WandCount, QueryError>
    requires some { 1 ≤ length terms.items }
    requires terms { ListTogether ⟦<TermScorer<'a, N> as DocSet>⟧ (length terms.items) sum (W.tree weight.now) boost reader.now.segment terms.items }
    requires allowed { MayPruneTreeAt F.step F.pre (W.tree weight.now) boost reader.now.segment threshold callback.old }
    ensures calls { IfOk result (λ count.
        PrunesTreeBy F.step (W.tree weight.now) boost reader.now.segment threshold callback.old count callback.new) }
    ensures unchanged { OnErr result (callback.new ≡ callback.old) }
    ensures refused { IfErr result (IsRefusalOf (W.tree weight.now) boost) }
{
    check_bounds(&terms)?;
    Ok(block_wand_all(terms, threshold, callback))
}

// Refuses scorers whose bounds together are no score.
pub(crate) fn check_bounds<S: Scorer>(scorers: &[S]) -> Result<(), QueryError>
    requires valid { All S.valid scorers.now }
    ensures refused { IsRefusedByBounds S.DocSet scorers.now result }
    ensures only { IsOkUnless result QueryError.ScoreBound }
{
    match sum_of_bounds(scorers) {
        Some(_) => Ok(()),
        None => Err(QueryError::ScoreBound),
    }
}
