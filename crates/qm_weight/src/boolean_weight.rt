//! A weight of clauses that must, should or must not match.
//!
//! Its rule, joins and steps are those of a weight of terms (terms_weight.rt). The loops over clauses stand in both: those
//! here go down a tree, as one cycle of calls, which may not lead through a method of whatever a clause is.

ghost use Rattle.std.specs.Prelude.{◌≡◌, ◌<◌, ◌≤◌, IfErr, IfOk, OnErr, length, true};
ghost use Rattle.qm_docset.specs.Entry.{greatest_score};
ghost use Rattle.qm_term.specs.Explained.{value_of};
ghost use Rattle.qm_weight.specs.ClauseScorers.{IsDecidedBy, decides_alone};
ghost use Rattle.qm_weight.specs.Counts.{alive_count};
ghost use Rattle.qm_weight.specs.Explanations.{IsExplained, IsExplainRefusal};
ghost use Rattle.qm_weight.specs.Scorers.{IsRefusalOf, IsScorerOf};
ghost use Rattle.qm_weight.specs.Tree.{boolean};
ghost use Rattle.qm_weight.specs.TreeRuns.{MayPruneTreeAt, PrunesTreeBy};
ghost use Rattle.qm_weight.specs.Weights.{boolean_tree, clauses_from, combiner_of};

use crate::any_weight::{AnyWeight, count_any, prune_any};
use crate::bounds::bound_of_boolean;
use crate::counts::count_alive;
use crate::shared_runs::{StandsFor, check_document, run_node, run_node_slices, score_in_node};
use crate::weight::Weight;
use clauses::build_clauses;
use explained::explain_clauses;
use pruned::prune_clauses;
use qm_combine::{EmptyScorer, Scorer};
use qm_docset::{DocId, DocSet, Score, TERMINATED};
use qm_postings::SegmentReader;
use qm_schema::{Occur, QueryError};
use qm_scorer::{AnyCombiner, AnyScorer};
use qm_term::{Explanation, WandCount};
use std::alloc::Global;

mod clauses;
mod explained;
mod joined;
mod pruned;
mod rule;

pub(crate) use clauses::{ClauseScorers, add_scorer};
pub(crate) use joined::{join_clauses, keeps_one_score};
pub(crate) use rule::BooleanRule;

/// Matches the documents that every Must clause matches, no MustNot clause, and at least so many of
/// the Should clauses, each counted once; and some Must or Should clause matches it.
///
/// Scores the sum of the Must clauses, and what the combiner makes of the Should clauses that match. With
/// scoring off nothing is said of the scores.
#[cycle(any_weight)]
#[derive(Drop)]
pub struct BooleanWeight {
    pub(crate) weights: Vec<(Occur, Box<AnyWeight>)>,
    pub(crate) rule: BooleanRule,
}

impl BooleanWeight {
    /// The weight of clauses of which at least one Should clause has to match. Takes no memory.
    pub fn new(
        weights: Vec<(Occur, Box<AnyWeight>)>,
        scoring_enabled: bool,
        score_combiner: AnyCombiner,
    ) -> BooleanWeight
        ensures { boolean_tree result ≡ boolean scoring_enabled 1 (combiner_of score_combiner) (clauses_from weights.items) }
    {
        BooleanWeight::with_minimum_number_should_match(weights, 1, scoring_enabled, score_combiner)
    }

    /// The weight of clauses of which at least this many Should clauses have to match. Takes no memory.
    pub fn with_minimum_number_should_match(
        weights: Vec<(Occur, Box<AnyWeight>)>,
        minimum_number_should_match: usize,
        scoring_enabled: bool,
        score_combiner: AnyCombiner,
    ) -> BooleanWeight
        ensures { boolean_tree result ≡ boolean scoring_enabled minimum_number_should_match (combiner_of score_combiner) (clauses_from weights.items) }
    {
        BooleanWeight {
            weights,
            rule: BooleanRule {
                minimum_number_should_match,
                scoring_enabled,
                score_combiner,
            },
        }
    }
}

impl StandsFor for BooleanWeight {
    ghost tree = { boolean_tree };
}

impl Weight for BooleanWeight {
    ghost tree = { boolean_tree };

    fn scorer<'a, S: Scorer>(
        &self,
        alloc: Global,
        reader: &'a SegmentReader,
        boost: Score,
    ) -> Result<AnyScorer<'a, S>, QueryError> {
        build_boolean(self, alloc, reader, boost as u64)
    }

    fn fits(&self, boost: Score) -> bool {
        bound_of_boolean(self, boost as u64).is_some()
    }

    fn count(&self, alloc: Global, reader: &SegmentReader) -> Result<u32, QueryError> {
        count_boolean(self, alloc, reader, 1)
    }

    fn explain(
        &self,
        alloc: Global,
        reader: &SegmentReader,
        doc: DocId,
    ) -> Result<Explanation, QueryError> {
        check_document(self, reader, doc)?;
        explain_boolean(self, alloc, reader, doc, 1)
    }

    fn for_each<F: FnMut(DocId, Score)>(
        &self,
        alloc: Global,
        reader: &SegmentReader,
        callback: &mut F,
    ) -> Result<(), QueryError> {
        let scorer: AnyScorer<EmptyScorer> = build_boolean(self, alloc, reader, 1)?;
        run_node(self, reader, scorer, callback);
        Ok(())
    }

    fn for_each_no_score<F: FnMut(&[DocId])>(
        &self,
        alloc: Global,
        reader: &SegmentReader,
        callback: &mut F,
    ) -> Result<(), QueryError> {
        let scorer: AnyScorer<EmptyScorer> = build_boolean(self, alloc, reader, 1)?;
        run_node_slices(self, reader, scorer, callback);
        Ok(())
    }

    /// Passes over blocks whose documents cannot score above the threshold, where scoring is on, and the
    /// clauses are 2 to 300 terms that must match, or one of which is enough, by the sum or the greatest
    /// score, or one scorer is left and is that of a term. For more of them the plain loop is faster.
    /// Where one clause alone decides what matches and scores, the run is that clause's. It takes memory
    /// before the first call alone.
    fn for_each_pruning_counted<F: FnMut(DocId, Score) -> Score>(
        &self,
        alloc: Global,
        threshold: Score,
        reader: &SegmentReader,
        callback: &mut F,
    ) -> Result<WandCount, QueryError> {
        prune_boolean(self, alloc, reader, 1, threshold, callback)
    }
}

// The scorers of the clauses, and then the one that they make.
#[cycle(build)]
pub(crate) fn build_boolean<'a, S: Scorer>(
    weight: &BooleanWeight,
    alloc: Global,
    reader: &'a SegmentReader,
    boost: u64,
) -> Result<AnyScorer<'a, S>, QueryError>
    requires boost { boost ≤ greatest_score }
    ensures scorer { IfOk result (IsScorerOf ⟦<AnyScorer<'a, S> as DocSet>⟧ (boolean_tree weight.now) boost reader.now.segment) }
    ensures refused { IfErr result (IsRefusalOf (boolean_tree weight.now) boost) }
{
    let scorers = build_clauses(&weight.weights, alloc, reader, boost)?;
    join_clauses(weight.rule, alloc, reader, scorers)
}

// What one clause alone matches, which decides, is counted as the clause counts it, and else what the scorer lists.
#[cycle(count)]
pub(crate) fn count_boolean(
    weight: &BooleanWeight,
    alloc: Global,
    reader: &SegmentReader,
    boost: u64,
) -> Result<u32, QueryError>
    requires boost { boost ≤ greatest_score }
    ensures count { IfOk result (λ n. n ≡ alive_count (boolean_tree weight.now) reader.now.segment) }
    ensures refused { IfErr result (IsRefusalOf (boolean_tree weight.now) boost) }
{
    if let [(occur, inside)] = weight.weights.as_slice()
        && decides(*occur, weight.rule.minimum_number_should_match)
    {
        return count_any(inside, alloc, reader, boost);
    }
    let mut scorer: AnyScorer<EmptyScorer> = build_boolean(weight, alloc, reader, boost)?;
    Ok(count_alive(&mut scorer, reader))
}

// Whether a clause that occurs so decides alone what a Boolean with this minimum matches.
fn decides(occur: Occur, minimum: usize) -> bool
    ensures { result ≡ decides_alone minimum occur }
{
    match occur {
        Occur::Must => minimum == 0,
        Occur::Should => minimum <= 1,
        Occur::MustNot => false,
    }
}

// The score of the Boolean, and as details the clauses that match and add to it.
#[cycle(explain)]
pub(crate) fn explain_boolean(
    weight: &BooleanWeight,
    alloc: Global,
    reader: &SegmentReader,
    doc: DocId,
    boost: u64,
) -> Result<Explanation, QueryError>
    requires boost { boost ≤ greatest_score }
    requires inside { doc < length reader.now.segment.documents }
    requires below { doc < TERMINATED }
    ensures explained { IfOk result (λ e. IsExplained (boolean_tree weight.now) boost reader.now.segment doc (value_of e)) }
    ensures refused { IfErr result (IsExplainRefusal (boolean_tree weight.now) boost reader.now.segment doc) }
{
    let scorer: AnyScorer<EmptyScorer> = build_boolean(weight, alloc, reader, boost)?;
    let score = score_in_node(weight, reader, scorer, doc, boost)?;
    explain_clauses(&weight.weights, alloc, reader, doc, boost, score)
}

// The pruned run of one clause that decides alone, and else that of what the clauses list together.
#[cycle(prune)]
pub(crate) fn prune_boolean<F: FnMut(DocId, Score) -> Score>(
    weight: &BooleanWeight,
    alloc: Global,
    reader: &SegmentReader,
    boost: u64,
    threshold: Score,
    callback: &mut F,
) -> Result<WandCount, QueryError>
    requires boost { boost ≤ greatest_score }
    requires allowed { MayPruneTreeAt F.step F.pre (boolean_tree weight.now) boost reader.now.segment threshold callback.old }
    ensures calls { IfOk result (λ count. PrunesTreeBy F.step (boolean_tree weight.now) boost reader.now.segment threshold callback.old count callback.new) }
    ensures unchanged { OnErr result (callback.new ≡ callback.old) }
    ensures refused { IfErr result (IsRefusalOf (boolean_tree weight.now) boost) }
{
    if let [(occur, inside)] = weight.weights.as_slice()
        && is_decided_by(weight.rule, *occur)
    {
        return prune_any(inside, alloc, reader, boost, threshold, callback);
    }
    prune_clauses(weight, alloc, reader, boost, threshold, callback)
}

// Whether a clause that occurs so decides alone what the Boolean matches and scores.
fn is_decided_by(rule: BooleanRule, occur: Occur) -> bool
    ensures { result ≡ true → IsDecidedBy rule occur }
{
    let keeps_score = match occur {
        Occur::Should => keeps_one_score(rule.score_combiner),
        Occur::Must | Occur::MustNot => true,
    };
    keeps_score && decides(occur, rule.minimum_number_should_match)
}
