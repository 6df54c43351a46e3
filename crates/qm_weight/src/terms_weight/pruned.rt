//! The pruned run, which passes over blocks where all terms should match, or must.

ghost use Rattle.std.specs.Prelude.{◌≡◌, ◌≤◌, IfErr, IfOk, OnErr, length};
ghost use Rattle.qm_docset.specs.Entry.{greatest_score};
ghost use Rattle.qm_docset.specs.Lists.{IsPlaced};
ghost use Rattle.qm_schema.specs.declared.occur.Occur.TheVariants.{Must};
ghost use Rattle.qm_term.specs.Conjunction.{PrunesBy};
ghost use Rattle.qm_term.specs.Runs.{InRange, MayPrune};
ghost use Rattle.qm_weight.specs.Scorers.{IsRefusalOf};
ghost use Rattle.qm_weight.specs.TermUnions.{AreAll};
ghost use Rattle.qm_weight.specs.TreeRuns.{MayPruneTreeAt, PrunesTreeBy};
ghost use Rattle.qm_weight.specs.Weights.{terms_tree};

use crate::pruning::{
    JoinedTerms, check_bounds, counted_none, may_pass_over_blocks, may_run_over_all,
    prune_by_blocks, prune_over_all, prune_to_bound,
};
use crate::terms_weight::TermsWeight;
use crate::terms_weight::joined::borrowed_scorer;
use crate::terms_weight::term_cursor::Borrowing;
use crate::terms_weight::term_union::{are_all, cursors_of_terms};
use qm_docset::{DocId, DocSet, Score};
use qm_postings::SegmentReader;
use qm_schema::{Occur, QueryError};
use qm_scorer::AnyScorer;
use qm_term::{WandCount, block_wand_single_scorer};
use std::alloc::Global;

// The pruned run at a boost over what the clauses list together. It passes over blocks where that can be.
pub(crate) fn prune_terms<F: FnMut(DocId, Score) -> Score>(
    weight: &TermsWeight,
    alloc: Global,
    reader: &SegmentReader,
    boost: u64,
    threshold: Score,
    callback: &mut F,
) -> Result<WandCount, QueryError>
    requires boost { boost ≤ greatest_score }
    requires allowed { MayPruneTreeAt F.step F.pre (terms_tree weight.now) boost reader.now.segment threshold callback.old }
    ensures calls { IfOk result (λ count. PrunesTreeBy F.step (terms_tree weight.now) boost reader.now.segment threshold callback.old count callback.new) }
    ensures unchanged { OnErr result (callback.new ≡ callback.old) }
    ensures refused { IfErr result (IsRefusalOf (terms_tree weight.now) boost) }
{
    let clauses = weight.clauses.len();
    if may_run_over_all(weight.rule, clauses) && are_all(weight, Occur::Must) {
        return prune_must(weight, alloc, reader, boost, threshold, callback);
    }
    if may_pass_over_blocks(weight.rule, clauses) && are_all(weight, Occur::Should) {
        // no more documents than a cursor may stand on
        let _documents = reader.max_doc();
        let terms: Vec<Borrowing<'_>> = cursors_of_terms(weight, alloc, reader, boost)?;
        let combiner = weight.rule.score_combiner;
        let joined = JoinedTerms { terms, combiner };
        return prune_by_blocks(weight, alloc, reader, joined, boost, threshold, callback);
    }
    let scorer = borrowed_scorer(weight, alloc, reader, boost)?;
    Ok(prune_borrowed(scorer, threshold, callback))
}

// The run over the documents that all terms have, where they must match. Where a term is in no document there is none,
// and that is refused as a run over the others would be.
fn prune_must<F: FnMut(DocId, Score) -> Score>(
    weight: &TermsWeight,
    alloc: Global,
    reader: &SegmentReader,
    boost: u64,
    threshold: Score,
    callback: &mut F,
) -> Result<WandCount, QueryError>
    requires boost { boost ≤ greatest_score }
    requires must { AreAll Must weight.now.clauses.items }
    requires least { weight.now.rule.minimum_number_should_match ≡ 0 }
    requires some { 1 ≤ length weight.now.clauses.items }
    requires allowed { MayPruneTreeAt F.step F.pre (terms_tree weight.now) boost reader.now.segment threshold callback.old }
    ensures calls { IfOk result (λ count. PrunesTreeBy F.step (terms_tree weight.now) boost reader.now.segment threshold callback.old count callback.new) }
    ensures unchanged { OnErr result (callback.new ≡ callback.old) }
    ensures refused { IfErr result (IsRefusalOf (terms_tree weight.now) boost) }
{
    // no more documents than a cursor may stand on
    let _documents = reader.max_doc();
    let terms: Vec<Borrowing<'_>> = cursors_of_terms(weight, alloc, reader, boost)?;
    if terms.len() < weight.clauses.len() {
        check_bounds(&terms)?;
        return Ok(counted_none());
    }
    prune_over_all(weight, reader, terms, boost, threshold, callback)
}

// The run over what the scorer has left, as `prune_scorer` has it: the terms in this one are its own, with no box.
fn prune_borrowed<'a, F: FnMut(DocId, Score) -> Score>(
    scorer: AnyScorer<'a, Borrowing<'a>>,
    threshold: Score,
    callback: &mut F,
) -> WandCount
    requires placed { IsPlaced ⟦<AnyScorer<'a, Borrowing<'a>> as DocSet>⟧ scorer }
    requires allowed { MayPrune (InRange F.step) F.pre threshold callback.old (⟦<AnyScorer<'a, Borrowing<'a>> as DocSet>⟧.entries scorer) }
    ensures calls { PrunesBy F.step (⟦<AnyScorer<'a, Borrowing<'a>> as DocSet>⟧.entries scorer.entry) threshold callback.old result callback.new }
{
    match scorer {
        AnyScorer::Own(term) => block_wand_single_scorer(term, threshold, callback),
        other => prune_to_bound(other, threshold, callback),
    }
}
