//! The runs over each document.

ghost use Rattle.std.specs.Fn.{CalledAt, TakesAt};
ghost use Rattle.std.specs.Prelude.{◌≡◌, IfErr, IsTrue, OnErr, OnOk};
ghost use Rattle.qm_schema.specs.declared.occur.Occur.TheVariants.{Should};
ghost use Rattle.qm_weight.specs.Scorers.{IsRefusalOf};
ghost use Rattle.qm_weight.specs.TermUnions.{AreAll, CombinesAs};
ghost use Rattle.qm_weight.specs.TreeRuns.{CallsSlices, CallsTree, MayCallSlices, MayCallTree};
ghost use Rattle.qm_weight.specs.Weights.{terms_tree};

use crate::shared_runs::{run_node, run_node_slices};
use crate::terms_weight::TermsWeight;
use crate::terms_weight::joined::borrowed_scorer;
use crate::terms_weight::term_cursor::Borrowing;
use crate::terms_weight::term_union::{
    are_all, disjunction_of_terms, is_one_enough, union_of_terms, unscored_disjunction,
    unscored_union,
};
use qm_combine::{BufferedDisjunction, BufferedUnionScorer, ScoreCombiner};
use qm_docset::{DocId, Score};
use qm_postings::SegmentReader;
use qm_schema::{Occur, QueryError};
use qm_scorer::AnyCombiner;
use std::alloc::Global;

// A call for each document that matches, with its score, over cursors that borrow the weight's norms.
pub(super) fn run_terms<F: FnMut(DocId, Score)>(
    weight: &TermsWeight,
    alloc: Global,
    reader: &SegmentReader,
    callback: &mut F,
) -> Result<(), QueryError>
    requires allowed { MayCallTree F.step F.pre (terms_tree weight.now) reader.now.segment callback.old }
    ensures calls { OnOk result (CallsTree F.step (terms_tree weight.now) reader.now.segment callback.old callback.new) }
    ensures unchanged { OnErr result (callback.new ≡ callback.old) }
    ensures refused { IfErr result (IsRefusalOf (terms_tree weight.now) 1) }
{
    if are_all(weight, Occur::Should) {
        return run_should(weight, alloc, reader, callback);
    }
    let scorer = borrowed_scorer(weight, alloc, reader, 1)?;
    run_node(weight, reader, scorer, callback);
    Ok(())
}

// The run over terms that should match, by the combiner of the weight.
fn run_should<F: FnMut(DocId, Score)>(
    weight: &TermsWeight,
    alloc: Global,
    reader: &SegmentReader,
    callback: &mut F,
) -> Result<(), QueryError>
    requires should { AreAll Should weight.now.clauses.items }
    requires allowed { MayCallTree F.step F.pre (terms_tree weight.now) reader.now.segment callback.old }
    ensures calls { OnOk result (CallsTree F.step (terms_tree weight.now) reader.now.segment callback.old callback.new) }
    ensures unchanged { OnErr result (callback.new ≡ callback.old) }
    ensures refused { IfErr result (IsRefusalOf (terms_tree weight.now) 1) }
{
    match weight.rule.score_combiner {
        AnyCombiner::DoNothing(combiner) => run_by(weight, alloc, reader, combiner, callback),
        AnyCombiner::Sum(combiner) => run_by(weight, alloc, reader, combiner, callback),
        AnyCombiner::DisjunctionMax(combiner) => run_by(weight, alloc, reader, combiner, callback),
    }
}

fn run_by<C: ScoreCombiner, F: FnMut(DocId, Score)>(
    weight: &TermsWeight,
    alloc: Global,
    reader: &SegmentReader,
    combiner: C,
    callback: &mut F,
) -> Result<(), QueryError>
    requires should { AreAll Should weight.now.clauses.items }
    requires combiner { CombinesAs weight.now.rule.score_combiner (C.combined combiner) }
    requires allowed { MayCallTree F.step F.pre (terms_tree weight.now) reader.now.segment callback.old }
    ensures calls { OnOk result (CallsTree F.step (terms_tree weight.now) reader.now.segment callback.old callback.new) }
    ensures unchanged { OnErr result (callback.new ≡ callback.old) }
    ensures refused { IfErr result (IsRefusalOf (terms_tree weight.now) 1) }
{
    if is_one_enough(weight) {
        let union: BufferedUnionScorer<Borrowing<'_>, C> = union_of_terms(
            weight, alloc, reader, 1, combiner,
        )?;
        run_node(weight, reader, union, callback);
    } else {
        let disjunction: BufferedDisjunction<Borrowing<'_>, C> = disjunction_of_terms(
            weight, alloc, reader, 1, combiner,
        )?;
        run_node(weight, reader, disjunction, callback);
    }
    Ok(())
}

// The calls with the slices of the documents of terms that should match, over documents alone, where scoring is off.
pub(super) fn run_should_slices<F: FnMut(&[DocId])>(
    weight: &TermsWeight,
    alloc: Global,
    reader: &SegmentReader,
    callback: &mut F,
) -> Result<(), QueryError>
    requires should { AreAll Should weight.now.clauses.items }
    requires off { ¬ IsTrue weight.now.rule.scoring_enabled }
    requires allowed { MayCallSlices (λ f xs g. CalledAt F.FnMut f xs tt g) (TakesAt F.FnMut) (terms_tree weight.now) reader.now.segment callback.old }
    ensures calls { OnOk result
        (CallsSlices (λ f xs g. CalledAt F.FnMut f xs tt g) (terms_tree weight.now) reader.now.segment callback.old callback.new) }
    ensures unchanged { OnErr result (callback.new ≡ callback.old) }
    ensures refused { IfErr result (IsRefusalOf (terms_tree weight.now) 1) }
{
    if is_one_enough(weight) {
        let union = unscored_union(weight, alloc, reader, 1)?;
        run_node_slices(weight, reader, union, callback);
    } else {
        let disjunction = unscored_disjunction(weight, alloc, reader, 1)?;
        run_node_slices(weight, reader, disjunction, callback);
    }
    Ok(())
}
