//! One scorer of the clauses, as a Boolean puts them together.
//!
//! Scorers that outlive the weight and those that borrow its norms come from two loops: a trait over the lifetimes of both,
//! by which one loop would do, is not one for which calls are proved.

ghost use Rattle.std.specs.Prelude.{◌≤◌, IfErr, IfOk, IsOkUnless, IsTrue, OnOk};
ghost use Rattle.qm_docset.specs.Entry.{greatest_score};
ghost use Rattle.qm_weight.specs.ClauseScorers.{AddsScorerOf};
ghost use Rattle.qm_weight.specs.LeafScorers.{IsLeafOf};
ghost use Rattle.qm_weight.specs.Scorers.{IsRefusalOf, IsScorerOf};
ghost use Rattle.qm_weight.specs.TermUnions.{occur_in, tree_in};
ghost use Rattle.qm_weight.specs.Weights.{terms_tree};

use crate::boolean_weight::{ClauseScorers, add_scorer, join_clauses};
use crate::leaf_scorers::{IntoTree, scorer_of_leaf};
use crate::terms_weight::TermsWeight;
use crate::terms_weight::clause_in::ClauseIn;
use crate::terms_weight::term_cursor::{Borrowing, TermCursor, Unscored, scorer_of_term};
use qm_combine::Scorer;
use qm_docset::DocSet;
use qm_postings::SegmentReader;
use qm_schema::QueryError;
use qm_scorer::AnyScorer;
use std::alloc::Global;

// Over the terms' own scorers, which outlive the weight.
pub(super) fn boxed_scorer<'a, S: Scorer>(
    weight: &TermsWeight,
    alloc: Global,
    reader: &'a SegmentReader,
    boost: u64,
) -> Result<AnyScorer<'a, S>, QueryError>
    requires boost { boost ≤ greatest_score }
    ensures scorer { IfOk result (IsScorerOf ⟦<AnyScorer<'a, S> as DocSet>⟧ (terms_tree weight.now) boost reader.now.segment) }
    ensures refused { IfErr result (IsRefusalOf (terms_tree weight.now) boost) }
{
    let mut scorers = ClauseScorers::none(alloc);
    // the scorers so far are those of the clauses so far
    for clause in &weight.clauses {
        let term = ClauseIn { weight, clause };
        let leaf = scorer_of_term(term, reader, boost)?;
        add_leaf(&mut scorers, term, alloc, reader, leaf, boost)?;
    }
    join_clauses(weight.rule, alloc, reader, scorers)
}

// Over scorers that borrow the weight's norms.
pub(super) fn borrowed_scorer<'a>(
    weight: &'a TermsWeight,
    alloc: Global,
    reader: &'a SegmentReader,
    boost: u64,
) -> Result<AnyScorer<'a, Borrowing<'a>>, QueryError>
    requires boost { boost ≤ greatest_score }
    ensures scorer { IfOk result (IsScorerOf ⟦<AnyScorer<'a, Borrowing<'a>> as DocSet>⟧ (terms_tree weight.now) boost reader.now.segment) }
    ensures refused { IfErr result (IsRefusalOf (terms_tree weight.now) boost) }
{
    own_scorer(weight, alloc, reader, boost)
}

// Over postings alone, where scoring is off.
pub(super) fn unscored_scorer<'a>(
    weight: &'a TermsWeight,
    alloc: Global,
    reader: &'a SegmentReader,
    boost: u64,
) -> Result<AnyScorer<'a, Unscored<'a>>, QueryError>
    requires boost { boost ≤ greatest_score }
    requires off { ¬ IsTrue weight.now.rule.scoring_enabled }
    ensures scorer { IfOk result (IsScorerOf ⟦<AnyScorer<'a, Unscored<'a>> as DocSet>⟧ (terms_tree weight.now) boost reader.now.segment) }
    ensures refused { IfErr result (IsRefusalOf (terms_tree weight.now) boost) }
{
    own_scorer(weight, alloc, reader, boost)
}

// The same over leaves of a kind, which are a tree's own.
fn own_scorer<'a, L: TermCursor<'a> + IntoTree<AnyScorer<'a, L>>>(
    weight: &'a TermsWeight,
    alloc: Global,
    reader: &'a SegmentReader,
    boost: u64,
) -> Result<AnyScorer<'a, L>, QueryError>
    requires boost { boost ≤ greatest_score }
    requires scores { IsTrue weight.now.rule.scoring_enabled → L.gives_scores }
    ensures scorer { IfOk result (IsScorerOf ⟦<AnyScorer<'a, L> as DocSet>⟧ (terms_tree weight.now) boost reader.now.segment) }
    ensures refused { IfErr result (IsRefusalOf (terms_tree weight.now) boost) }
{
    let mut scorers = ClauseScorers::none(alloc);
    // the scorers so far are those of the clauses so far
    for clause in &weight.clauses {
        let term = ClauseIn { weight, clause };
        let leaf = L::of_term(term, reader, boost)?;
        add_leaf(&mut scorers, term, alloc, reader, leaf, boost)?;
    }
    join_clauses(weight.rule, alloc, reader, scorers)
}

// Takes in the scorer of one more clause, and the empty one where its term is in no document.
fn add_leaf<'a, L: IntoTree<AnyScorer<'a, S>>, S: Scorer>(
    scorers: &mut ClauseScorers<'a, S>,
    term: ClauseIn<'_>,
    alloc: Global,
    reader: &SegmentReader,
    leaf: Option<L>,
    boost: u64,
) -> Result<(), QueryError>
    requires leaf { IsLeafOf L.DocSet (tree_in term) boost reader.now.segment leaf }
    ensures added { OnOk result
        (AddsScorerOf ⟦<AnyScorer<'a, S> as DocSet>⟧ (occur_in term.entry) (tree_in term.entry) boost reader.now.segment scorers.old scorers.new) }
    ensures refused { IsOkUnless result QueryError.Memory }
{
    let scorer = scorer_of_leaf(&term, alloc, reader, leaf, boost)?;
    add_scorer(scorers, term.clause.occur, scorer)
}
