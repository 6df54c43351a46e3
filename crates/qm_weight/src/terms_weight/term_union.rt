//! Terms that should match: where one of them is enough a union of the terms' own cursors, and else what enough of these
//! have, with no tree of scorers between them. Tantivy has the union so too.
//!
//! A run goes through all that the cursors have, so nothing is lost by a window.

ghost use Rattle.std.specs.Prelude.{◌≡◌, ◌≤◌, ◌↔◌, IfErr, IfOk, IsTrue, true};
ghost use Rattle.qm_docset.specs.Entry.{greatest_score};
ghost use Rattle.qm_schema.specs.declared.occur.Occur.TheVariants.{Should};
ghost use Rattle.qm_weight.specs.ClauseScorers.{IsClauseRefusal};
ghost use Rattle.qm_weight.specs.Scorers.{IsRefusalOf, IsScorerOf};
ghost use Rattle.qm_weight.specs.TermUnions.{AreAll, AreTreeCursors, CombinesAs, IsTermUnion, clauses_in, trees_in};
ghost use Rattle.qm_weight.specs.Weights.{terms_tree};

use crate::terms_weight::clause_in::ClauseIn;
use crate::terms_weight::term_cursor::{TermCursor, Unscored};
use crate::terms_weight::{TermClause, TermsWeight};
use qm_combine::{BufferedDisjunction, BufferedUnionScorer, DoNothingCombiner, ScoreCombiner};
use qm_docset::DocSet;
use qm_postings::SegmentReader;
use qm_schema::{Occur, QueryError};
use std::alloc::Global;

// Whether one of the terms is enough, where they should match.
pub(super) fn is_one_enough(weight: &TermsWeight) -> bool
    ensures { (result ≡ true) ↔ (weight.now.rule.minimum_number_should_match ≤ 1) }
{
    weight.rule.minimum_number_should_match <= 1
}

// Whether all terms occur so.
pub(super) fn are_all(weight: &TermsWeight, occur: Occur) -> bool
    ensures { result ≡ true → AreAll occur weight.now.clauses.items }
{
    each_occurs(&weight.clauses, occur)
}

fn each_occurs(clauses: &[TermClause], occur: Occur) -> bool
    ensures { result ≡ true → AreAll occur clauses.now }
{
    // all clauses before this one occur so
    for clause in clauses {
        if clause.occur != occur {
            return false;
        }
    }
    true
}

// The union over documents alone, where scoring is off.
pub(super) fn unscored_union<'a>(
    weight: &'a TermsWeight,
    alloc: Global,
    reader: &'a SegmentReader,
    boost: u64,
) -> Result<BufferedUnionScorer<Unscored<'a>, DoNothingCombiner>, QueryError>
    requires boost { boost ≤ greatest_score }
    requires terms { IsTermUnion weight.now }
    requires off { ¬ IsTrue weight.now.rule.scoring_enabled }
    ensures scorer { IfOk result
        (IsScorerOf ⟦<BufferedUnionScorer<Unscored<'a>, DoNothingCombiner> as DocSet>⟧ (terms_tree weight.now) boost reader.now.segment) }
    ensures refused { IfErr result (IsRefusalOf (terms_tree weight.now) boost) }
{
    union_of_terms(weight, alloc, reader, boost, DoNothingCombiner)
}

// What enough of the terms have, over documents alone, where scoring is off.
pub(super) fn unscored_disjunction<'a>(
    weight: &'a TermsWeight,
    alloc: Global,
    reader: &'a SegmentReader,
    boost: u64,
) -> Result<BufferedDisjunction<Unscored<'a>, DoNothingCombiner>, QueryError>
    requires boost { boost ≤ greatest_score }
    requires should { AreAll Should weight.now.clauses.items }
    requires several { 2 ≤ weight.now.rule.minimum_number_should_match }
    requires off { ¬ IsTrue weight.now.rule.scoring_enabled }
    ensures scorer { IfOk result
        (IsScorerOf ⟦<BufferedDisjunction<Unscored<'a>, DoNothingCombiner> as DocSet>⟧ (terms_tree weight.now) boost reader.now.segment) }
    ensures refused { IfErr result (IsRefusalOf (terms_tree weight.now) boost) }
{
    disjunction_of_terms(weight, alloc, reader, boost, DoNothingCombiner)
}

// The union of the terms' cursors at a boost, which is a scorer of the weight. Where scoring is on the cursors give
// scores, and the combiner is that of the weight.
pub(super) fn union_of_terms<'a, T: TermCursor<'a>, C: ScoreCombiner>(
    weight: &'a TermsWeight,
    alloc: Global,
    reader: &'a SegmentReader,
    boost: u64,
    combiner: C,
) -> Result<BufferedUnionScorer<T, C>, QueryError>
    requires boost { boost ≤ greatest_score }
    requires terms { IsTermUnion weight.now }
    requires scores { IsTrue weight.now.rule.scoring_enabled → T.gives_scores }
    requires combiner { IsTrue weight.now.rule.scoring_enabled → CombinesAs weight.now.rule.score_combiner (C.combined combiner) }
    ensures scorer { IfOk result (IsScorerOf ⟦<BufferedUnionScorer<T, C> as DocSet>⟧ (terms_tree weight.now) boost reader.now.segment) }
    ensures refused { IfErr result (IsRefusalOf (terms_tree weight.now) boost) }
{
    let cursors = cursors_of_terms(weight, alloc, reader, boost)?;
    BufferedUnionScorer::build(alloc, cursors, combiner, reader.max_doc())
}

// What enough of the terms' cursors have at a boost, which is a scorer of the weight. Where scoring is on the cursors
// give scores, and the combiner is that of the weight.
pub(super) fn disjunction_of_terms<'a, T: TermCursor<'a>, C: ScoreCombiner>(
    weight: &'a TermsWeight,
    alloc: Global,
    reader: &'a SegmentReader,
    boost: u64,
    combiner: C,
) -> Result<BufferedDisjunction<T, C>, QueryError>
    requires boost { boost ≤ greatest_score }
    requires should { AreAll Should weight.now.clauses.items }
    requires several { 2 ≤ weight.now.rule.minimum_number_should_match }
    requires scores { IsTrue weight.now.rule.scoring_enabled → T.gives_scores }
    requires combiner { IsTrue weight.now.rule.scoring_enabled → CombinesAs weight.now.rule.score_combiner (C.combined combiner) }
    ensures scorer { IfOk result (IsScorerOf ⟦<BufferedDisjunction<T, C> as DocSet>⟧ (terms_tree weight.now) boost reader.now.segment) }
    ensures refused { IfErr result (IsRefusalOf (terms_tree weight.now) boost) }
{
    let cursors = cursors_of_terms(weight, alloc, reader, boost)?;
    let minimum = weight.rule.minimum_number_should_match;
    BufferedDisjunction::build(alloc, cursors, combiner, minimum, reader.max_doc())
}

// The cursors of the terms that are there, in order.
pub(super) fn cursors_of_terms<'a, T: TermCursor<'a>>(
    weight: &'a TermsWeight,
    alloc: Global,
    reader: &'a SegmentReader,
    boost: u64,
) -> Result<Vec<T>, QueryError>
    requires boost { boost ≤ greatest_score }
    requires scores { IsTrue weight.now.rule.scoring_enabled → T.gives_scores }
    ensures cursors { IfOk result (λ cursors. AreTreeCursors T.DocSet (trees_in weight.now) boost reader.now.segment cursors.items) }
    ensures refused { IfErr result (IsClauseRefusal (clauses_in weight.now) boost) }
{
    let mut cursors = Vec::with_capacity(alloc, weight.clauses.len())?;
    // the cursors so far are those of the clauses so far whose terms are in some document
    for clause in &weight.clauses {
        if let Some(cursor) = T::of_term(ClauseIn { weight, clause }, reader, boost)? {
            cursors.push(cursor)?;
        }
    }
    Ok(cursors)
}
