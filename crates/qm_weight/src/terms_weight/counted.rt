//! The count of a weight of terms.

ghost use Rattle.std.specs.Prelude.{◌≡◌, ◌≤◌, IfErr, IfOk, IsTrue};
ghost use Rattle.qm_docset.specs.Entry.{greatest_score};
ghost use Rattle.qm_schema.specs.declared.occur.Occur.TheVariants.{Should};
ghost use Rattle.qm_weight.specs.Counts.{alive_count};
ghost use Rattle.qm_weight.specs.Scorers.{IsRefusalOf};
ghost use Rattle.qm_weight.specs.TermUnions.{AreAll};
ghost use Rattle.qm_weight.specs.Weights.{terms_tree};

use crate::counts::count_alive;
use crate::terms_weight::TermsWeight;
use crate::terms_weight::joined::{boxed_scorer, unscored_scorer};
use crate::terms_weight::term_union::{
    are_all, is_one_enough, unscored_disjunction, unscored_union,
};
use qm_combine::EmptyScorer;
use qm_postings::SegmentReader;
use qm_schema::{Occur, QueryError};
use qm_scorer::AnyScorer;
use std::alloc::Global;

// How many documents match that weren't deleted. Where scoring is off no scorer is asked for more than documents.
pub(crate) fn count_terms(
    weight: &TermsWeight,
    alloc: Global,
    reader: &SegmentReader,
    boost: u64,
) -> Result<u32, QueryError>
    requires boost { boost ≤ greatest_score }
    ensures count { IfOk result (λ n. n ≡ alive_count (terms_tree weight.now) reader.now.segment) }
    ensures refused { IfErr result (IsRefusalOf (terms_tree weight.now) boost) }
{
    if weight.rule.scoring_enabled {
        let mut scorer: AnyScorer<EmptyScorer> = boxed_scorer(weight, alloc, reader, boost)?;
        return Ok(count_alive(&mut scorer, reader));
    }
    if are_all(weight, Occur::Should) {
        return count_should(weight, alloc, reader, boost);
    }
    let mut scorer = unscored_scorer(weight, alloc, reader, boost)?;
    Ok(count_alive(&mut scorer, reader))
}

// The same of terms that should match, where scoring is off.
fn count_should(
    weight: &TermsWeight,
    alloc: Global,
    reader: &SegmentReader,
    boost: u64,
) -> Result<u32, QueryError>
    requires boost { boost ≤ greatest_score }
    requires should { AreAll Should weight.now.clauses.items }
    requires off { ¬ IsTrue weight.now.rule.scoring_enabled }
    ensures count { IfOk result (λ n. n ≡ alive_count (terms_tree weight.now) reader.now.segment) }
    ensures refused { IfErr result (IsRefusalOf (terms_tree weight.now) boost) }
{
    if is_one_enough(weight) {
        let mut union = unscored_union(weight, alloc, reader, boost)?;
        return Ok(count_alive(&mut union, reader));
    }
    let mut disjunction = unscored_disjunction(weight, alloc, reader, boost)?;
    Ok(count_alive(&mut disjunction, reader))
}
