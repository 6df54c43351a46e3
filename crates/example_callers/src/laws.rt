//! What users of queries rely on, as callers learn it from the contracts of weights and of their runs alone:
//! what two weights find in a segment, the one beside the other.

ghost use Rattle.std.specs.Prelude.{◌≡◌, ◌≤ℤ◌, IfOk, IsTrue, map, nat_abs, pos};
ghost use Rattle.example_callers.specs.Found.{IsMultiplied};
ghost use Rattle.qm_weight.specs.OrderFacts.{IsReordered};
ghost use Rattle.qm_weight.specs.ScoringFacts.{unscored};
ghost use Rattle.qm_weight.specs.Tree.{is_scoring};
ghost use Rattle.qm_weight.specs.Weights.{tree_of};

use crate::callers::collect_matches;
use crate::weight_callers::join_matches;
use qm_docset::{DocId, Score};
use qm_postings::SegmentReader;
use qm_schema::QueryError;
use qm_weight::{AnyWeight, BoostWeight, Weight};
use std::alloc::Global;

/// What two weights find in a segment, documents with their scores.
pub type Both = (Vec<(DocId, Score)>, Vec<(DocId, Score)>);

/// What two weights find in a segment: the same documents, with the same scores, where these are Booleans
/// of the same clauses in another order.
pub fn collect_reordered<V: Weight, W: Weight>(
    alloc: Global,
    first: &V,
    second: &W,
    reader: &SegmentReader,
) -> Result<Both, QueryError>
    ensures documents { IfOk result (λ f. IsReordered (V.tree first.now) (W.tree second.now) → map (λ p. p.0) f.0.items ≡ map (λ p. p.0) f.1.items) }
    ensures scores { IfOk result (λ f. IsReordered (V.tree first.now) (W.tree second.now) → IsTrue (is_scoring (V.tree first.now)) → f.0.items ≡ f.1.items) }
{
    let found = collect_matches(alloc, first, reader)?;
    Ok((found, collect_matches(alloc, second, reader)?))
}

/// The documents that two weights match in a segment: the same, where these stand for one query, whatever
/// of it is scored in each.
pub fn join_scored_and_unscored<V: Weight, W: Weight>(
    alloc: Global,
    first: &V,
    second: &W,
    reader: &SegmentReader,
) -> Result<(Vec<DocId>, Vec<DocId>), QueryError>
    ensures { IfOk result (λ found. unscored (V.tree first.now) ≡ unscored (W.tree second.now) → found.0.items ≡ found.1.items) }
{
    let found = join_matches(alloc, first, reader)?;
    Ok((found, join_matches(alloc, second, reader)?))
}

/// The slices of a weight's run, one after another, and what its run by documents finds: the same documents.
pub fn join_and_collect<W: Weight>(
    alloc: Global,
    weight: &W,
    reader: &SegmentReader,
) -> Result<(Vec<DocId>, Vec<(DocId, Score)>), QueryError>
    ensures { IfOk result (λ found. found.0.items ≡ map (λ p. p.0) found.1.items) }
{
    let joined = join_matches(alloc, weight, reader)?;
    Ok((joined, collect_matches(alloc, weight, reader)?))
}

/// What a weight finds in a segment, and what it finds under a boost: the boost multiplies each score, where
/// no tie breaker is rounded.
pub fn collect_boosted(
    alloc: Global,
    weight: Box<AnyWeight>,
    boost: Score,
    reader: &SegmentReader,
) -> Result<Both, QueryError>
    requires { pos 0 ≤ℤ boost }
    ensures documents { IfOk result (λ found. map (λ p. p.0) found.0.items ≡ map (λ p. p.0) found.1.items) }
    ensures scores { IfOk result (λ f. IsMultiplied (tree_of weight.value) (nat_abs boost) f.0.items f.1.items) }
{
    let found = collect_matches(alloc, &*weight, reader)?;
    let boosted = BoostWeight::new(weight, boost);
    Ok((found, collect_matches(alloc, &boosted, reader)?))
}
