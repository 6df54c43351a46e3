//! Weights in memory of their own.
//!
//! A weight is made where it is kept, since each `Result` on its way would copy it.

ghost use Rattle.std.specs.Prelude.{◌≡◌, IfOk, IsOkUnless};
ghost use Rattle.qm_query.specs.SharedTerms.{JoinsTerms};
ghost use Rattle.qm_weight.specs.declared.any_weight.AnyWeight.TheVariants.{Boolean, Boost, Const};

use crate::enable_scoring::EnableScoring;
use crate::leaf_weight::shared_norms;
use qm_postings::Bm25StatisticsProvider;
use qm_schema::QueryError;
use qm_scorer::AnyCombiner;
use qm_weight::{AnyWeight, BooleanWeight, BoostWeight, ConstWeight, TermClause, TermsWeight};
use std::alloc::Global;

// The weight in memory of its own. Refused with `Memory` alone.
//
// A weight is more than a kilobyte, and `?` would make room for the one that is handed back.
#[inline(always)]
pub(crate) fn boxed(alloc: Global, weight: AnyWeight) -> Result<Box<AnyWeight>, QueryError>
    ensures value { IfOk result (λ boxed. boxed.value ≡ weight) }
    ensures refused { IsOkUnless result QueryError.Memory }
{
    match Box::new(alloc, weight) {
        Ok(boxed) => Ok(boxed),
        Err(_) => Err(QueryError::Memory),
    }
}

// ---- those of nodes, apart: the weight that they move is no part of what a level of the recursion takes of the stack

#[inline(never)]
pub(crate) fn boxed_boolean(
    alloc: Global,
    weight: BooleanWeight,
) -> Result<Box<AnyWeight>, QueryError>
    ensures value { IfOk result (λ boxed. boxed.value ≡ Boolean weight) }
    ensures refused { IsOkUnless result QueryError.Memory }
{
    boxed(alloc, AnyWeight::Boolean(weight))
}

#[inline(never)]
pub(crate) fn boxed_boost(alloc: Global, weight: BoostWeight) -> Result<Box<AnyWeight>, QueryError>
    ensures value { IfOk result (λ boxed. boxed.value ≡ Boost weight) }
    ensures refused { IsOkUnless result QueryError.Memory }
{
    boxed(alloc, AnyWeight::Boost(weight))
}

#[inline(never)]
pub(crate) fn boxed_constant(
    alloc: Global,
    weight: ConstWeight,
) -> Result<Box<AnyWeight>, QueryError>
    ensures value { IfOk result (λ boxed. boxed.value ≡ Const weight) }
    ensures refused { IsOkUnless result QueryError.Memory }
{
    boxed(alloc, AnyWeight::Const(weight))
}

// That of clauses that are terms, which share the norms of the provider.
#[inline(never)]
pub(crate) fn boxed_terms<P: Bm25StatisticsProvider>(
    alloc: Global,
    enable_scoring: EnableScoring<'_, P>,
    clauses: Vec<TermClause>,
    minimum_number_should_match: usize,
    score_combiner: AnyCombiner,
) -> Result<Box<AnyWeight>, QueryError>
    ensures tree { IfOk result (λ weight.
        JoinsTerms P.Bm25StatisticsProvider enable_scoring.entry minimum_number_should_match score_combiner clauses.items weight.value) }
    ensures refused { IsOkUnless result QueryError.Memory }
{
    let weight = TermsWeight::new(
        clauses,
        shared_norms(enable_scoring),
        minimum_number_should_match,
        enable_scoring.is_scoring_enabled(),
        score_combiner,
    );
    boxed(alloc, AnyWeight::Terms(weight))
}
