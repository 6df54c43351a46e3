//! What queries do that change the scores of what stands below them alone.

ghost use Rattle.std.specs.Prelude.{◌≡◌, IfErr, IfOk, IsTrue};
ghost use Rattle.qm_weight.specs.Weights.{tree_of};
ghost use Rattle.qm_query.specs.EnableScoring.{schema_of};
ghost use Rattle.qm_query.specs.Fields.{is_served};
ghost use Rattle.qm_query.specs.Query.{query_of};
ghost use Rattle.qm_query.specs.QueryTree.{query_tree};
ghost use Rattle.qm_query.specs.Rescoring.{rescored_query};
ghost use Rattle.qm_query.specs.WeightRefusals.{IsWeightRefusal};

use crate::any_query::AnyQuery;
use crate::boxed::{boxed_boost, boxed_constant};
use crate::enable_scoring::EnableScoring;
use crate::factor::Factor;
use qm_postings::Bm25StatisticsProvider;
use qm_schema::QueryError;
use qm_weight::{AnyWeight, BoostWeight, ConstWeight};
use std::alloc::Global;

/// How the scores of a query are changed.
#[derive(Clone, Copy)]
pub(crate) enum Rescoring {
    /// Multiplied.
    Boost(Factor),
    /// Replaced by one score.
    Constant(Factor),
}

// The weight of a query whose scores are so changed; with scoring off that of the query itself.
#[cycle(weights)]
pub(crate) fn build_rescored<P: Bm25StatisticsProvider>(
    underlying: &AnyQuery,
    rescoring: Rescoring,
    alloc: Global,
    enable_scoring: EnableScoring<'_, P>,
) -> Result<Box<AnyWeight>, QueryError>
    ensures tree { IfOk result (λ w. tree_of w.value ≡ query_tree P.Bm25StatisticsProvider enable_scoring.entry (rescored_query rescoring underlying.now)) }
    ensures served { IfOk result (λ _. IsTrue (is_served (schema_of enable_scoring.entry) (query_of underlying.now))) }
    ensures refused { IfErr result (IsWeightRefusal P.Bm25StatisticsProvider enable_scoring.entry (query_of underlying.now)) }
{
    let inside = underlying.build_weight(alloc, enable_scoring)?;
    if !enable_scoring.is_scoring_enabled() {
        return Ok(inside);
    }
    match rescoring {
        Rescoring::Boost(boost) => boxed_boost(alloc, BoostWeight::new(inside, boost.score())),
        Rescoring::Constant(score) => {
            boxed_constant(alloc, ConstWeight::new(inside, score.score()))
        }
    }
}
