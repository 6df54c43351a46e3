//! Weights of queries that fit, whatever segments they are then run over.

ghost use Rattle.std.specs.Prelude.{◌≡◌, IfErr, IfOk, OnOk};
ghost use Rattle.qm_weight.specs.Scorers.{IsRefusalOf};
ghost use Rattle.qm_weight.specs.Weights.{tree_of};
ghost use Rattle.qm_query.specs.QueryScorers.{FitsAtOne, IsQueryRefusal, QueryFits, ScoresIfEnabled};
ghost use Rattle.qm_query.specs.QueryTree.{query_tree};

use crate::enable_scoring::EnableScoring;
use crate::query::Query;
use qm_postings::Bm25StatisticsProvider;
use qm_schema::QueryError;
use qm_weight::{AnyWeight, Weight};
use std::alloc::Global;

/// The weight of a query, where it fits at a boost of 1 (see [`Weight::fits`]): so no run of it over a
/// segment is refused but for want of memory, and whether there is an answer doesn't depend on how the
/// documents stand in segments, nor on which terms some of these have.
///
/// Refused as [`Query::weight`] is, and with [`QueryError::ScoreBound`] exactly where that is or where the
/// query doesn't fit. Costs what [`Query::weight`] does, and a walk through the weight.
pub fn fitting_weight<Q: Query, P: Bm25StatisticsProvider>(
    query: &Q,
    alloc: Global,
    enable_scoring: EnableScoring<'_, P>,
) -> Result<Box<AnyWeight>, QueryError>
    ensures tree { IfOk result (λ weight. tree_of weight.value ≡ query_tree P.Bm25StatisticsProvider enable_scoring.entry (Q.query query.now)) }
    ensures scoring { IfOk result (λ weight. ScoresIfEnabled enable_scoring.entry (tree_of weight.value)) }
    ensures fits { IfOk result (λ _. QueryFits P.Bm25StatisticsProvider enable_scoring.entry (Q.query query.now)) }
    ensures refused { IfErr result (IsQueryRefusal P.Bm25StatisticsProvider enable_scoring.entry (Q.query query.now) 1) }
{
    let weight = query.weight(alloc, enable_scoring)?;
    check_fits(&weight)?;
    Ok(weight)
}

/// Refused with [`QueryError::ScoreBound`], and nothing else, exactly where a weight doesn't fit at a boost
/// of 1.
pub(crate) fn check_fits(weight: &AnyWeight) -> Result<(), QueryError>
    ensures fits { OnOk result (FitsAtOne (tree_of weight.now)) }
    ensures refused { IfErr result (IsRefusalOf (tree_of weight.now) 1) }
{
    if weight.fits(1) {
        Ok(())
    } else {
        Err(QueryError::ScoreBound)
    }
}
