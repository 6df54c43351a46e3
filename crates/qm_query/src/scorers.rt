//! The scorer of a query over a segment, in one call.

ghost use Rattle.std.specs.Prelude.{◌≤ℤ◌, IfErr, IfOk, nat_abs, pos};
ghost use Rattle.qm_query.specs.QueryScorers.{IsQueryRefusal, IsQueryScorer, IsScoringIfEnabled};

use crate::enable_scoring::EnableScoring;
use crate::query::Query;
use qm_combine::Scorer;
use qm_docset::{DocSet, Score};
use qm_postings::{Bm25StatisticsProvider, SegmentReader};
use qm_schema::QueryError;
use qm_scorer::AnyScorer;
use qm_weight::Weight;
use std::alloc::Global;

/// A scorer over the documents of a segment that a query matches, each with its score at a boost, which
/// is at least 0: what the query means there, whatever steps and seeks it is then gone through by. With
/// scoring off it has the same documents, and its scores are open.
///
/// Refused as [`Query::weight`] is, and then as [`Weight::scorer`] is: with
/// [`QueryError::ScoreBound`] only where the query doesn't fit, and else with [`QueryError::Memory`]
/// alone. Costs what these two cost.
pub fn query_scorer<'a, Q: Query, P: Bm25StatisticsProvider, S: Scorer>(
    query: &Q,
    alloc: Global,
    enable_scoring: EnableScoring<'_, P>,
    reader: &'a SegmentReader,
    boost: Score,
) -> Result<AnyScorer<'a, S>, QueryError>
    requires boost { pos 0 ≤ℤ boost }
    ensures scorer { IfOk result (IsQueryScorer ⟦<AnyScorer<'a, S> as DocSet>⟧ P.Bm25StatisticsProvider enable_scoring.entry (Q.query query.now) (nat_abs boost) reader.now.segment) }
    ensures scoring { IsScoringIfEnabled P.Bm25StatisticsProvider enable_scoring.entry (Q.query query.now) }
    ensures refused { IfErr result (IsQueryRefusal P.Bm25StatisticsProvider enable_scoring.entry (Q.query query.now) (nat_abs boost)) }
{
    let weight = query.weight(alloc, enable_scoring)?;
    weight.scorer(alloc, reader, boost)
}
