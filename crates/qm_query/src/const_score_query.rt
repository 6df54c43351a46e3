//! The query that gives one score.

ghost use Rattle.std.specs.Prelude.{◌≡◌, ◌≤ℤ◌, IfErr, IfOk, IsOkUnless, IsTrue, nat_abs, pos};
ghost use Rattle.qm_weight.specs.Weights.{tree_of};
ghost use Rattle.qm_query.specs.EnableScoring.{schema_of};
ghost use Rattle.qm_query.specs.Fields.{is_served};
ghost use Rattle.qm_query.specs.QueryTerms.{MayVisitTerms, VisitsTerms, terms_of_query};
ghost use Rattle.qm_query.specs.QueryTree.{query_tree};
ghost use Rattle.qm_query.specs.WeightRefusals.{IsWeightRefusal};

use crate::any_query::AnyQuery;
use crate::enable_scoring::EnableScoring;
use crate::factor::Factor;
use crate::query::Query;
use crate::rescoring::{Rescoring, build_rescored};
use qm_docset::Score;
use qm_postings::Bm25StatisticsProvider;
use qm_schema::{QueryError, Term};
use qm_weight::AnyWeight;
use std::alloc::Global;

/// Matches what another query matches, and gives each document one score, times the boost that the
/// query itself is asked at.
#[cycle(queries)]
#[derive(Debug, Drop)]
pub struct ConstScoreQuery {
    underlying: Box<AnyQuery>,
    score: Factor,
}

impl ConstScoreQuery {
    ghost use Rattle.qm_query.specs.Query.{constant, constant_of, query_of};

    /// The query with that score, which has to be at least 0. Takes no memory.
    pub fn new(underlying: Box<AnyQuery>, score: Score) -> ConstScoreQuery
        requires { pos 0 ≤ℤ score }
        ensures { constant_of result ≡ constant (nat_abs score) (query_of underlying.value) }
    {
        ConstScoreQuery {
            underlying,
            score: Factor::new(score),
        }
    }

    /// The same query, in memory of its own; costs a copy of all that stands below it.
    ///
    /// Refused with [`QueryError::Memory`] alone.
    #[cycle(clones)]
    pub fn clone(&self, alloc: Global) -> Result<ConstScoreQuery, QueryError>
        ensures same { IfOk result (λ query. constant_of query ≡ constant_of self.now) }
        ensures refused { IsOkUnless result QueryError.Memory }
    {
        Ok(ConstScoreQuery {
            underlying: Box::new(alloc, (*self.underlying).clone(alloc)?)?,
            score: self.score,
        })
    }

    // The weight of the query; see [`Query::weight`].
    #[cycle(weights)]
    pub(crate) fn build_weight<P: Bm25StatisticsProvider>(
        &self,
        alloc: Global,
        enable_scoring: EnableScoring<'_, P>,
    ) -> Result<Box<AnyWeight>, QueryError>
        ensures tree { IfOk result (λ weight. tree_of weight.value ≡ query_tree P.Bm25StatisticsProvider enable_scoring.entry (constant_of self.now)) }
        ensures served { IfOk result (λ _. IsTrue (is_served (schema_of enable_scoring.entry) (constant_of self.now))) }
        ensures refused { IfErr result (IsWeightRefusal P.Bm25StatisticsProvider enable_scoring.entry (constant_of self.now)) }
    {
        let rescoring = Rescoring::Constant(self.score);
        build_rescored(&self.underlying, rescoring, alloc, enable_scoring)
    }

    // A call with each term that the query names; see [`Query::query_terms`].
    #[cycle(visits)]
    pub(crate) fn visit_terms<F: FnMut(&Term, bool)>(&self, visitor: &mut F)
        requires allowed { MayVisitTerms F.FnMut visitor.old (terms_of_query (constant_of self.now)) }
        ensures calls { VisitsTerms F.FnMut visitor.old (terms_of_query (constant_of self.now)) visitor.new }
    {
        (*self.underlying).visit_terms(visitor);
    }
}

impl Query for ConstScoreQuery {
    ghost use Rattle.qm_query.specs.Query.{constant_of};

    ghost query = { constant_of };

    fn weight<P: Bm25StatisticsProvider>(
        &self,
        alloc: Global,
        enable_scoring: EnableScoring<'_, P>,
    ) -> Result<Box<AnyWeight>, QueryError> {
        self.build_weight(alloc, enable_scoring)
    }

    fn query_terms<F: FnMut(&Term, bool)>(&self, visitor: &mut F) {
        self.visit_terms(visitor);
    }
}
