//! The query that multiplies scores.

ghost use Rattle.std.specs.Prelude.{◌≡◌, ◌≤ℤ◌, IfErr, IfOk, IsOkUnless, IsTrue, nat_abs, pos};
ghost use Rattle.qm_weight.specs.Weights.{tree_of};
ghost use Rattle.qm_query.specs.EnableScoring.{schema_of};
ghost use Rattle.qm_query.specs.Fields.{is_served};
ghost use Rattle.qm_query.specs.QueryTerms.{MayVisitTerms, VisitsTerms, terms_of_query};
ghost use Rattle.qm_query.specs.QueryTree.{query_tree};
ghost use Rattle.qm_query.specs.WeightRefusals.{IsWeightRefusal};

use crate::any_query::AnyQuery;
use crate::enable_scoring::EnableScoring;
use crate::factor::Factor;
use crate::query::Query;
use crate::rescoring::{Rescoring, build_rescored};
use qm_docset::Score;
use qm_postings::Bm25StatisticsProvider;
use qm_schema::{QueryError, Term};
use qm_weight::AnyWeight;
use std::alloc::Global;

/// Matches what another query matches, and scores it at a boost, which multiplies the boost that the
/// query itself is asked at.
#[cycle(queries)]
#[derive(Debug, Drop)]
pub struct BoostQuery {
    underlying: Box<AnyQuery>,
    boost: Factor,
}

impl BoostQuery {
    ghost use Rattle.qm_query.specs.Query.{boosted, boost_of, query_of};

    /// The query at that boost, which has to be at least 0. Takes no memory.
    pub fn new(underlying: Box<AnyQuery>, boost: Score) -> BoostQuery
        requires { pos 0 ≤ℤ boost }
        ensures { boost_of result ≡ boosted (nat_abs boost) (query_of underlying.value) }
    {
        BoostQuery {
            underlying,
            boost: Factor::new(boost),
        }
    }

    /// The same query, in memory of its own; costs a copy of all that stands below it.
    ///
    /// Refused with [`QueryError::Memory`] alone.
    #[cycle(clones)]
    pub fn clone(&self, alloc: Global) -> Result<BoostQuery, QueryError>
        ensures same { IfOk result (λ query. boost_of query ≡ boost_of self.now) }
        ensures refused { IsOkUnless result QueryError.Memory }
    {
        Ok(BoostQuery {
            underlying: Box::new(alloc, (*self.underlying).clone(alloc)?)?,
            boost: self.boost,
        })
    }

    // The weight of the query; see [`Query::weight`].
    #[cycle(weights)]
    pub(crate) fn build_weight<P: Bm25StatisticsProvider>(
        &self,
        alloc: Global,
        enable_scoring: EnableScoring<'_, P>,
    ) -> Result<Box<AnyWeight>, QueryError>
        ensures tree { IfOk result (λ weight. tree_of weight.value ≡ query_tree P.Bm25StatisticsProvider enable_scoring.entry (boost_of self.now)) }
        ensures served { IfOk result (λ _. IsTrue (is_served (schema_of enable_scoring.entry) (boost_of self.now))) }
        ensures refused { IfErr result (IsWeightRefusal P.Bm25StatisticsProvider enable_scoring.entry (boost_of self.now)) }
    {
        let rescoring = Rescoring::Boost(self.boost);
        build_rescored(&self.underlying, rescoring, alloc, enable_scoring)
    }

    // A call with each term that the query names; see [`Query::query_terms`].
    #[cycle(visits)]
    pub(crate) fn visit_terms<F: FnMut(&Term, bool)>(&self, visitor: &mut F)
        requires allowed { MayVisitTerms F.FnMut visitor.old (terms_of_query (boost_of self.now)) }
        ensures calls { VisitsTerms F.FnMut visitor.old (terms_of_query (boost_of self.now)) visitor.new }
    {
        (*self.underlying).visit_terms(visitor);
    }
}

impl Query for BoostQuery {
    ghost use Rattle.qm_query.specs.Query.{boost_of};

    ghost query = { boost_of };

    fn weight<P: Bm25StatisticsProvider>(
        &self,
        alloc: Global,
        enable_scoring: EnableScoring<'_, P>,
    ) -> Result<Box<AnyWeight>, QueryError> {
        self.build_weight(alloc, enable_scoring)
    }

    fn query_terms<F: FnMut(&Term, bool)>(&self, visitor: &mut F) {
        self.visit_terms(visitor);
    }
}
