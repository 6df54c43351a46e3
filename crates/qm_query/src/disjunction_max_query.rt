//! The query that scores by the best of several.

ghost use Rattle.std.specs.Prelude.{◌≡◌, ◌<◌, ◌↔◌, IfErr, IfOk, IsErrOf, IsOkUnless, IsTrue, true};
ghost use Rattle.qm_weight.specs.Weights.{tree_of};
ghost use Rattle.qm_query.specs.EnableScoring.{schema_of};
ghost use Rattle.qm_query.specs.Fields.{is_served};
ghost use Rattle.qm_query.specs.QueryTerms.{MayVisitTerms, VisitsTerms, terms_of_query};
ghost use Rattle.qm_query.specs.QueryTree.{query_tree};
ghost use Rattle.qm_query.specs.SharedTerms.{AreTermQueries};
ghost use Rattle.qm_query.specs.WeightRefusals.{IsWeightRefusal};

use crate::any_query::{AnyQuery, is_term};
use crate::boxed::{boxed_boolean, boxed_terms};
use crate::enable_scoring::EnableScoring;
use crate::query::Query;
use qm_combine::DisjunctionMaxCombiner;
use qm_postings::Bm25StatisticsProvider;
use qm_schema::{Occur, QueryError, Term};
use qm_scorer::AnyCombiner;
use qm_weight::{AnyWeight, BooleanWeight};
use std::alloc::Global;

/// Matches what at least one of several queries matches, and scores the greatest of their scores, and
/// of the others together as many thousandths as the tie breaker says.
#[cycle(queries)]
#[derive(Debug, Drop)]
pub struct DisjunctionMaxQuery {
    disjuncts: Vec<Box<AnyQuery>>,
    combiner: DisjunctionMaxCombiner,
}

impl DisjunctionMaxQuery {
    ghost use Rattle.qm_query.specs.Query.{disjunction_max, disjunction_max_of, disjuncts_of};

    /// The query of these disjuncts with a tie breaker of 0. Takes no memory.
    pub fn new(disjuncts: Vec<Box<AnyQuery>>) -> DisjunctionMaxQuery
        ensures { disjunction_max_of result ≡ disjunction_max 0 (disjuncts_of disjuncts.items) }
    {
        DisjunctionMaxQuery {
            disjuncts,
            combiner: DisjunctionMaxCombiner::default(),
        }
    }

    /// The query of these disjuncts with a tie breaker in thousandths, from 0 to 1000. Takes no memory.
    ///
    /// Refused with [`QueryError::TieBreaker`], and nothing else, exactly where it is above 1000.
    pub fn with_tie_breaker(
        disjuncts: Vec<Box<AnyQuery>>,
        tie_breaker: u32,
    ) -> Result<DisjunctionMaxQuery, QueryError>
        ensures ok { IfOk result (λ query. disjunction_max_of query ≡ disjunction_max tie_breaker (disjuncts_of disjuncts.items)) }
        ensures refused { IsErrOf result QueryError.TieBreaker ↔ (1000 < tie_breaker) }
        ensures only { IsOkUnless result QueryError.TieBreaker }
    {
        Ok(DisjunctionMaxQuery {
            disjuncts,
            combiner: DisjunctionMaxCombiner::with_tie_breaker(tie_breaker)?,
        })
    }

    /// The same query, in memory of its own; costs a copy of all that stands below it.
    ///
    /// Refused with [`QueryError::Memory`] alone.
    #[cycle(clones)]
    pub fn clone(&self, alloc: Global) -> Result<DisjunctionMaxQuery, QueryError>
        ensures same { IfOk result (λ query. disjunction_max_of query ≡ disjunction_max_of self.now) }
        ensures refused { IsOkUnless result QueryError.Memory }
    {
        let mut disjuncts = Vec::with_capacity(alloc, self.disjuncts.len())?;
        // the disjuncts before this one are copied
        for query in &self.disjuncts {
            disjuncts.push(Box::new(alloc, (**query).clone(alloc)?)?)?;
        }
        Ok(DisjunctionMaxQuery {
            disjuncts,
            combiner: self.combiner,
        })
    }

    // The weight of the query; see [`Query::weight`].
    #[cycle(weights)]
    pub(crate) fn build_weight<P: Bm25StatisticsProvider>(
        &self,
        alloc: Global,
        enable_scoring: EnableScoring<'_, P>,
    ) -> Result<Box<AnyWeight>, QueryError>
        ensures tree { IfOk result (λ weight. tree_of weight.value ≡ query_tree P.Bm25StatisticsProvider enable_scoring.entry (disjunction_max_of self.now)) }
        ensures served { IfOk result (λ _. IsTrue (is_served (schema_of enable_scoring.entry) (disjunction_max_of self.now))) }
        ensures refused { IfErr result (IsWeightRefusal P.Bm25StatisticsProvider enable_scoring.entry (disjunction_max_of self.now)) }
    {
        if are_terms(self.disjuncts.as_slice()) {
            return self.build_terms(alloc, enable_scoring);
        }
        let mut weights = Vec::with_capacity(alloc, self.disjuncts.len())?;
        // the weights so far are those of the disjuncts so far
        for query in &self.disjuncts {
            let weight = (**query).build_weight(alloc, enable_scoring)?;
            weights.push((Occur::Should, weight))?;
        }
        let scoring = enable_scoring.is_scoring_enabled();
        let weight = BooleanWeight::new(weights, scoring, AnyCombiner::from(self.combiner));
        boxed_boolean(alloc, weight)
    }

    // The weight of disjuncts that are terms, built in their order.
    fn build_terms<P: Bm25StatisticsProvider>(
        &self,
        alloc: Global,
        enable_scoring: EnableScoring<'_, P>,
    ) -> Result<Box<AnyWeight>, QueryError>
        requires terms { AreTermQueries self.now.disjuncts.items }
        ensures tree { IfOk result (λ weight. tree_of weight.value ≡ query_tree P.Bm25StatisticsProvider enable_scoring.entry (disjunction_max_of self.now)) }
        ensures served { IfOk result (λ _. IsTrue (is_served (schema_of enable_scoring.entry) (disjunction_max_of self.now))) }
        ensures refused { IfErr result (IsWeightRefusal P.Bm25StatisticsProvider enable_scoring.entry (disjunction_max_of self.now)) }
    {
        let mut clauses = Vec::with_capacity(alloc, self.disjuncts.len())?;
        // the disjuncts before this one have what their terms weigh
        for query in &self.disjuncts {
            let AnyQuery::Term(term) = &**query else {
                unreachable!();
            };
            clauses.push(term.term_clause(alloc, enable_scoring, Occur::Should)?)?;
        }
        boxed_terms(
            alloc,
            enable_scoring,
            clauses,
            1,
            AnyCombiner::from(self.combiner),
        )
    }

    // A call with each term that the query names; see [`Query::query_terms`].
    #[cycle(visits)]
    pub(crate) fn visit_terms<F: FnMut(&Term, bool)>(&self, visitor: &mut F)
        requires allowed { MayVisitTerms F.FnMut visitor.old (terms_of_query (disjunction_max_of self.now)) }
        ensures calls { VisitsTerms F.FnMut visitor.old (terms_of_query (disjunction_max_of self.now)) visitor.new }
    {
        // the calls for the disjuncts that are left are those that are still to come
        for query in &self.disjuncts {
            (**query).visit_terms(visitor);
        }
    }
}

impl Query for DisjunctionMaxQuery {
    ghost use Rattle.qm_query.specs.Query.{disjunction_max_of};

    ghost query = { disjunction_max_of };

    fn weight<P: Bm25StatisticsProvider>(
        &self,
        alloc: Global,
        enable_scoring: EnableScoring<'_, P>,
    ) -> Result<Box<AnyWeight>, QueryError> {
        self.build_weight(alloc, enable_scoring)
    }

    fn query_terms<F: FnMut(&Term, bool)>(&self, visitor: &mut F) {
        self.visit_terms(visitor);
    }
}

// Whether the disjuncts are several terms.
fn are_terms(disjuncts: &[Box<AnyQuery>]) -> bool
    ensures { result ≡ true → AreTermQueries disjuncts.now }
{
    // all disjuncts before this one are terms
    for query in disjuncts {
        if !is_term(query) {
            return false;
        }
    }
    disjuncts.len() > 1
}
