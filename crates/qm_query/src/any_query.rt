//! One type for all queries.

ghost use Rattle.std.specs.Prelude.{◌≡◌, IfErr, IfOk, IsOkUnless, IsTrue, true};
ghost use Rattle.qm_weight.specs.Weights.{tree_of};
ghost use Rattle.qm_query.specs.EnableScoring.{schema_of};
ghost use Rattle.qm_query.specs.Fields.{is_served};
ghost use Rattle.qm_query.specs.QueryTerms.{MayVisitTerms, VisitsTerms, terms_of_query};
ghost use Rattle.qm_query.specs.QueryTree.{query_tree};
ghost use Rattle.qm_query.specs.WeightRefusals.{IsWeightRefusal};
ghost use Rattle.qm_query.specs.SharedTerms.{IsTermQuery};

use crate::all_query::AllQuery;
use crate::boolean_query::BooleanQuery;
use crate::boost_query::BoostQuery;
use crate::const_score_query::ConstScoreQuery;
use crate::disjunction_max_query::DisjunctionMaxQuery;
use crate::empty_query::EmptyQuery;
use crate::enable_scoring::EnableScoring;
use crate::phrase_prefix_query::PhrasePrefixQuery;
use crate::phrase_query::PhraseQuery;
use crate::query::Query;
use crate::term_query::TermQuery;
use qm_postings::Bm25StatisticsProvider;
use qm_schema::{QueryError, Term};
use qm_weight::AnyWeight;
use std::alloc::Global;

/// A query of any kind.
#[cycle(queries)]
#[derive(Debug, Drop)]
pub enum AnyQuery {
    /// Every document.
    All(AllQuery),
    /// No document.
    Empty(EmptyQuery),
    /// The documents that hold a term.
    Term(TermQuery),
    /// The documents where a phrase stands.
    Phrase(PhraseQuery),
    /// The documents where a phrase stands whose last term is a prefix.
    PhrasePrefix(PhrasePrefixQuery),
    /// The documents that clauses ask for.
    Boolean(BooleanQuery),
    /// The documents of another query, at a boost.
    Boost(BoostQuery),
    /// The documents of another query, with one score.
    ConstScore(ConstScoreQuery),
    /// The documents of several queries, with the best of their scores.
    DisjunctionMax(DisjunctionMaxQuery),
}

impl AnyQuery {
    ghost use Rattle.qm_query.specs.Query.{query_of};

    /// The same query, in memory of its own; costs a copy of all that stands below it.
    ///
    /// Refused with [`QueryError::Memory`] alone.
    #[cycle(clones)]
    pub fn clone(&self, alloc: Global) -> Result<AnyQuery, QueryError>
        ensures same { IfOk result (λ query. query_of query ≡ query_of self.now) }
        ensures refused { IsOkUnless result QueryError.Memory }
    {
        match self {
            AnyQuery::All(query) => Ok(AnyQuery::All(query.clone(alloc)?)),
            AnyQuery::Empty(query) => Ok(AnyQuery::Empty(query.clone(alloc)?)),
            AnyQuery::Term(query) => Ok(AnyQuery::Term(query.clone(alloc)?)),
            AnyQuery::Phrase(query) => Ok(AnyQuery::Phrase(query.clone(alloc)?)),
            AnyQuery::PhrasePrefix(query) => Ok(AnyQuery::PhrasePrefix(query.clone(alloc)?)),
            AnyQuery::Boolean(query) => Ok(AnyQuery::Boolean(query.clone(alloc)?)),
            AnyQuery::Boost(query) => Ok(AnyQuery::Boost(query.clone(alloc)?)),
            AnyQuery::ConstScore(query) => Ok(AnyQuery::ConstScore(query.clone(alloc)?)),
            AnyQuery::DisjunctionMax(query) => Ok(AnyQuery::DisjunctionMax(query.clone(alloc)?)),
        }
    }

    // The weight of the query; see [`Query::weight`].
    #[cycle(weights)]
    pub(crate) fn build_weight<P: Bm25StatisticsProvider>(
        &self,
        alloc: Global,
        enable_scoring: EnableScoring<'_, P>,
    ) -> Result<Box<AnyWeight>, QueryError>
        ensures tree { IfOk result (λ weight. tree_of weight.value ≡ query_tree P.Bm25StatisticsProvider enable_scoring.entry (query_of self.now)) }
        ensures served { IfOk result (λ _. IsTrue (is_served (schema_of enable_scoring.entry) (query_of self.now))) }
        ensures refused { IfErr result (IsWeightRefusal P.Bm25StatisticsProvider enable_scoring.entry (query_of self.now)) }
    {
        match self {
            AnyQuery::All(query) => build_leaf(query, alloc, enable_scoring),
            AnyQuery::Empty(query) => build_leaf(query, alloc, enable_scoring),
            AnyQuery::Term(query) => build_leaf(query, alloc, enable_scoring),
            AnyQuery::Phrase(query) => build_leaf(query, alloc, enable_scoring),
            AnyQuery::PhrasePrefix(query) => build_leaf(query, alloc, enable_scoring),
            AnyQuery::Boolean(query) => query.build_weight(alloc, enable_scoring),
            AnyQuery::Boost(query) => query.build_weight(alloc, enable_scoring),
            AnyQuery::ConstScore(query) => query.build_weight(alloc, enable_scoring),
            AnyQuery::DisjunctionMax(query) => query.build_weight(alloc, enable_scoring),
        }
    }

    // A call with each term that the query names; see [`Query::query_terms`].
    #[cycle(visits)]
    pub(crate) fn visit_terms<F: FnMut(&Term, bool)>(&self, visitor: &mut F)
        requires allowed { MayVisitTerms F.FnMut visitor.old (terms_of_query (query_of self.now)) }
        ensures calls { VisitsTerms F.FnMut visitor.old (terms_of_query (query_of self.now)) visitor.new }
    {
        match self {
            AnyQuery::All(query) => query.query_terms(visitor),
            AnyQuery::Empty(query) => query.query_terms(visitor),
            AnyQuery::Term(query) => query.query_terms(visitor),
            AnyQuery::Phrase(query) => query.query_terms(visitor),
            AnyQuery::PhrasePrefix(query) => query.query_terms(visitor),
            AnyQuery::Boolean(query) => query.visit_terms(visitor),
            AnyQuery::Boost(query) => query.visit_terms(visitor),
            AnyQuery::ConstScore(query) => query.visit_terms(visitor),
            AnyQuery::DisjunctionMax(query) => query.visit_terms(visitor),
        }
    }
}

// The weight of a query that has no other inside, made apart: what it takes of the stack, no level of the recursion
// has to take.
#[inline(never)]
fn build_leaf<Q: Query, P: Bm25StatisticsProvider>(
    query: &Q,
    alloc: Global,
    enable_scoring: EnableScoring<'_, P>,
) -> Result<Box<AnyWeight>, QueryError>
    ensures tree { IfOk result (λ weight. tree_of weight.value ≡ query_tree P.Bm25StatisticsProvider enable_scoring.entry (Q.query query.now)) }
    ensures served { IfOk result (λ _. IsTrue (is_served (schema_of enable_scoring.entry) (Q.query query.now))) }
    ensures refused { IfErr result (IsWeightRefusal P.Bm25StatisticsProvider enable_scoring.entry (Q.query query.now)) }
{
    query.weight(alloc, enable_scoring)
}

// Whether a query is that for a term.
pub(crate) fn is_term(query: &AnyQuery) -> bool
    ensures { result ≡ true → IsTermQuery query.now }
{
    match query {
        AnyQuery::Term(_) => true,
        _ => false,
    }
}
