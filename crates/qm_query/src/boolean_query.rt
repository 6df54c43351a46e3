//! The query of clauses.

ghost use Rattle.std.specs.Prelude.{◌≡◌, IfErr, IfOk, IsOkUnless, IsTrue, map, true};
ghost use Rattle.qm_weight.specs.Weights.{tree_of};
ghost use Rattle.qm_query.specs.EnableScoring.{schema_of};
ghost use Rattle.qm_query.specs.Fields.{is_served};
ghost use Rattle.qm_query.specs.Query.{query_of};
ghost use Rattle.qm_query.specs.QueryTerms.{MayVisitTerms, VisitsTerms, terms_of_query};
ghost use Rattle.qm_query.specs.QueryTree.{query_tree};
ghost use Rattle.qm_query.specs.SharedTerms.{AreTermClauses};
ghost use Rattle.qm_query.specs.WeightRefusals.{IsWeightRefusal};
ghost use Rattle.std.specs.List.{list_all};
ghost use Rattle.qm_query.specs.Occurs.{is_should};

use crate::any_query::{AnyQuery, is_term};
use crate::boxed::{boxed_boolean, boxed_terms};
use crate::enable_scoring::EnableScoring;
use crate::query::Query;
use crate::term_query::TermQuery;
use qm_combine::SumCombiner;
use qm_postings::Bm25StatisticsProvider;
use qm_schema::{IndexRecordOption, Occur, QueryError, Term};
use qm_scorer::AnyCombiner;
use qm_weight::{AnyWeight, BooleanWeight};
use std::alloc::Global;

/// Matches the documents that every Must clause matches, no MustNot clause does, and at least so many
/// Should clauses do, each counted once; at least one Must or Should clause has to match. Scores what
/// its Must and Should clauses score together.
#[cycle(queries)]
#[derive(Debug, Drop)]
pub struct BooleanQuery {
    subqueries: Vec<(Occur, Box<AnyQuery>)>,
    minimum_number_should_match: usize,
}

impl From<Vec<(Occur, Box<AnyQuery>)>> for BooleanQuery {
    ghost use Rattle.std.specs.Prelude.{◌≡◌, map};
    ghost use Rattle.qm_query.specs.Query.{boolean_of, boolean_of_clauses, clause_of};

    ghost from_gives = { λ clauses query. boolean_of query ≡ boolean_of_clauses (map clause_of clauses.items) };

    /// As [`BooleanQuery::new`].
    fn from(subqueries: Vec<(Occur, Box<AnyQuery>)>) -> BooleanQuery {
        BooleanQuery::new(subqueries)
    }
}

impl BooleanQuery {
    ghost use Rattle.qm_schema.specs.declared.occur.Occur.TheVariants.{Must, Should};
    ghost use Rattle.qm_query.specs.Query.{boolean, boolean_of, boolean_of_clauses, clause_of, clauses_of, default_minimum, each_as, minimum_of};
    ghost use Rattle.qm_query.specs.Query.{subqueries, subqueries_of, should_terms};

    /// The query of these clauses, in this order. Where there are Should clauses and no others, at
    /// least one of them has to match, and else none needs to. Takes no memory.
    pub fn new(subqueries: Vec<(Occur, Box<AnyQuery>)>) -> BooleanQuery
        ensures { boolean_of result ≡ boolean_of_clauses (map clause_of subqueries.items) }
    {
        let minimum = BooleanQuery::default_minimum(&subqueries);
        BooleanQuery::with_minimum_required_clauses(subqueries, minimum)
    }

    // The least number of Should clauses that has to match, where none is given.
    fn default_minimum(subqueries: &[(Occur, Box<AnyQuery>)]) -> usize
        ensures { result ≡ default_minimum (λ c. c.0) subqueries.now }
    {
        if are_should(subqueries) && subqueries.len() > 0 {
            1
        } else {
            0
        }
    }

    /// The query of these clauses, of which at least so many Should clauses have to match. Takes no
    /// memory.
    pub fn with_minimum_required_clauses(
        subqueries: Vec<(Occur, Box<AnyQuery>)>,
        minimum_number_should_match: usize,
    ) -> BooleanQuery
        ensures { boolean_of result ≡ boolean minimum_number_should_match (subqueries_of subqueries.items) }
    {
        BooleanQuery {
            subqueries,
            minimum_number_should_match,
        }
    }

    /// How many Should clauses have to match at least.
    pub fn get_minimum_number_should_match(&self) -> usize
        ensures { result ≡ minimum_of self.now }
    {
        self.minimum_number_should_match
    }

    /// Sets how many Should clauses have to match at least; the clauses stay. Takes no memory.
    pub fn set_minimum_number_should_match(&mut self, minimum_number_should_match: usize)
        ensures { boolean_of self.new ≡ boolean minimum_number_should_match (clauses_of self.old) }
    {
        self.minimum_number_should_match = minimum_number_should_match;
    }

    /// Matches what every one of these queries matches: each is a Must clause.
    ///
    /// Refused with [`QueryError::Memory`] alone.
    pub fn intersection(
        alloc: Global,
        queries: Vec<Box<AnyQuery>>,
    ) -> Result<BooleanQuery, QueryError>
        ensures ok { IfOk result (λ query. boolean_of query ≡ boolean_of_clauses (each_as Must queries.items)) }
        ensures refused { IsOkUnless result QueryError.Memory }
    {
        let clauses = clauses_that(alloc, Occur::Must, queries)?;
        Ok(BooleanQuery::new(clauses))
    }

    /// Matches what at least one of these queries matches: each is a Should clause.
    ///
    /// Refused with [`QueryError::Memory`] alone.
    pub fn union(alloc: Global, queries: Vec<Box<AnyQuery>>) -> Result<BooleanQuery, QueryError>
        ensures ok { IfOk result (λ query. boolean_of query ≡ boolean_of_clauses (each_as Should queries.items)) }
        ensures refused { IsOkUnless result QueryError.Memory }
    {
        let clauses = clauses_that(alloc, Occur::Should, queries)?;
        Ok(BooleanQuery::new(clauses))
    }

    /// Matches what at least so many of these queries match: each is a Should clause.
    ///
    /// Refused with [`QueryError::Memory`] alone.
    pub fn union_with_minimum_required_clauses(
        alloc: Global,
        queries: Vec<Box<AnyQuery>>,
        minimum_number_should_match: usize,
    ) -> Result<BooleanQuery, QueryError>
        ensures ok { IfOk result (λ query. boolean_of query ≡ boolean minimum_number_should_match (subqueries (each_as Should queries.items))) }
        ensures refused { IsOkUnless result QueryError.Memory }
    {
        let should = clauses_that(alloc, Occur::Should, queries)?;
        Ok(BooleanQuery::with_minimum_required_clauses(should, minimum_number_should_match))
    }

    /// Matches the documents that hold at least one of these terms: each is a Should clause, of which
    /// frequencies are read.
    ///
    /// Refused with [`QueryError::Memory`] alone.
    pub fn new_multiterms_query(alloc: Global, terms: Vec<Term>) -> Result<BooleanQuery, QueryError>
        ensures ok { IfOk result (λ query. boolean_of query ≡ boolean_of_clauses (should_terms terms.items)) }
        ensures refused { IsOkUnless result QueryError.Memory }
    {
        let mut clauses = Vec::with_capacity(alloc, terms.len())?;
        // the terms before this one are clauses that should match
        for term in terms {
            let query = TermQuery::new(term, IndexRecordOption::WithFreqs);
            clauses.push((Occur::Should, Box::new(alloc, AnyQuery::Term(query))?))?;
        }
        Ok(BooleanQuery::new(clauses))
    }

    /// The clauses, in order.
    pub fn clauses(&self) -> &[(Occur, Box<AnyQuery>)]
        ensures { subqueries_of result.now ≡ clauses_of self.now }
    {
        &self.subqueries
    }

    /// The same query, in memory of its own; costs a copy of all that stands below it.
    ///
    /// Refused with [`QueryError::Memory`] alone.
    #[cycle(clones)]
    pub fn clone(&self, alloc: Global) -> Result<BooleanQuery, QueryError>
        ensures same { IfOk result (λ query. boolean_of query ≡ boolean_of self.now) }
        ensures refused { IsOkUnless result QueryError.Memory }
    {
        let mut subqueries = Vec::with_capacity(alloc, self.subqueries.len())?;
        // the clauses before this one are copied
        for (occur, query) in &self.subqueries {
            let copy = Box::new(alloc, (**query).clone(alloc)?)?;
            subqueries.push((*occur, copy))?;
        }
        Ok(BooleanQuery {
            subqueries,
            minimum_number_should_match: self.minimum_number_should_match,
        })
    }

    // The weight of the query; see [`Query::weight`].
    #[cycle(weights)]
    pub(crate) fn build_weight<P: Bm25StatisticsProvider>(
        &self,
        alloc: Global,
        enable_scoring: EnableScoring<'_, P>,
    ) -> Result<Box<AnyWeight>, QueryError>
        ensures tree { IfOk result (λ weight. tree_of weight.value ≡ query_tree P.Bm25StatisticsProvider enable_scoring.entry (boolean_of self.now)) }
        ensures served { IfOk result (λ _. IsTrue (is_served (schema_of enable_scoring.entry) (boolean_of self.now))) }
        ensures refused { IfErr result (IsWeightRefusal P.Bm25StatisticsProvider enable_scoring.entry (boolean_of self.now)) }
    {
        if are_terms(self.subqueries.as_slice()) {
            return self.build_terms(alloc, enable_scoring);
        }
        let mut weights = Vec::with_capacity(alloc, self.subqueries.len())?;
        // the weights so far are those of the clauses so far, each behind how it occurs
        for (occur, query) in &self.subqueries {
            let weight = (**query).build_weight(alloc, enable_scoring)?;
            weights.push((*occur, weight))?;
        }
        let weight = BooleanWeight::with_minimum_number_should_match(
            weights,
            self.minimum_number_should_match,
            enable_scoring.is_scoring_enabled(),
            AnyCombiner::from(SumCombiner::default()),
        );
        boxed_boolean(alloc, weight)
    }

    // The weight of clauses that are terms, built in the order of the clauses.
    fn build_terms<P: Bm25StatisticsProvider>(
        &self,
        alloc: Global,
        enable_scoring: EnableScoring<'_, P>,
    ) -> Result<Box<AnyWeight>, QueryError>
        requires terms { AreTermClauses self.now.subqueries.items }
        ensures tree { IfOk result (λ weight. tree_of weight.value ≡ query_tree P.Bm25StatisticsProvider enable_scoring.entry (boolean_of self.now)) }
        ensures served { IfOk result (λ _. IsTrue (is_served (schema_of enable_scoring.entry) (boolean_of self.now))) }
        ensures refused { IfErr result (IsWeightRefusal P.Bm25StatisticsProvider enable_scoring.entry (boolean_of self.now)) }
    {
        let mut clauses = Vec::with_capacity(alloc, self.subqueries.len())?;
        // the clauses before this one have what their terms weigh
        for (occur, query) in &self.subqueries {
            let AnyQuery::Term(term) = &**query else {
                unreachable!();
            };
            clauses.push(term.term_clause(alloc, enable_scoring, *occur)?)?;
        }
        let minimum = self.minimum_number_should_match;
        let combiner = AnyCombiner::from(SumCombiner::default());
        boxed_terms(alloc, enable_scoring, clauses, minimum, combiner)
    }

    // A call with each term that the query names; see [`Query::query_terms`].
    #[cycle(visits)]
    pub(crate) fn visit_terms<F: FnMut(&Term, bool)>(&self, visitor: &mut F)
        requires allowed { MayVisitTerms F.FnMut visitor.old (terms_of_query (boolean_of self.now)) }
        ensures calls { VisitsTerms F.FnMut visitor.old (terms_of_query (boolean_of self.now)) visitor.new }
    {
        // the calls for the clauses that are left are those that are still to come
        for clause in &self.subqueries {
            visit_clause(clause, visitor);
        }
    }
}

// The calls for one clause, however it occurs.
#[cycle(visits)]
fn visit_clause<F: FnMut(&Term, bool)>(clause: &(Occur, Box<AnyQuery>), visitor: &mut F)
    requires allowed { MayVisitTerms F.FnMut visitor.old (terms_of_query (query_of clause.now.1.value)) }
    ensures calls { VisitsTerms F.FnMut visitor.old (terms_of_query (query_of clause.now.1.value)) visitor.new }
{
    (*clause.1).visit_terms(visitor);
}

// Whether the clauses are several terms. One clause alone has a weight that goes by what is inside.
fn are_terms(subqueries: &[(Occur, Box<AnyQuery>)]) -> bool
    ensures { result ≡ true → AreTermClauses subqueries.now }
{
    // all clauses before this one are terms
    for (_, query) in subqueries {
        if !is_term(query) {
            return false;
        }
    }
    subqueries.len() > 1
}

// Whether all clauses are Should clauses.
fn are_should(subqueries: &[(Occur, Box<AnyQuery>)]) -> bool
    ensures { result ≡ list_all (λ c. is_should c.0) subqueries.now }
{
    subqueries.iter().all(|clause| is_should(clause.0))
}

// Whether a clause that occurs so is a Should clause.
fn is_should(occur: Occur) -> bool
    ensures { result ≡ is_should occur }
{
    match occur {
        Occur::Should => true,
        Occur::Must | Occur::MustNot => false,
    }
}

// The queries as clauses that all occur in one way.
fn clauses_that(
    alloc: Global,
    occur: Occur,
    queries: Vec<Box<AnyQuery>>,
) -> Result<Vec<(Occur, Box<AnyQuery>)>, QueryError>
    ensures ok { IfOk result (λ clauses. clauses.items ≡ map (λ q. (occur, q)) queries.items) }
    ensures refused { IsOkUnless result QueryError.Memory }
{
    let clauses = queries.into_iter().map(|query| (occur, query));
    Ok(clauses.collect(alloc)?)
}

impl Query for BooleanQuery {
    ghost use Rattle.qm_query.specs.Query.{boolean_of};

    ghost query = { boolean_of };

    fn weight<P: Bm25StatisticsProvider>(
        &self,
        alloc: Global,
        enable_scoring: EnableScoring<'_, P>,
    ) -> Result<Box<AnyWeight>, QueryError> {
        self.build_weight(alloc, enable_scoring)
    }

    fn query_terms<F: FnMut(&Term, bool)>(&self, visitor: &mut F) {
        self.visit_terms(visitor);
    }
}
