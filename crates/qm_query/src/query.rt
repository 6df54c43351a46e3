//! What every query can do.
//!
//! `count` and `explain` have bodies over the query's own weight, so that a query of one's own owes the other two
//! alone.

ghost use Rattle.std.specs.Prelude.{◌≡◌, IfErr, IfOk, IsOkUnless, IsTrue};
ghost use Rattle.qm_term.specs.Explained.{value_of};
ghost use Rattle.qm_weight.specs.Weights.{tree_of};
ghost use Rattle.qm_query.specs.EnableScoring.{schema_of};
ghost use Rattle.qm_query.specs.Fields.{is_served};
ghost use Rattle.qm_query.specs.Query.{Query, query_of};
ghost use Rattle.qm_query.specs.QueryScorers.{QueryFits, ScoresIfEnabled};
ghost use Rattle.qm_query.specs.QueryTerms.{MayVisitTerms, VisitsTerms, terms_of_query};
ghost use Rattle.qm_query.specs.QueryTree.{query_tree};
ghost use Rattle.qm_query.specs.Searches.{IsCountOf, IsCountRefusal, IsExplainedAt, IsUnexplainedAt, without_scores};
ghost use Rattle.qm_query.specs.WeightRefusals.{IsWeightRefusal};

use crate::all_query::AllQuery;
use crate::any_query::AnyQuery;
use crate::boolean_query::BooleanQuery;
use crate::boost_query::BoostQuery;
use crate::const_score_query::ConstScoreQuery;
use crate::disjunction_max_query::DisjunctionMaxQuery;
use crate::empty_query::EmptyQuery;
use crate::enable_scoring::EnableScoring;
use crate::phrase_prefix_query::PhrasePrefixQuery;
use crate::phrase_query::PhraseQuery;
use crate::searches::{count_fitting, segment_at};
use crate::term_query::TermQuery;
use qm_postings::{Bm25StatisticsProvider, DocAddress, Searcher};
use qm_schema::{QueryError, Term};
use qm_term::Explanation;
use qm_weight::{AnyWeight, Weight};
use std::alloc::Global;

/// What is asked for, whatever segment it is asked of.
pub trait Query {
    // the query that a value is
    ghost query: { Self → Query };

    /// The weight of the query: the tree that it comes down to where scores are wanted, with what the
    /// provider answers for the terms of each leaf, or where they are not. Then no provider is asked,
    /// boosts and constant scores are left away, and the postings of a term are read for the
    /// documents alone. A query that takes the best of several scores has them as Should clauses, of
    /// which one has to match, under its own combiner. Where scores are wanted, every node of the tree
    /// scores.
    ///
    /// Refused, where more than one is due with what the first leaf says in the order of the clauses,
    /// of a leaf the field before the provider: with [`QueryError::UnknownField`] where the schema
    /// doesn't know a field, with [`QueryError::NotIndexed`] where a term or a prefix alone is on a
    /// field that isn't indexed, with [`QueryError::NoPositions`] where a phrase, or a prefix behind
    /// full terms, is on a field without positions, with what the provider answers, and with
    /// [`QueryError::Memory`]. Costs a copy of the terms of the query.
    fn weight<P: Bm25StatisticsProvider>(
        &self,
        alloc: Global,
        enable_scoring: EnableScoring<'_, P>,
    ) -> Result<Box<AnyWeight>, QueryError>
        ensures tree { IfOk result (λ weight. tree_of weight.value ≡ query_tree P.Bm25StatisticsProvider enable_scoring.entry (query self.now)) }
        ensures scoring { IfOk result (λ weight. ScoresIfEnabled enable_scoring.entry (tree_of weight.value)) }
        ensures served { IfOk result (λ _. IsTrue (is_served (schema_of enable_scoring.entry) (query self.now))) }
        ensures refused { IfErr result (IsWeightRefusal P.Bm25StatisticsProvider enable_scoring.entry (query self.now)) };

    /// How many documents of all segments of a searcher match and weren't deleted, with scoring off.
    ///
    /// Refused as [`weight`](Query::weight) is, then with [`QueryError::ScoreBound`] exactly where the
    /// query doesn't fit, whatever the segments are, and else with [`QueryError::Memory`] alone. Builds the
    /// weight once, and costs what `Weight::count` does for each segment. A term is counted without a weight: it
    /// takes no memory, and is refused for its field alone.
    fn count(&self, alloc: Global, searcher: &Searcher) -> Result<usize, QueryError>
        ensures count { IfOk result (IsCountOf ⟦<Searcher as Bm25StatisticsProvider>⟧ searcher.now (query self.now)) }
        ensures fits { IfOk result (λ _. QueryFits ⟦<Searcher as Bm25StatisticsProvider>⟧ (without_scores searcher.now) (query self.now)) }
        ensures served { IfOk result (λ _. IsTrue (is_served searcher.now.schema (query self.now))) }
        ensures refused { IfErr result (IsCountRefusal ⟦<Searcher as Bm25StatisticsProvider>⟧ searcher.now (query self.now)) }
    {
        let enable_scoring = EnableScoring::<Searcher>::disabled_from_searcher(searcher);
        let weight = self.weight(alloc, enable_scoring)?;
        count_fitting(&weight, alloc, searcher)
    }

    /// Why a document of a segment of the searcher scores what it does, by the weights that the
    /// searcher gives to terms; a deleted one too. The value is its score, at a boost of 1.
    ///
    /// Refused with [`QueryError::NoSuchSegment`], before anything else is done, exactly where the
    /// searcher has no such segment; with [`QueryError::DoesNotMatch`] only where the query doesn't
    /// match the document; and else as [`weight`](Query::weight) is, and then as `Weight::explain` is.
    /// Costs what these two cost.
    fn explain(
        &self,
        alloc: Global,
        searcher: &Searcher,
        address: DocAddress,
    ) -> Result<Explanation, QueryError>
        ensures explained { IfOk result (λ e. IsExplainedAt ⟦<Searcher as Bm25StatisticsProvider>⟧ searcher.now (query self.now) address (value_of e)) }
        ensures refused { IfErr result (IsUnexplainedAt ⟦<Searcher as Bm25StatisticsProvider>⟧ searcher.now (query self.now) address) }
    {
        let reader = segment_at(searcher, address)?;
        let weight = self.weight(alloc, EnableScoring::enabled_from_searcher(searcher))?;
        (*weight).explain(alloc, reader, address.doc_id)
    }

    /// Calls `visitor` with each term that the query names, and with whether its positions are wanted, in
    /// the order of the clauses, those of a MustNot too: with a term that is asked for by itself and
    /// `false`, with each term of a phrase, in the order of the offsets, and `true`, and of a phrase
    /// prefix with the full terms and `true`, and not with the prefix.
    ///
    /// Asks that the visitor may be called so, whatever the calls before left of it. Takes no memory and
    /// is never refused. Costs a call a term.
    fn query_terms<F: FnMut(&Term, bool)>(&self, visitor: &mut F)
        requires allowed { MayVisitTerms F.FnMut visitor.old (terms_of_query (query self.now)) }
        ensures calls { VisitsTerms F.FnMut visitor.old (terms_of_query (query self.now)) visitor.new };
}

/// A query that can be copied as a query of any kind.
pub trait QueryClone {
    // the query that a value is
    ghost asked: { Self → Query };

    /// The same query as a query of any kind, in memory of its own; costs a copy of all that stands
    /// below it.
    ///
    /// Refused with [`QueryError::Memory`] alone.
    fn box_clone(&self, alloc: Global) -> Result<Box<AnyQuery>, QueryError>
        ensures same { IfOk result (λ copy. query_of copy.value ≡ asked self.now) }
        ensures refused { IsOkUnless result QueryError.Memory };
}

impl QueryClone for AllQuery {
    ghost use Rattle.qm_query.specs.Query.{all};

    ghost asked = { λ _. all };

    fn box_clone(&self, alloc: Global) -> Result<Box<AnyQuery>, QueryError> {
        Ok(Box::new(alloc, AnyQuery::All(self.clone(alloc)?))?)
    }
}

impl QueryClone for EmptyQuery {
    ghost use Rattle.qm_query.specs.Query.{none};

    ghost asked = { λ _. none };

    fn box_clone(&self, alloc: Global) -> Result<Box<AnyQuery>, QueryError> {
        Ok(Box::new(alloc, AnyQuery::Empty(self.clone(alloc)?))?)
    }
}

impl QueryClone for TermQuery {
    ghost use Rattle.qm_query.specs.Query.{term};

    ghost asked = { term };

    fn box_clone(&self, alloc: Global) -> Result<Box<AnyQuery>, QueryError> {
        Ok(Box::new(alloc, AnyQuery::Term(self.clone(alloc)?))?)
    }
}

impl QueryClone for PhraseQuery {
    ghost use Rattle.qm_query.specs.Query.{phrase};

    ghost asked = { phrase };

    fn box_clone(&self, alloc: Global) -> Result<Box<AnyQuery>, QueryError> {
        Ok(Box::new(alloc, AnyQuery::Phrase(self.clone(alloc)?))?)
    }
}

impl QueryClone for PhrasePrefixQuery {
    ghost use Rattle.qm_query.specs.Query.{phrase_prefix};

    ghost asked = { phrase_prefix };

    fn box_clone(&self, alloc: Global) -> Result<Box<AnyQuery>, QueryError> {
        Ok(Box::new(alloc, AnyQuery::PhrasePrefix(self.clone(alloc)?))?)
    }
}

impl QueryClone for BooleanQuery {
    ghost use Rattle.qm_query.specs.Query.{boolean_of};

    ghost asked = { boolean_of };

    fn box_clone(&self, alloc: Global) -> Result<Box<AnyQuery>, QueryError> {
        Ok(Box::new(alloc, AnyQuery::Boolean(self.clone(alloc)?))?)
    }
}

impl QueryClone for BoostQuery {
    ghost use Rattle.qm_query.specs.Query.{boost_of};

    ghost asked = { boost_of };

    fn box_clone(&self, alloc: Global) -> Result<Box<AnyQuery>, QueryError> {
        Ok(Box::new(alloc, AnyQuery::Boost(self.clone(alloc)?))?)
    }
}

impl QueryClone for ConstScoreQuery {
    ghost use Rattle.qm_query.specs.Query.{constant_of};

    ghost asked = { constant_of };

    fn box_clone(&self, alloc: Global) -> Result<Box<AnyQuery>, QueryError> {
        Ok(Box::new(alloc, AnyQuery::ConstScore(self.clone(alloc)?))?)
    }
}

impl QueryClone for DisjunctionMaxQuery {
    ghost use Rattle.qm_query.specs.Query.{disjunction_max_of};

    ghost asked = { disjunction_max_of };

    fn box_clone(&self, alloc: Global) -> Result<Box<AnyQuery>, QueryError> {
        Ok(Box::new(alloc, AnyQuery::DisjunctionMax(self.clone(alloc)?))?)
    }
}

impl QueryClone for AnyQuery {
    ghost use Rattle.qm_query.specs.Query.{query_of};

    ghost asked = { query_of };

    fn box_clone(&self, alloc: Global) -> Result<Box<AnyQuery>, QueryError> {
        Ok(Box::new(alloc, self.clone(alloc)?)?)
    }
}

impl Query for AnyQuery {
    ghost use Rattle.qm_query.specs.Query.{query_of};

    ghost query = { query_of };

    fn weight<P: Bm25StatisticsProvider>(
        &self,
        alloc: Global,
        enable_scoring: EnableScoring<'_, P>,
    ) -> Result<Box<AnyWeight>, QueryError> {
        self.build_weight(alloc, enable_scoring)
    }

    fn count(&self, alloc: Global, searcher: &Searcher) -> Result<usize, QueryError> {
        if let AnyQuery::Term(query) = self {
            return query.count(alloc, searcher);
        }
        let enable_scoring = EnableScoring::<Searcher>::disabled_from_searcher(searcher);
        let weight = self.build_weight(alloc, enable_scoring)?;
        count_fitting(&weight, alloc, searcher)
    }

    fn query_terms<F: FnMut(&Term, bool)>(&self, visitor: &mut F) {
        self.visit_terms(visitor);
    }
}

impl Query for Box<AnyQuery> {
    ghost use Rattle.qm_query.specs.Query.{query_of};

    ghost query = { λ q. query_of q.value };

    fn weight<P: Bm25StatisticsProvider>(
        &self,
        alloc: Global,
        enable_scoring: EnableScoring<'_, P>,
    ) -> Result<Box<AnyWeight>, QueryError> {
        (**self).build_weight(alloc, enable_scoring)
    }

    fn count(&self, alloc: Global, searcher: &Searcher) -> Result<usize, QueryError> {
        (**self).count(alloc, searcher)
    }

    fn query_terms<F: FnMut(&Term, bool)>(&self, visitor: &mut F) {
        (**self).visit_terms(visitor);
    }
}

impl QueryClone for Box<AnyQuery> {
    ghost use Rattle.qm_query.specs.Query.{query_of};

    ghost asked = { λ q. query_of q.value };

    fn box_clone(&self, alloc: Global) -> Result<Box<AnyQuery>, QueryError> {
        Ok(Box::new(alloc, (**self).clone(alloc)?)?)
    }
}
