//! The query for a term.

ghost use Rattle.std.specs.Prelude.{◌≡◌, IfErr, IfOk, IsOkUnless, IsTrue};
ghost use Rattle.qm_weight.specs.Tree.{term as leaf_of};
ghost use Rattle.qm_weight.specs.Weights.{clause_occur, term_tree, tree_of, weighing_if};
ghost use Rattle.qm_query.specs.EnableScoring.{schema_of};
ghost use Rattle.qm_query.specs.Fields.{is_served};
ghost use Rattle.qm_query.specs.QueryScorers.{ScoresIfEnabled};
ghost use Rattle.qm_query.specs.QueryTree.{query_tree};
ghost use Rattle.qm_query.specs.SharedTerms.{StandsForQuery};
ghost use Rattle.qm_query.specs.WeightRefusals.{IsWeightRefusal};

use crate::boxed::boxed;
use crate::enable_scoring::EnableScoring;
use crate::fields::term_field_refusal;
use crate::leaf_weight::{leaf_weight, no_weight, shared_weight};
use crate::query::Query;
use crate::searches::count_holders;
use crate::visits::visit_term;
use qm_postings::{Bm25StatisticsProvider, Searcher};
use qm_schema::{IndexRecordOption, Occur, QueryError, Term};
use qm_term::{Bm25Weight, Explanation};
use qm_weight::{AnyWeight, TermClause, TermWeight};
use std::alloc::Global;
use std::marker::Model;
use std::slice;

/// Matches the documents that hold a term, and scores what the term weighs there.
///
/// Contracts see it as the term and what is read of its postings.
#[derive(Debug, Drop)]
pub struct TermQuery {
    term: Term,
    index_record_option: IndexRecordOption,
}

impl Model for TermQuery {
    ghost use Rattle.qm_query.specs.Parts.{TermParts};

    ghost Value = { TermParts };

    ghost view = { λ q. record { term = q.term; option = q.index_record_option } };
}

impl TermQuery {
    ghost use Rattle.qm_query.specs.Query.{term as term_query};

    /// The query for a term. The option says what is read of the term's postings: without frequencies
    /// each frequency counts as 1. Takes no memory.
    pub fn new(term: Term, segment_postings_options: IndexRecordOption) -> TermQuery
        ensures { result ≡ record { term = term; option = segment_postings_options } }
    {
        TermQuery {
            term,
            index_record_option: segment_postings_options,
        }
    }

    /// The term, in constant time.
    pub fn term(&self) -> &Term
        ensures { result.now ≡ self.now.term }
    {
        &self.term
    }

    /// The weight of the term, as it is before it becomes a weight of any kind; see
    /// [`Query::weight`].
    ///
    /// Refused with [`QueryError::UnknownField`] where the schema doesn't know the field, with
    /// [`QueryError::NotIndexed`] where it isn't indexed, with what the provider answers, and with
    /// [`QueryError::Memory`], the first that holds. Costs a copy of the term.
    pub fn specialized_weight<P: Bm25StatisticsProvider>(
        &self,
        alloc: Global,
        enable_scoring: EnableScoring<'_, P>,
    ) -> Result<TermWeight, QueryError>
        ensures tree { IfOk result (λ weight. term_tree weight ≡ query_tree P.Bm25StatisticsProvider enable_scoring.entry (term_query self.now)) }
        ensures scoring { IfOk result (λ weight. ScoresIfEnabled enable_scoring.entry (term_tree weight)) }
        ensures served { IfOk result (λ _. IsTrue (is_served (schema_of enable_scoring.entry) (term_query self.now))) }
        ensures refused { IfErr result (IsWeightRefusal P.Bm25StatisticsProvider enable_scoring.entry (term_query self.now)) }
    {
        if let Some(refusal) = term_field_refusal(enable_scoring.schema(), self.term.field()) {
            return Err(refusal);
        }
        let weight = leaf_weight(enable_scoring, slice::from_ref(&self.term))?;
        let term = self.term.clone(alloc)?;
        match weight {
            Some(weight) => Ok(TermWeight::new(term, self.index_record_option, weight, true)),
            None => Ok(TermWeight::new(term, IndexRecordOption::Basic, no_weight(), false)),
        }
    }

    // The weight of the term, made where it is kept: it is more than a kilobyte, and each result that it
    // is handed on in would cost a copy.
    fn boxed_weight(
        &self,
        alloc: Global,
        option: IndexRecordOption,
        similarity: &Bm25Weight,
        is_scored: bool,
    ) -> Result<Box<AnyWeight>, QueryError>
        ensures tree { IfOk result (λ weight. tree_of weight.value ≡ leaf_of self.now.term option (weighing_if is_scored similarity.now)) }
        ensures refused { IsOkUnless result QueryError.Memory }
    {
        let term = self.term.clone(alloc)?;
        let weight = TermWeight::new(term, option, *similarity, is_scored);
        boxed(alloc, AnyWeight::Term(weight))
    }

    // The term as a clause beside others, which share the norms. Refused as its weight is.
    pub(crate) fn term_clause<P: Bm25StatisticsProvider>(
        &self,
        alloc: Global,
        enable_scoring: EnableScoring<'_, P>,
        occur: Occur,
    ) -> Result<TermClause, QueryError>
        ensures occur { IfOk result (λ clause. clause_occur clause ≡ occur) }
        ensures tree { IfOk result (λ clause. StandsForQuery P.Bm25StatisticsProvider enable_scoring.entry (term_query self.now) clause) }
        ensures served { IfOk result (λ _. IsTrue (is_served (schema_of enable_scoring.entry) (term_query self.now))) }
        ensures refused { IfErr result (IsWeightRefusal P.Bm25StatisticsProvider enable_scoring.entry (term_query self.now)) }
    {
        if let Some(refusal) = term_field_refusal(enable_scoring.schema(), self.term.field()) {
            return Err(refusal);
        }
        let weight = shared_weight(enable_scoring, slice::from_ref(&self.term))?;
        let option = if enable_scoring.is_scoring_enabled() {
            self.index_record_option
        } else {
            IndexRecordOption::Basic
        };
        Ok(TermClause::new(occur, self.term.clone(alloc)?, option, weight))
    }

    /// The same query, in memory of its own; costs a copy of the term.
    ///
    /// Refused with [`QueryError::Memory`] alone.
    pub fn clone(&self, alloc: Global) -> Result<TermQuery, QueryError>
        ensures same { IfOk result (λ query. query ≡ self.now) }
        ensures refused { IsOkUnless result QueryError.Memory }
    {
        Ok(TermQuery {
            term: self.term.clone(alloc)?,
            index_record_option: self.index_record_option,
        })
    }
}

impl Query for TermQuery {
    ghost use Rattle.qm_query.specs.Query.{term};

    ghost query = { term };

    fn weight<P: Bm25StatisticsProvider>(
        &self,
        alloc: Global,
        enable_scoring: EnableScoring<'_, P>,
    ) -> Result<Box<AnyWeight>, QueryError> {
        if let Some(refusal) = term_field_refusal(enable_scoring.schema(), self.term.field()) {
            return Err(refusal);
        }
        match enable_scoring {
            EnableScoring::Enabled {
                statistics_provider,
                ..
            } => match Bm25Weight::for_terms(statistics_provider, slice::from_ref(&self.term)) {
                Ok(weight) => self.boxed_weight(alloc, self.index_record_option, &weight, true),
                Err(error) => Err(error),
            },
            EnableScoring::Disabled { .. } => {
                self.boxed_weight(alloc, IndexRecordOption::Basic, &no_weight(), false)
            }
        }
    }

    fn count(&self, _alloc: Global, searcher: &Searcher) -> Result<usize, QueryError> {
        match term_field_refusal(searcher.schema(), self.term.field()) {
            Some(refusal) => Err(refusal),
            None => Ok(count_holders(searcher, &self.term)),
        }
    }

    fn query_terms<F: FnMut(&Term, bool)>(&self, visitor: &mut F) {
        visit_term(&self.term, false, visitor);
    }
}
