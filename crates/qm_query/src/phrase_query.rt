//! The query for a phrase.

ghost use Rattle.std.specs.Prelude.{◌≡◌, IfOk, IsOkUnless};
ghost use Rattle.std.specs.List.{enumerate_from};
ghost use Rattle.qm_query.specs.Offsets.{AreOfField, IsByOffset, first_field, row_refusal, bare_terms, terms_refusal, with_two};
ghost use Rattle.qm_query.specs.Refusals.{IsRefusedFor};

use crate::boxed::boxed;
use crate::enable_scoring::EnableScoring;
use crate::fields::phrase_field_refusal;
use crate::leaf_weight::weighed_terms;
use crate::offsets::{
    clone_terms, clone_without_offsets, enumerate_terms, row_refusal, sort_by_offset, terms_refusal,
};
use crate::query::Query;
use crate::visits::visit_phrase;
use qm_postings::Bm25StatisticsProvider;
use qm_schema::{Field, QueryError, Term};
use qm_weight::{AnyWeight, PhraseWeight};
use std::alloc::Global;
use std::marker::Model;

/// Matches the documents where terms of one field stand together, each at its offset from where the
/// phrase begins, or up to `slop` places past that.
///
/// Contracts see it as the terms with their offsets, in the order of these, and the slop. The terms of
/// every phrase are two or more, of one field, at offsets of at most 4294967295.
#[derive(Debug, Drop)]
pub struct PhraseQuery {
    phrase_terms: Vec<(usize, Term)>,
    slop: u32,
}

impl Model for PhraseQuery {
    ghost use Rattle.std.specs.Prelude.{◌≤◌, All, length};
    ghost use Rattle.qm_query.specs.Offsets.{AreOfOneField};
    ghost use Rattle.qm_query.specs.Parts.{PhraseParts};

    ghost Value = { PhraseParts };

    ghost view = { λ q. record { terms = q.phrase_terms.items; slop = q.slop } };

    ghost invariant = { λ q. (2 ≤ length q.phrase_terms.items) × All (λ t. t.0 ≤ 4294967295) q.phrase_terms.items × AreOfOneField q.phrase_terms.items };
}

impl PhraseQuery {
    /// A phrase of these terms, one behind the other, with a slop of 0.
    ///
    /// Refused, the first that holds, with [`QueryError::TooFewTerms`] where there are fewer than two
    /// terms, with [`QueryError::MixedFields`] where they are not of one field, with
    /// [`QueryError::OffsetTooLarge`] where there are more than 4294967296, and with
    /// [`QueryError::Memory`].
    pub fn new(alloc: Global, terms: Vec<Term>) -> Result<PhraseQuery, QueryError>
        ensures made { IfOk result (λ query. query ≡ record { terms = enumerate_from 0 terms.items; slop = 0 }) }
        ensures refused { IsRefusedFor (with_two terms.items (row_refusal terms.items)) result }
    {
        if terms.len() < 2 {
            return Err(QueryError::TooFewTerms);
        }
        if let Some(refusal) = row_refusal(&terms) {
            return Err(refusal);
        }
        Ok(PhraseQuery {
            phrase_terms: enumerate_terms(alloc, terms)?,
            slop: 0,
        })
    }

    /// A phrase of these terms with their offsets, and with a slop of 0; see
    /// [`PhraseQuery::new_with_offset_and_slop`].
    pub fn new_with_offset(
        alloc: Global,
        terms: Vec<(usize, Term)>,
    ) -> Result<PhraseQuery, QueryError>
        ensures terms { IfOk result (λ query. IsByOffset terms.items query.terms) }
        ensures slop { IfOk result (λ query. query.slop ≡ 0) }
        ensures refused { IsRefusedFor (with_two terms.items (terms_refusal terms.items)) result }
    {
        PhraseQuery::new_with_offset_and_slop(alloc, terms, 0)
    }

    /// A phrase of these terms with their offsets. Each may stand up to `slop` places past where it
    /// belongs. The query keeps them in the order of their offsets, those of one offset as they were
    /// given; costs that sort, whose memory is that of the terms' own allocator.
    ///
    /// Refused, the first that holds, with [`QueryError::TooFewTerms`] where there are fewer than two
    /// terms, with [`QueryError::MixedFields`] where they are not of one field, with
    /// [`QueryError::OffsetTooLarge`] and the first offset above 4294967295 where there is one, and
    /// with [`QueryError::Memory`].
    pub fn new_with_offset_and_slop(
        _alloc: Global,
        mut terms: Vec<(usize, Term)>,
        slop: u32,
    ) -> Result<PhraseQuery, QueryError>
        ensures terms { IfOk result (λ query. IsByOffset terms.items query.terms) }
        ensures slop { IfOk result (λ query. query.slop ≡ slop) }
        ensures refused { IsRefusedFor (with_two terms.items (terms_refusal terms.items)) result }
    {
        if terms.len() < 2 {
            return Err(QueryError::TooFewTerms);
        }
        if let Some(refusal) = terms_refusal(&terms) {
            return Err(refusal);
        }
        sort_by_offset(&mut terms)?;
        Ok(PhraseQuery {
            phrase_terms: terms,
            slop,
        })
    }

    /// Lets each term stand up to so many places past where it belongs. Takes no memory.
    pub fn set_slop(&mut self, slop: u32)
        ensures { self.new ≡ record self.old { slop = slop } }
    {
        self.slop = slop;
    }

    /// The field of the terms, in constant time.
    pub fn field(&self) -> Field
        ensures first { result ≡ first_field (λ t. t.1) self.now.terms }
        ensures all { AreOfField result self.now.terms }
    {
        self.phrase_terms[0].1.field()
    }

    /// The terms in the order of their offsets, in memory of their own.
    ///
    /// Refused with [`QueryError::Memory`] alone.
    pub fn phrase_terms(&self, alloc: Global) -> Result<Vec<Term>, QueryError>
        ensures terms { IfOk result (λ terms. terms.items ≡ bare_terms self.now.terms) }
        ensures refused { IsOkUnless result QueryError.Memory }
    {
        clone_without_offsets(alloc, &self.phrase_terms)
    }

    /// The same query, in memory of its own; costs a copy of the terms.
    ///
    /// Refused with [`QueryError::Memory`] alone.
    pub fn clone(&self, alloc: Global) -> Result<PhraseQuery, QueryError>
        ensures same { IfOk result (λ query. query ≡ self.now) }
        ensures refused { IsOkUnless result QueryError.Memory }
    {
        Ok(PhraseQuery {
            phrase_terms: clone_terms(alloc, &self.phrase_terms)?,
            slop: self.slop,
        })
    }
}

impl Query for PhraseQuery {
    ghost use Rattle.qm_query.specs.Query.{phrase};

    ghost query = { phrase };

    fn weight<P: Bm25StatisticsProvider>(
        &self,
        alloc: Global,
        enable_scoring: EnableScoring<'_, P>,
    ) -> Result<Box<AnyWeight>, QueryError> {
        if let Some(refusal) = phrase_field_refusal(enable_scoring.schema(), self.field()) {
            return Err(refusal);
        }
        let (terms, weight) = weighed_terms(alloc, enable_scoring, &self.phrase_terms)?;
        let mut weight = PhraseWeight::new(terms, weight);
        weight.slop(self.slop);
        boxed(alloc, AnyWeight::Phrase(weight))
    }

    fn query_terms<F: FnMut(&Term, bool)>(&self, visitor: &mut F) {
        visit_phrase(&self.phrase_terms, visitor);
    }
}
