//! The query for a phrase whose last term is a prefix.

ghost use Rattle.std.specs.Prelude.{◌≡◌, ◌≤◌, ◌⊎◌, [], ◌∷◌, ◌++◌, All, IfErr, IfOk, IsOkUnless, None, length, vec_len};
ghost use Rattle.std.specs.List.{enumerate_from};
ghost use Rattle.qm_query.specs.Offsets.{AreOfField, AreOfOneField, IsByOffset, row_refusal, bare_terms, terms_refusal, with_one};
ghost use Rattle.qm_query.specs.EnableScoring.{schema_of};
ghost use Rattle.qm_query.specs.Fields.{phrase_field_refusal, term_field_refusal};
ghost use Rattle.qm_query.specs.QueryTree.{full_prefix_tree};
ghost use Rattle.qm_query.specs.Refusals.{IsRefusedFor};
ghost use Rattle.qm_query.specs.WeightRefusals.{IsFullPrefixRefusal, IsLeafRefusal};
ghost use Rattle.qm_schema.specs.declared.error.QueryError.TheVariants.{Memory};
ghost use Rattle.qm_weight.specs.Weights.{prefix_alone, tree_of};

use crate::boxed::boxed;
use crate::enable_scoring::EnableScoring;
use crate::fields::{phrase_field_refusal, term_field_refusal};
use crate::leaf_weight::weighed_terms;
use crate::offsets::{
    clone_terms, clone_without_offsets, enumerate_terms, row_refusal, sort_by_offset, terms_refusal,
};
use crate::query::Query;
use crate::visits::visit_phrase;
use qm_postings::Bm25StatisticsProvider;
use qm_schema::{Field, QueryError, Schema, Term};
use qm_weight::{AnyWeight, PhrasePrefixWeight, PrefixWeight};
use std::alloc::Global;
use std::marker::Model;

// How many terms a prefix is expanded to, unless that is set.
const DEFAULT_MAX_EXPANSIONS: u32 = 50;

/// Matches the documents where terms of one field stand together, each at its offset, and a term of
/// that field that begins with the last of them, the prefix. Only the first terms that begin so are
/// looked for, in the order of bytes, and up to 50 of them unless another number is set. A prefix
/// alone matches the documents that hold one of these.
///
/// Contracts see it as the full terms with their offsets, in the order of these, the prefix with its
/// own, and the number of expansions. All of these terms are of one field, at offsets of at most
/// 4294967295.
#[derive(Debug, Drop)]
pub struct PhrasePrefixQuery {
    phrase_terms: Vec<(usize, Term)>,
    prefix: (usize, Term),
    max_expansions: u32,
}

impl Model for PhrasePrefixQuery {
    ghost use Rattle.std.specs.Prelude.{◌≤◌, All};
    ghost use Rattle.qm_query.specs.Offsets.{AreOfField};
    ghost use Rattle.qm_query.specs.Parts.{PrefixParts};

    ghost Value = { PrefixParts };

    ghost view = { λ q. record { terms = q.phrase_terms.items; prefix = q.prefix; max_expansions = q.max_expansions } };

    ghost invariant = { λ q. All (λ t. t.0 ≤ 4294967295) q.phrase_terms.items × (q.prefix.0 ≤ 4294967295) × AreOfField q.prefix.1.field q.phrase_terms.items };
}

impl PhrasePrefixQuery {
    /// A phrase of these terms, one behind the other, of which the last is the prefix.
    ///
    /// Refused, the first that holds, with [`QueryError::EmptyPrefix`] where there is no term, with
    /// [`QueryError::MixedFields`] where they are not of one field, with
    /// [`QueryError::OffsetTooLarge`] where there are more than 4294967296, and with
    /// [`QueryError::Memory`].
    pub fn new(alloc: Global, terms: Vec<Term>) -> Result<PhrasePrefixQuery, QueryError>
        ensures terms { IfOk result (λ query. query.terms ++ query.prefix ∷ [] ≡ enumerate_from 0 terms.items) }
        ensures expansions { IfOk result (λ query. query.max_expansions ≡ 50) }
        ensures refused { IsRefusedFor (with_one terms.items (row_refusal terms.items)) result }
    {
        if terms.len() < 1 {
            return Err(QueryError::EmptyPrefix);
        }
        if let Some(refusal) = row_refusal(&terms) {
            return Err(refusal);
        }
        Ok(PhrasePrefixQuery::of_sorted(enumerate_terms(alloc, terms)?))
    }

    /// A phrase of these terms with their offsets. The query brings them into the order of their
    /// offsets, those of one offset as they were given, and the last one is the prefix; costs that
    /// sort, whose memory is that of the terms' own allocator.
    ///
    /// Refused, the first that holds, with [`QueryError::EmptyPrefix`] where there is no term, with
    /// [`QueryError::MixedFields`] where they are not of one field, with
    /// [`QueryError::OffsetTooLarge`] and the first offset above 4294967295 where there is one, and
    /// with [`QueryError::Memory`].
    pub fn new_with_offset(
        _alloc: Global,
        mut terms: Vec<(usize, Term)>,
    ) -> Result<PhrasePrefixQuery, QueryError>
        ensures terms { IfOk result (λ query. IsByOffset terms.items (query.terms ++ query.prefix ∷ [])) }
        ensures expansions { IfOk result (λ query. query.max_expansions ≡ 50) }
        ensures refused { IsRefusedFor (with_one terms.items (terms_refusal terms.items)) result }
    {
        if terms.len() < 1 {
            return Err(QueryError::EmptyPrefix);
        }
        if let Some(refusal) = terms_refusal(&terms) {
            return Err(refusal);
        }
        sort_by_offset(&mut terms)?;
        Ok(PhrasePrefixQuery::of_sorted(terms))
    }

    // The last term is the prefix.
    fn of_sorted(mut terms: Vec<(usize, Term)>) -> PhrasePrefixQuery
        requires some { 1 ≤ vec_len terms }
        requires fit { All (λ t. t.0 ≤ 4294967295) terms.items }
        requires field { AreOfOneField terms.items }
        ensures terms { result.terms ++ result.prefix ∷ [] ≡ terms.items }
        ensures expansions { result.max_expansions ≡ 50 }
    {
        let prefix = terms.pop().unwrap();
        PhrasePrefixQuery {
            phrase_terms: terms,
            prefix,
            max_expansions: DEFAULT_MAX_EXPANSIONS,
        }
    }

    // The weight of the prefix alone, which no provider is asked for.
    fn prefix_weight(&self, alloc: Global, schema: &Schema) -> Result<Box<AnyWeight>, QueryError>
        ensures tree { IfOk result (λ weight. tree_of weight.value ≡ prefix_alone self.now.prefix.1 self.now.max_expansions) }
        ensures served { IfOk result (λ _. term_field_refusal schema.now self.now.prefix.1.field ≡ None) }
        ensures refused { IfErr result (λ error. (error ≡ Memory) ⊎ IsLeafRefusal (term_field_refusal schema.now self.now.prefix.1.field) (λ _. ⊥) error) }
    {
        if let Some(refusal) = term_field_refusal(schema, self.field()) {
            return Err(refusal);
        }
        let prefix = self.prefix.1.clone(alloc)?;
        let weight = PrefixWeight::new(prefix, self.max_expansions);
        boxed(alloc, AnyWeight::Prefix(weight))
    }

    // The weight where there is a full term. Of what these weigh the prefix is no part.
    fn full_weight<P: Bm25StatisticsProvider>(
        &self,
        alloc: Global,
        enable_scoring: EnableScoring<'_, P>,
    ) -> Result<Box<AnyWeight>, QueryError>
        requires some { 1 ≤ length self.now.terms }
        ensures tree { IfOk result (λ weight. tree_of weight.value ≡ full_prefix_tree P.Bm25StatisticsProvider enable_scoring.entry self.now) }
        ensures served { IfOk result (λ _. phrase_field_refusal (schema_of enable_scoring.entry) self.now.prefix.1.field ≡ None) }
        ensures refused { IfErr result (IsFullPrefixRefusal P.Bm25StatisticsProvider enable_scoring.entry self.now) }
    {
        if let Some(refusal) = phrase_field_refusal(enable_scoring.schema(), self.field()) {
            return Err(refusal);
        }
        let (terms, weight) = weighed_terms(alloc, enable_scoring, &self.phrase_terms)?;
        let prefix = (self.prefix.0, self.prefix.1.clone(alloc)?);
        let weight = PhrasePrefixWeight::new(terms, prefix, weight, self.max_expansions);
        boxed(alloc, AnyWeight::PhrasePrefix(weight))
    }

    /// Expands the prefix to so many terms at most. Takes no memory.
    pub fn set_max_expansions(&mut self, value: u32)
        ensures { self.new ≡ record self.old { max_expansions = value } }
    {
        self.max_expansions = value;
    }

    /// The field of the terms, in constant time.
    pub fn field(&self) -> Field
        ensures prefix { result ≡ self.now.prefix.1.field }
        ensures all { AreOfField result self.now.terms }
    {
        self.prefix.1.field()
    }

    /// The full terms in the order of their offsets, in memory of their own; the prefix is not among
    /// them.
    ///
    /// Refused with [`QueryError::Memory`] alone.
    pub fn phrase_terms(&self, alloc: Global) -> Result<Vec<Term>, QueryError>
        ensures terms { IfOk result (λ terms. terms.items ≡ bare_terms self.now.terms) }
        ensures refused { IsOkUnless result QueryError.Memory }
    {
        clone_without_offsets(alloc, &self.phrase_terms)
    }

    /// The same query, in memory of its own; costs a copy of the terms.
    ///
    /// Refused with [`QueryError::Memory`] alone.
    pub fn clone(&self, alloc: Global) -> Result<PhrasePrefixQuery, QueryError>
        ensures same { IfOk result (λ query. query ≡ self.now) }
        ensures refused { IsOkUnless result QueryError.Memory }
    {
        let (offset, prefix) = &self.prefix;
        Ok(PhrasePrefixQuery {
            phrase_terms: clone_terms(alloc, &self.phrase_terms)?,
            prefix: (*offset, prefix.clone(alloc)?),
            max_expansions: self.max_expansions,
        })
    }
}

impl Query for PhrasePrefixQuery {
    ghost use Rattle.qm_query.specs.Query.{phrase_prefix};

    ghost query = { phrase_prefix };

    fn weight<P: Bm25StatisticsProvider>(
        &self,
        alloc: Global,
        enable_scoring: EnableScoring<'_, P>,
    ) -> Result<Box<AnyWeight>, QueryError> {
        if self.phrase_terms.is_empty() {
            self.prefix_weight(alloc, enable_scoring.schema())
        } else {
            self.full_weight(alloc, enable_scoring)
        }
    }

    fn query_terms<F: FnMut(&Term, bool)>(&self, visitor: &mut F) {
        visit_phrase(&self.phrase_terms, visitor);
    }
}
