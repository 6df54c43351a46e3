//! A term: a text of a field.
//!
//! `Term` has no `Clone`, whose `clone` has no place for an allocator. Its own takes one.

ghost use Rattle.std.specs.Prelude.{◌≡◌, IfOk, IsOkUnless};

use crate::error::QueryError;
use crate::field::Field;
use std::alloc::Global;
use std::cmp::Ordering;
use std::marker::Model;

mod term_bytes;

use term_bytes::TermBytes;

/// A term: a field and the bytes of a text, one word as a rule.
///
/// Terms are ordered by field, then by bytes, each byte as a number, and a text comes before every
/// longer one that it begins. Contracts see a term as the field's number and the bytes.
#[derive(Debug, Drop)]
pub struct Term {
    field: Field,
    bytes: TermBytes,
}

impl Model for Term {
    ghost use Rattle.qm_schema.specs.Term.{TermKey, term_code};

    ghost Value = { TermKey };

    ghost coded = { term_code };

    ghost view = { λ t. record { field = t.field; bytes = t.bytes } };
}

impl Term {
    /// The term of that field whose bytes are those of `text`, which may be empty; costs a copy of
    /// it, which takes no memory where it has at most 14 bytes.
    ///
    /// Refused with [`QueryError::Memory`] alone.
    pub fn from_field_text(alloc: Global, field: Field, text: &str) -> Result<Term, QueryError>
        ensures ok { IfOk result (λ term. term ≡ record { field = field; bytes = text.now }) }
        ensures refused { IsOkUnless result QueryError.Memory }
    {
        Term::from_field_bytes(alloc, field, text.as_bytes())
    }

    /// The term of that field with these bytes, which need not be those of a text and may be none; costs a copy of
    /// them, which takes no memory where they are at most 14.
    ///
    /// Refused with [`QueryError::Memory`] alone.
    pub fn from_field_bytes(alloc: Global, field: Field, bytes: &[u8]) -> Result<Term, QueryError>
        ensures ok { IfOk result (λ term. term ≡ record { field = field; bytes = bytes.now }) }
        ensures refused { IsOkUnless result QueryError.Memory }
    {
        let bytes = TermBytes::from_slice(alloc, bytes)?;
        Ok(Term { field, bytes })
    }

    /// The term's field, in constant time.
    pub fn field(&self) -> Field
        ensures { result ≡ self.now.field }
    {
        self.field
    }

    /// The bytes of the term's text, in constant time.
    pub fn serialized_value_bytes(&self) -> &[u8]
        ensures { result.now ≡ self.now.bytes }
    {
        self.bytes.as_slice()
    }

    /// The same term again, in memory of its own from `alloc`; costs a copy of its bytes, which takes none where
    /// they are at most 14.
    ///
    /// Refused with [`QueryError::Memory`] alone.
    pub fn clone(&self, alloc: Global) -> Result<Term, QueryError>
        ensures ok { IfOk result (λ term. term ≡ self.now) }
        ensures refused { IsOkUnless result QueryError.Memory }
    {
        let bytes = TermBytes::from_slice(alloc, self.bytes.as_slice())?;
        Ok(Term {
            field: self.field,
            bytes,
        })
    }
}

impl PartialEq for Term {
    ghost use Rattle.std.specs.Ordering.{eq_by_cmp};
    ghost use Rattle.std.specs.Cmp.{partial_equiv_from_equiv};
    ghost use Rattle.qm_schema.specs.Term.{term_cmp, term_eq_laws};

    ghost eq = { eq_by_cmp term_cmp };

    ghost laws = { partial_equiv_from_equiv term_eq_laws };

    #[tactic(auto, using(crate::specs::Term::term_parts))]
    fn eq(&self, other: &Term) -> bool {
        self.field == other.field && self.bytes.as_slice() == other.bytes.as_slice()
    }
}

impl Eq for Term {
    ghost use Rattle.qm_schema.specs.Term.{term_eq_laws};

    ghost laws = { term_eq_laws };
}

impl PartialOrd for Term {
    ghost use Rattle.std.specs.Ordering.{as_partial_cmp};
    ghost use Rattle.std.specs.Cmp.{partial_order_from_total};
    ghost use Rattle.qm_schema.specs.Term.{term_cmp, term_cmp_total};

    ghost partial_cmp = { as_partial_cmp term_cmp };

    ghost laws = { partial_order_from_total term_cmp_total };

    fn partial_cmp(&self, other: &Term) -> Option<Ordering> {
        Some(self.cmp(other))
    }
}

impl Ord for Term {
    ghost use Rattle.std.proofs.Common.{refl};
    ghost use Rattle.qm_schema.specs.Term.{term_cmp, term_cmp_total};

    ghost cmp = { term_cmp };

    ghost total = { term_cmp_total };

    ghost matches_partial_cmp = { λ x y. refl };

    ghost matches_eq = { λ x y. refl };

    #[tactic(auto, using(crate::specs::Term::term_parts))]
    fn cmp(&self, other: &Term) -> Ordering {
        let by_field = self.field.field_id().cmp(&other.field.field_id());
        match by_field {
            Ordering::Equal => self.bytes.as_slice().cmp(other.bytes.as_slice()),
            Ordering::Less | Ordering::Greater => by_field,
        }
    }
}
