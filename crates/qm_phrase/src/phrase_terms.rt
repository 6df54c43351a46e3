//! The terms of a phrase, as they are handed in with their offsets.

ghost use Rattle.std.specs.Prelude.{◌≡◌, ◌<◌, ◌++◌, ◌∷◌, [], IfOk, IsOkUnless, fold, length, map, max, slice_index_or};
ghost use Rattle.qm_docset.specs.Lists.{lists};
ghost use Rattle.qm_phrase.specs.TermRows.{AreInside, AreUsed};

use qm_postings::Postings;
use qm_schema::QueryError;
use std::alloc::Global;

/// The terms of a phrase, each with its offset, in any order, and with its postings. Terms that are equal
/// may share their postings: then these are moved once and their positions are read once for all of
/// them.
#[derive(Drop)]
pub struct PhraseTerms<P> {
    pub(crate) members: Vec<P>,
    // the offset of each term, and the number of its member
    pub(crate) terms: Vec<(usize, usize)>,
    ghost inside: { AreInside (length members.items) terms.items },
    ghost used: { AreUsed (length members.items) terms.items },
}

impl<P: Postings> PhraseTerms<P> {
    ghost use Rattle.qm_phrase.specs.PhraseTerms.{lists_given, members_of, offsets_of, terms_given};

    /// No term yet, with room for so many. Fails with [`QueryError::Memory`] alone.
    pub fn with_capacity(alloc: Global, count: usize) -> Result<PhraseTerms<P>, QueryError>
        ensures terms { IfOk result (λ made. terms_given made ≡ []) }
        ensures members { IfOk result (λ made. members_of made ≡ []) }
        ensures memory { IsOkUnless result QueryError.Memory }
    {
        let members = Vec::with_capacity(alloc, count)?;
        let terms = Vec::with_capacity(alloc, count)?;
        Ok(PhraseTerms { members, terms })
    }

    /// These terms, each with postings of its own. Fails with [`QueryError::Memory`] alone.
    pub fn from_postings(
        alloc: Global,
        term_postings: Vec<(usize, P)>,
    ) -> Result<PhraseTerms<P>, QueryError>
        ensures offsets { IfOk result (λ made. offsets_of made ≡ map (λ pair. pair.0) term_postings.items) }
        ensures lists { IfOk result (λ made. lists_given P.DocSet made ≡ map (λ pair. P.entries pair.1) term_postings.items) }
        ensures members { IfOk result (λ made. members_of made ≡ map (λ pair. pair.1) term_postings.items) }
        ensures memory { IsOkUnless result QueryError.Memory }
    {
        let mut made = PhraseTerms::with_capacity(alloc, term_postings.len())?;
        // those of the pairs so far are there
        for (offset, postings) in term_postings {
            made = made.with_term(offset, postings)?;
        }
        Ok(made)
    }

    /// One more term at an offset, with postings of its own, which are the last member. Fails with
    /// [`QueryError::Memory`] alone.
    pub fn with_term(self, offset: usize, postings: P) -> Result<PhraseTerms<P>, QueryError>
        ensures offsets { IfOk result (λ made. offsets_of made ≡ offsets_of self ++ offset ∷ []) }
        ensures lists { IfOk result (λ made. lists_given P.DocSet made ≡ lists_given P.DocSet self ++ P.entries postings ∷ []) }
        ensures members { IfOk result (λ made. members_of made ≡ members_of self ++ postings ∷ []) }
        ensures memory { IsOkUnless result QueryError.Memory }
    {
        let mut members = self.members;
        let mut terms = self.terms;
        terms.push((offset, members.len()))?;
        members.push(postings)?;
        Ok(PhraseTerms { members, terms })
    }

    /// One more term at an offset, which shares the postings of a member, counted from 0. Asks that there
    /// is such a member. Fails with [`QueryError::Memory`] alone.
    pub fn with_equal(self, offset: usize, member: usize) -> Result<PhraseTerms<P>, QueryError>
        requires { member < length (members_of self) }
        ensures offsets { IfOk result (λ made. offsets_of made ≡ offsets_of self ++ offset ∷ []) }
        ensures lists { IfOk result (λ made.
            lists_given P.DocSet made ≡ lists_given P.DocSet self ++ slice_index_or (lists P.DocSet (members_of self)) member [] ∷ []) }
        ensures members { IfOk result (λ made. members_of made ≡ members_of self) }
        ensures memory { IsOkUnless result QueryError.Memory }
    {
        let members = self.members;
        let mut terms = self.terms;
        terms.push((offset, member))?;
        Ok(PhraseTerms { members, terms })
    }

    /// How many members there are: the number of the next one.
    pub fn member_count(&self) -> usize
        ensures { result ≡ length (members_of self.now) }
    {
        self.members.len()
    }
}

/// The greatest offset, or 0 where there is no term.
pub(crate) fn greatest_offset(terms: &[(usize, usize)]) -> usize
    ensures { result ≡ fold max 0 (map (λ term. term.0) terms.now) }
{
    let mut greatest = 0usize;
    // the greatest of the offsets before this one
    for term in terms {
        greatest = greatest.max(term.0);
    }
    greatest
}
