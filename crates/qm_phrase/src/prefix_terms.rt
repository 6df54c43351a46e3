//! The terms of a phrase prefix: the full ones, and those that begin with the prefix.

ghost use Rattle.std.specs.Prelude.{◌≡◌, ◌<◌, ◌≤◌, All, IfOk, length};
ghost use Rattle.qm_docset.specs.Lists.{lists};
ghost use Rattle.qm_phrase.specs.PhrasePrefix.{has_several, lists_over};
ghost use Rattle.qm_phrase.specs.PhraseTerms.{lists_given, members_of, offsets_of, terms_given};
ghost use Rattle.qm_phrase.specs.PrefixTerms.{ArePrefixTerms, HaveGoneOn, IsFirstPrefix, IsPrefixLook, lists_of};

use crate::phrase_terms::{PhraseTerms, greatest_offset};
use crate::places::Places;
use crate::suffixes::{Suffix, count_suffixes, row_of_suffixes};
use crate::terms::TermPlaces;
use qm_docset::{DocId, DocSet, TERMINATED};
use qm_postings::Postings;
use std::alloc::{AllocError, Global};

/// How many places of a document the full terms have in common, and how many of these the terms that
/// begin with the prefix have, all together; each held at 4294967295.
#[derive(Clone, Copy)]
pub(crate) struct PrefixCounts {
    pub(crate) prefix: u32,
    pub(crate) full: u32,
}

/// The full terms, and those that begin with the prefix, with one more buffer for the places that all
/// full terms have in common, and one for all that begin with the prefix. They need not stand anywhere
/// between two calls.
#[derive(Drop)]
pub(crate) struct PrefixTerms<P> {
    full: TermPlaces<P>,
    common: Places,
    suffixes: Vec<Suffix<P>>,
    suffix_places: Places,
}

impl<P: Postings> PrefixTerms<P> {
    /// At least one full term, each with its offset, and the terms that begin with the prefix, which
    /// has an offset too. Fails where there is no room for the terms or for as many positions of one
    /// as its `max_term_freq` says.
    pub(crate) fn new(
        alloc: Global,
        terms: PhraseTerms<P>,
        suffixes: Vec<P>,
        suffix_pos: usize,
    ) -> Result<PrefixTerms<P>, AllocError>
        requires some { 1 ≤ length (terms_given terms) }
        requires valid { All P.valid (members_of terms) }
        requires suffixes { All P.valid suffixes.items }
        requires offsets { All (λ offset. offset ≤ 4294967295) (offsets_of terms) }
        requires suffix_pos { suffix_pos ≤ 4294967295 }
        ensures valid { IfOk result (ArePrefixTerms P.DocSet) }
        ensures lists { IfOk result (λ s.
            lists_of P.DocSet s ≡ lists_over (offsets_of terms) (lists_given P.DocSet terms) suffix_pos (lists P.DocSet suffixes.items)) }
    {
        let greatest = greatest_offset(&terms.terms).max(suffix_pos);
        let full = TermPlaces::new(alloc, terms, greatest)?;
        let common = full.common_buffer(alloc)?;
        let shift = greatest.saturating_sub(suffix_pos) as u32;
        let suffix_places = Places::with_room(alloc, shift, greatest_freq(&suffixes))?;
        let suffixes = row_of_suffixes(alloc, suffixes, &suffix_places)?;
        Ok(PrefixTerms {
            full,
            common,
            suffixes,
            suffix_places,
        })
    }

    /// Whether there are two full terms or more.
    pub(crate) fn has_several(&self) -> bool
        ensures { result ≡ has_several (lists_of P.DocSet self.now) }
    {
        self.full.rows.len() >= 2
    }

    /// Looks at one document: answers its counts, of which that of the prefix is not 0; or a bound past
    /// it before which no document has such counts. The terms that begin with the prefix are asked only
    /// where the full ones stand together. Takes no memory.
    pub(crate) fn look_at(&mut self, doc: DocId) -> Result<PrefixCounts, DocId>
        requires valid { ArePrefixTerms P.DocSet self.old }
        requires doc { doc < TERMINATED }
        ensures answer { IsPrefixLook doc (lists_of P.DocSet self.old) result }
        ensures moved { HaveGoneOn doc (lists_of P.DocSet self.old) (lists_of P.DocSet self.new) }
        ensures valid { ArePrefixTerms P.DocSet self.new }
    {
        let full = self.full.look_at_full(&mut self.common, doc)?;
        let suffix_places = &mut self.suffix_places;
        match count_suffixes(&mut self.suffixes, suffix_places, &mut self.common, doc).0 {
            0 => Err(doc + 1),
            prefix => Ok(PrefixCounts { prefix, full }),
        }
    }

    /// Goes to the first document from a target on whose count is not 0, and answers it with its
    /// counts; or answers [`TERMINATED`], and sends one term to its end. Takes no memory.
    pub(crate) fn seek(&mut self, target: DocId) -> (DocId, PrefixCounts)
        requires valid { ArePrefixTerms P.DocSet self.old }
        requires target { target ≤ TERMINATED }
        ensures found { IsFirstPrefix target (lists_of P.DocSet self.old) result }
        ensures moved { HaveGoneOn result.0 (lists_of P.DocSet self.old) (lists_of P.DocSet self.new) }
        ensures valid { ArePrefixTerms P.DocSet self.new }
    {
        let mut doc = target;
        // no document from the target to before this one has the phrase
        while doc < TERMINATED {
            match self.look_at(doc) {
                Ok(counts) => return (doc, counts),
                Err(bound) => doc = bound,
            }
        }
        self.go_to_end();
        (TERMINATED, PrefixCounts { prefix: 0, full: 0 })
    }

    /// Sends one term to its end, so that no document is left.
    fn go_to_end(&mut self)
        requires valid { ArePrefixTerms P.DocSet self.old }
        ensures moved { HaveGoneOn TERMINATED (lists_of P.DocSet self.old) (lists_of P.DocSet self.new) }
        ensures valid { ArePrefixTerms P.DocSet self.new }
    {
        self.full.go_to_end();
    }

    /// A number of documents near which the list is, which no answer depends on.
    pub(crate) fn size_hint(&self) -> u32
        requires { ArePrefixTerms P.DocSet self.now }
    {
        self.full.size_hint()
    }

    /// What a pass over all documents costs.
    pub(crate) fn cost(&self) -> u64
        requires { ArePrefixTerms P.DocSet self.now }
    {
        let mut cost = self.full.cost();
        // the sum of what the full terms and the suffixes before this one cost, held at the greatest number
        for suffix in &self.suffixes {
            cost = cost.saturating_add(suffix.postings.cost());
        }
        cost
    }
}

/// The greatest number of positions that a document has in some postings.
fn greatest_freq<P: Postings>(postings: &[P]) -> u64
    requires { All P.valid postings.now }
    ensures { All (λ m. (P.limits m).room ≤ result) postings.now }
{
    let mut greatest = 0;
    // the greatest frequency of the members before this one
    for member in postings {
        greatest = member.max_term_freq().max(greatest);
    }
    greatest
}
