//! The documents in which the full terms of a phrase prefix stand together with a term that begins
//! with the prefix.

ghost use Rattle.std.specs.Prelude.{◌≡◌, ℕ, ◌<◌, ◌≤◌, All, IfOk, IsOkUnless, drop, length, map, vec_len};
ghost use Rattle.qm_docset.specs.Cursor.{IsSeekAnswer, OnFound};
ghost use Rattle.qm_docset.specs.Entry.{from, head_document};
ghost use Rattle.qm_phrase.specs.PhrasePrefix.{ListsPrefix, ListsPrefixOver, held_count, lists_at, lists_of_terms};
ghost use Rattle.qm_phrase.specs.PhrasePrefixFacts.{AreEntries-prefix};
ghost use Rattle.qm_phrase.specs.PhrasePrefixScorer.{PrefixAlike, CountsAs, IsOnPhrasePrefix, IsPhrasePrefix, phrase_prefix_count, phrase_prefix_left, phrase_prefix_scorer_limits};
ghost use Rattle.qm_phrase.specs.PhraseTerms.{lists_given, members_of, offsets_of, terms_given};
ghost use Rattle.qm_phrase.specs.Places.{shift_of};
ghost use Rattle.qm_phrase.specs.TermRows.{each_of};
ghost use Rattle.qm_phrase.specs.Terms.{shifts_in, terms_in};
ghost use Rattle.qm_postings.specs.FieldNorms.{norm_ids};
ghost use Rattle.qm_term.specs.TermScorer.{AreCovered};

use crate::phrase_terms::PhraseTerms;
use crate::prefix_terms::{PrefixCounts, PrefixTerms};
use qm_combine::Scorer;
use qm_docset::{DocId, DocSet, Score, SeekDangerResult, TERMINATED};
use qm_postings::{FieldNormReader, Postings};
use qm_schema::QueryError;
use qm_term::Bm25Weight;
use std::alloc::Global;

/// The documents in which the full terms of a phrase prefix stand together with a term that begins
/// with the prefix.
///
/// Each full term has an offset in the phrase, and so has the prefix. A term's places in a document
/// are its positions, less its offset. The phrase count of a document is how many of the places that
/// all full terms have in common each term that begins with the prefix has too, added up over these
/// terms and held at 4294967295. A document is listed where this isn't 0. With a weight and two or more
/// full terms it scores what the weight gives the number of places that the full terms have in common,
/// held alike, at its length id; with a weight and one full term the weight's boost; and else 1.
///
/// The full terms are asked for their documents in turn, and positions are read only of documents that
/// all of them have. Only where they have a place in common, terms that begin with the prefix are
/// sought there: those that may have the document, by what they answered before. To count a document
/// costs at most the number of its full terms' places times the number of these terms. Then each term
/// that is sought costs the logarithm of how many begin with the prefix, and where it has the document
/// its places and the common ones. No call takes memory.
#[derive(Drop)]
pub struct PhrasePrefixScorer<'a, P> {
    terms: PrefixTerms<P>,
    similarity_weight: Option<Bm25Weight>,
    fieldnorm_reader: FieldNormReader<'a>,
    doc: DocId,
    counts: PrefixCounts,
}

impl<'a, P: Postings> PhrasePrefixScorer<'a, P> {
    /// The scorer of at least one full term, each with its offset in the phrase, in any order, and of
    /// the terms that begin with the prefix, whose offset is `suffix_pos`. They may stand anywhere;
    /// what is listed begins at the first document at or past all full terms'. It is scored by the
    /// weight at the length ids that the reader gives, and with 1 where there is no weight.
    ///
    /// Asks that offsets are at most 4294967295, and that the reader has a length id for each document
    /// of the full terms. Fails with [`QueryError::Memory`] alone, where there is no room for the terms
    /// or for as many positions of one as its `max_term_freq` says.
    pub fn new(
        alloc: Global,
        term_postings: Vec<(usize, P)>,
        similarity_weight: Option<Bm25Weight>,
        fieldnorm_reader: FieldNormReader<'a>,
        suffixes: Vec<P>,
        suffix_pos: usize,
    ) -> Result<PhrasePrefixScorer<'a, P>, QueryError>
        requires some { 1 ≤ vec_len term_postings }
        requires valid { All (λ pair. P.valid pair.1) term_postings.items }
        requires suffixes { All P.valid suffixes.items }
        requires offsets { All (λ pair. pair.0 ≤ 4294967295) term_postings.items }
        requires suffix_pos { suffix_pos ≤ 4294967295 }
        requires covered { All (λ pair. AreCovered (norm_ids fieldnorm_reader) (P.entries pair.1)) term_postings.items }
        ensures lists { IfOk result (ListsPrefix ⟦<Self as DocSet>⟧ P.DocSet similarity_weight fieldnorm_reader.entry term_postings.items suffix_pos suffixes.items) }
        ensures counts { IfOk result (CountsAs P.DocSet (lists_at P.DocSet term_postings.items suffix_pos suffixes.items)) }
        ensures memory { IsOkUnless result QueryError.Memory }
    {
        let terms = PhraseTerms::from_postings(alloc, term_postings)?;
        PhrasePrefixScorer::over_terms(
            alloc,
            terms,
            similarity_weight,
            fieldnorm_reader,
            suffixes,
            suffix_pos,
        )
    }

    /// The same of full terms of which some may share their postings.
    pub fn over_terms(
        alloc: Global,
        terms: PhraseTerms<P>,
        similarity_weight: Option<Bm25Weight>,
        fieldnorm_reader: FieldNormReader<'a>,
        suffixes: Vec<P>,
        suffix_pos: usize,
    ) -> Result<PhrasePrefixScorer<'a, P>, QueryError>
        requires some { 1 ≤ length (terms_given terms) }
        requires valid { All P.valid (members_of terms) }
        requires suffixes { All P.valid suffixes.items }
        requires offsets { All (λ offset. offset ≤ 4294967295) (offsets_of terms) }
        requires suffix_pos { suffix_pos ≤ 4294967295 }
        requires covered { All (AreCovered (norm_ids fieldnorm_reader)) (lists_given P.DocSet terms) }
        ensures lists { IfOk result (ListsPrefixOver ⟦<Self as DocSet>⟧ similarity_weight fieldnorm_reader.entry (lists_of_terms P.DocSet terms suffix_pos suffixes.items)) }
        ensures counts { IfOk result (CountsAs P.DocSet (lists_of_terms P.DocSet terms suffix_pos suffixes.items)) }
        ensures memory { IsOkUnless result QueryError.Memory }
    {
        let terms = PrefixTerms::new(alloc, terms, suffixes, suffix_pos)?;
        let mut scorer = PhrasePrefixScorer {
            terms,
            similarity_weight,
            fieldnorm_reader,
            doc: 0,
            counts: PrefixCounts { prefix: 0, full: 0 },
        };
        scorer.seek(0);
        Ok(scorer)
    }

    /// How often the full terms stand together with a term that begins with the prefix, in the
    /// document that the scorer stands on, held at 4294967295. Asks that the scorer stands on a
    /// document. Constant time.
    pub fn phrase_count(&self) -> u32
        requires valid { IsPhrasePrefix P.DocSet self.now }
        requires placed { IsOnPhrasePrefix P.DocSet self.now }
        requires here { head_document (phrase_prefix_left P.DocSet self.now) < TERMINATED }
        ensures count { result ≡ held_count (phrase_prefix_count P.DocSet self.now (head_document (phrase_prefix_left P.DocSet self.now))) }
        ensures some { 0 < phrase_prefix_count P.DocSet self.now (head_document (phrase_prefix_left P.DocSet self.now)) }
    {
        self.counts.prefix
    }
}

impl<'a, P: Postings> DocSet for PhrasePrefixScorer<'a, P> {
    ghost entries = { λ s. phrase_prefix_left P.DocSet s };

    ghost limits = { λ s. phrase_prefix_scorer_limits P.DocSet s };

    ghost keeps = { λ s t. PrefixAlike P.DocSet s t };

    ghost placed = { λ s. IsOnPhrasePrefix P.DocSet s };

    ghost valid = { λ s. IsPhrasePrefix P.DocSet s };

    fn doc(&self) -> DocId {
        self.doc
    }

    fn advance(&mut self) -> DocId {
        self.seek((self.doc + 1).min(TERMINATED))
    }

    fn seek(&mut self, target: DocId) -> DocId {
        let (doc, counts) = self.terms.seek(target);
        self.doc = doc;
        self.counts = counts;
        doc
    }

    fn seek_danger(&mut self, target: DocId) -> SeekDangerResult {
        if target == TERMINATED {
            self.seek(TERMINATED);
            return SeekDangerResult::SeekLowerBound(TERMINATED);
        }
        match self.terms.look_at(target) {
            Ok(counts) => {
                self.doc = target;
                self.counts = counts;
                SeekDangerResult::Found
            }
            Err(bound) => SeekDangerResult::SeekLowerBound(bound),
        }
    }

    fn size_hint(&self) -> u32 {
        self.terms.size_hint()
    }

    fn cost(&self) -> u64 {
        self.terms.cost()
    }

    ghost ascending = { λ s h. AreEntries-prefix s.similarity_weight (norm_ids s.fieldnorm_reader) (record { full_shifts = shifts_in s.terms.full; full = each_of (map P.entries s.terms.full.members.items) (terms_in s.terms.full); suffix_shift = shift_of s.terms.suffix_places; suffixes = map (λ suffix. P.entries suffix.postings) s.terms.suffixes.items }) };
}

impl<'a, P: Postings> Scorer for PhrasePrefixScorer<'a, P> {
    fn score(&mut self) -> Score {
        match &self.similarity_weight {
            Some(weight) => {
                if !self.terms.has_several() {
                    return weight.boost();
                }
                let fieldnorm_id = self.fieldnorm_reader.fieldnorm_id(self.doc);
                weight.score(fieldnorm_id, self.counts.full)
            }
            None => 1,
        }
    }

    fn max_score(&self) -> Score {
        match &self.similarity_weight {
            Some(weight) => {
                if !self.terms.has_several() {
                    return weight.boost();
                }
                weight.max_score()
            }
            None => 1,
        }
    }
}
