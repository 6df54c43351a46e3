//! The documents in which the terms of a phrase stand together.
//!
//! It has a row of postings and one of buffers, and no intersection, which says nothing of positions.

ghost use Rattle.std.specs.Prelude.{◌≡◌, ◌<◌, ◌≤◌, All, IfOk, IsOkUnless, true, length, map, min, vec_len};
ghost use Rattle.qm_docset.specs.Cursor.{IsSeekAnswer, OnFound};
ghost use Rattle.qm_docset.specs.Entry.{from, head_document};
ghost use Rattle.qm_phrase.specs.Phrase.{ListsPhrase, ListsPhraseOver};
ghost use Rattle.qm_phrase.specs.PhraseTerms.{lists_given, members_of, offsets_of, terms_given};
ghost use Rattle.qm_phrase.specs.TermRows.{each_of};
ghost use Rattle.qm_phrase.specs.Terms.{shifts_in, terms_in};
ghost use Rattle.qm_phrase.specs.PhraseFacts.{AreEntries-phrase};
ghost use Rattle.qm_phrase.specs.PhraseScorer.{CountsAlike, CountsPhrase, CountsPhraseOver, IsOnPhrase, IsPhrase, is_weighted, most_starts, phrase_left, phrase_scorer_limits, phrase_starts};
ghost use Rattle.qm_postings.specs.FieldNorms.{norm_ids};
ghost use Rattle.qm_term.specs.TermScorer.{AreCovered};

use crate::phrase_terms::{PhraseTerms, greatest_offset};
use crate::terms::TermPlaces;
use qm_combine::Scorer;
use qm_docset::{DocId, DocSet, Score, SeekDangerResult, TERMINATED};
use qm_postings::{FieldNormReader, Postings};
use qm_schema::QueryError;
use qm_term::Bm25Weight;
use std::alloc::Global;

/// The documents in which the terms of a phrase stand together, within a slop.
///
/// Each term has an offset in the phrase. Its places in a document are its positions, less its offset.
/// A start is a place of some term from which on, up to the slop, every term has one; the phrase count
/// of a document is the number of its starts, held at 4294967295. A document is listed where it has a
/// start. With a weight it scores what the weight gives its count at its length id, and else 1.
///
/// The terms are asked for their documents in turn, and positions are read only of documents that all
/// of them have, once for terms that share their postings. The first two terms are counted alone first,
/// over [the positions that their postings lend](Postings::lent_positions): where these have none,
/// all have none. To count the starts of a document costs at most the number of its places times
/// the number of terms; without a weight the first start is enough. No call takes memory.
#[derive(Drop)]
pub struct PhraseScorer<'a, P> {
    terms: TermPlaces<P>,
    similarity_weight: Option<Bm25Weight>,
    fieldnorm_reader: FieldNormReader<'a>,
    slop: u32,
    doc: DocId,
    phrase_count: u32,
}

impl<'a, P: Postings> PhraseScorer<'a, P> {
    /// The scorer of at least two terms, each with its offset in the phrase, in any order. They may
    /// stand anywhere; what is listed begins at the first document at or past all of theirs. The
    /// phrase is scored by the weight at the length ids that the reader gives, and with 1 where there
    /// is no weight.
    ///
    /// Asks that offsets are at most 4294967295, and that the reader has a length id for each of the
    /// documents. Fails with [`QueryError::Memory`] alone, where there is no room for the terms or for
    /// as many positions of one as its `max_term_freq` says.
    pub fn new(
        alloc: Global,
        term_postings: Vec<(usize, P)>,
        similarity_weight: Option<Bm25Weight>,
        fieldnorm_reader: FieldNormReader<'a>,
        slop: u32,
    ) -> Result<PhraseScorer<'a, P>, QueryError>
        requires two { 2 ≤ vec_len term_postings }
        requires valid { All (λ pair. P.valid pair.1) term_postings.items }
        requires offsets { All (λ pair. pair.0 ≤ 4294967295) term_postings.items }
        requires covered { All (λ pair. AreCovered (norm_ids fieldnorm_reader) (P.entries pair.1)) term_postings.items }
        ensures lists { IfOk result (ListsPhrase ⟦<Self as DocSet>⟧ P.DocSet similarity_weight fieldnorm_reader.entry slop term_postings.items) }
        ensures counts { IfOk result (CountsPhrase P.DocSet similarity_weight slop term_postings.items) }
        ensures memory { IsOkUnless result QueryError.Memory }
    {
        let terms = PhraseTerms::from_postings(alloc, term_postings)?;
        PhraseScorer::over_terms(alloc, terms, similarity_weight, fieldnorm_reader, slop)
    }

    /// The same of terms of which some may share their postings.
    pub fn over_terms(
        alloc: Global,
        terms: PhraseTerms<P>,
        similarity_weight: Option<Bm25Weight>,
        fieldnorm_reader: FieldNormReader<'a>,
        slop: u32,
    ) -> Result<PhraseScorer<'a, P>, QueryError>
        requires two { 2 ≤ length (terms_given terms) }
        requires valid { All P.valid (members_of terms) }
        requires offsets { All (λ offset. offset ≤ 4294967295) (offsets_of terms) }
        requires covered { All (AreCovered (norm_ids fieldnorm_reader)) (lists_given P.DocSet terms) }
        ensures lists { IfOk result (ListsPhraseOver
            ⟦<Self as DocSet>⟧ similarity_weight fieldnorm_reader.entry slop (offsets_of terms) (lists_given P.DocSet terms)) }
        ensures counts { IfOk result (CountsPhraseOver P.DocSet similarity_weight slop (offsets_of terms) (lists_given P.DocSet terms)) }
        ensures memory { IsOkUnless result QueryError.Memory }
    {
        let greatest = greatest_offset(&terms.terms);
        let terms = TermPlaces::new(alloc, terms, greatest)?;
        let mut scorer = PhraseScorer {
            terms,
            similarity_weight,
            fieldnorm_reader,
            slop,
            doc: 0,
            phrase_count: 0,
        };
        scorer.seek(0);
        Ok(scorer)
    }

    /// How many starts are counted: all where a weight scores them, and else the first.
    fn most(&self) -> u32
        ensures { result ≡ most_starts self.now.similarity_weight }
    {
        match self.similarity_weight {
            Some(_) => u32::MAX,
            None => 1,
        }
    }

    /// How many starts the document has that the scorer stands on, held at 4294967295. Without a
    /// weight nothing is said of it. Asks that the scorer stands on a document. Constant time.
    pub fn phrase_count(&self) -> u32
        requires valid { IsPhrase P.DocSet self.now }
        requires placed { IsOnPhrase P.DocSet self.now }
        requires here { head_document (phrase_left P.DocSet self.now) < TERMINATED }
        ensures count { is_weighted P.DocSet self.now ≡ true → result ≡ min 4294967295 (phrase_starts P.DocSet self.now (head_document (phrase_left P.DocSet self.now))) }
        ensures some { 0 < phrase_starts P.DocSet self.now (head_document (phrase_left P.DocSet self.now)) }
    {
        self.phrase_count
    }
}

impl<'a, P: Postings> DocSet for PhraseScorer<'a, P> {
    ghost entries = { λ s. phrase_left P.DocSet s };

    ghost limits = { λ s. phrase_scorer_limits P.DocSet s };

    ghost keeps = { λ s t. CountsAlike P.DocSet s t };

    ghost placed = { λ s. IsOnPhrase P.DocSet s };

    ghost valid = { λ s. IsPhrase P.DocSet s };

    fn doc(&self) -> DocId {
        self.doc
    }

    fn advance(&mut self) -> DocId {
        self.seek((self.doc + 1).min(TERMINATED))
    }

    fn seek(&mut self, target: DocId) -> DocId {
        let most = self.most();
        let (doc, count) = self.terms.seek_start(self.slop, target, most);
        self.doc = doc;
        self.phrase_count = count;
        doc
    }

    fn seek_danger(&mut self, target: DocId) -> SeekDangerResult {
        if target == TERMINATED {
            self.seek(TERMINATED);
            return SeekDangerResult::SeekLowerBound(TERMINATED);
        }
        let most = self.most();
        match self.terms.look_at(self.slop, target, most) {
            Ok(count) => {
                self.doc = target;
                self.phrase_count = count;
                SeekDangerResult::Found
            }
            Err(bound) => SeekDangerResult::SeekLowerBound(bound),
        }
    }

    fn size_hint(&self) -> u32 {
        self.terms.size_hint()
    }

    fn cost(&self) -> u64 {
        self.terms.cost()
    }

    ghost ascending = { λ s h. AreEntries-phrase s.similarity_weight (norm_ids s.fieldnorm_reader) s.slop (shifts_in s.terms) (each_of (map P.entries s.terms.members.items) (terms_in s.terms)) };
}

impl<'a, P: Postings> Scorer for PhraseScorer<'a, P> {
    fn score(&mut self) -> Score {
        match &self.similarity_weight {
            Some(weight) => weight.score(
                self.fieldnorm_reader.fieldnorm_id(self.doc),
                self.phrase_count,
            ),
            None => 1,
        }
    }

    fn max_score(&self) -> Score {
        match &self.similarity_weight {
            Some(weight) => weight.max_score(),
            None => 1,
        }
    }
}
