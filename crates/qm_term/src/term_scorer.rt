//! The scorer over the postings of a term.
//!
//! Norms that stand in the scorer itself are a kilobyte. So it is moved seldom, and is no `Copy`, which would copy it
//! unseen.

ghost use Rattle.std.specs.Prelude.{◌≡◌, ℕ, ◌*◌, ◌<◌, ◌≤◌, ◌<ℤ◌, ◌≤ℤ◌, ◌↔◌, [], true, false, drop, length, map, min, pos, take, slice_get, slice_index_or};
ghost use Rattle.std.specs.Prelude.{IfOk, IfSome, IsOkUnless, IsSome, Some};
ghost use Rattle.qm_docset.specs.Entry.{documents, from, head_document, head_frequency, head_score};
ghost use Rattle.qm_postings.specs.FieldIndex.{reading};
ghost use Rattle.qm_postings.specs.FieldNorms.{is_made_constant, norm_ids};
ghost use Rattle.qm_postings.specs.Segment.{holders};
ghost use Rattle.qm_postings.specs.SegmentPostings.{IsPostings, looked_block, postings_blocks, postings_left, reads};
ghost use Rattle.qm_docset.specs.Cursor.{IsSeekAnswer, OnFound};
ghost use Rattle.qm_term.specs.TermBlocks.{BoundsLooked, LooksHere, scored_looked, scored_looked_at};
ghost use Rattle.qm_term.specs.TermEntries.{length_ids};

use crate::bm25::Bm25Weight;
use crate::explanation::Explanation;
use crate::norms::Norms;
use qm_combine::Scorer;
use qm_docset::{
    AliveBitSet, COLLECT_BLOCK_BUFFER_LEN, DocId, DocSet, Score, SeekDangerResult, TERMINATED,
};
use qm_postings::{FieldNormReader, FreqReadingOption, Postings, SegmentPostings, SegmentReader};
use qm_schema::{Field, IndexRecordOption, QueryError, Term};
use std::alloc::{AllocError, Global};

/// The documents that hold a term, each with its score. It borrows from its segment.
///
/// Every call of a cursor costs what that of its postings does, and a score one division more. All
/// calls but [`explain`](TermScorer::explain) take no memory.
#[derive(Debug, Drop)]
pub struct TermScorer<'a, N: Norms = [u32; 256]> {
    postings: SegmentPostings<'a>,
    fieldnorm_reader: FieldNormReader<'a>,
    similarity_weight: Bm25Weight<N>,
}

impl<'a, N: Norms> TermScorer<'a, N> {
    ghost use Rattle.qm_term.specs.Bm25Weight.{weighing};
    ghost use Rattle.qm_term.specs.Explained.{value_of};
    ghost use Rattle.qm_term.specs.TermEntries.{ListsTerm};
    ghost use Rattle.qm_term.specs.TermScorer.{AreCovered, IsBoundedBy, IsTermScorer, ListsScored, ScoresAs};
    ghost use Rattle.qm_term.specs.TermScorer.{boost_of, least_id, scored_by, scored_blocks, scored_ids, scored_left, scored_limits, scored_reads};

    /// A scorer over what postings have left. It scores each document by its frequency there, and by
    /// the length id that the reader gives it. Asks that the reader has a length id for each of
    /// them, and gives one to all or none below the least of the document's block.
    pub fn new(
        postings: SegmentPostings<'a>,
        fieldnorm_reader: FieldNormReader<'a>,
        similarity_weight: Bm25Weight<N>,
    ) -> TermScorer<'a, N>
        requires postings { IsPostings postings }
        requires covered { AreCovered (norm_ids fieldnorm_reader) (postings_left postings) }
        requires bounded { IsBoundedBy fieldnorm_reader (postings_blocks postings) (postings_left postings) }
        ensures lists { ListsScored ⟦<TermScorer<'a, N> as DocSet>⟧ (weighing similarity_weight) (norm_ids fieldnorm_reader.entry) postings.entry result }
        ensures ids { scored_ids result ≡ norm_ids fieldnorm_reader.entry }
        ensures reads { scored_reads result ≡ reads postings.entry }
        ensures blocks { scored_blocks result ≡ map (scored_by similarity_weight fieldnorm_reader.entry) (postings_blocks postings.entry) }
        ensures looked { scored_looked result ≡ scored_by similarity_weight fieldnorm_reader.entry (looked_block postings.entry) }
    {
        TermScorer {
            postings,
            fieldnorm_reader,
            similarity_weight,
        }
    }

    /// The scorer of a term over a segment: the documents that hold the term, each with what it
    /// scores there. None exactly where no document holds it. The frequency of a document is read
    /// where the option asks for it and the field keeps it, and else is 1; the length id is that of
    /// the term's field, and 1 where the field keeps no lengths.
    ///
    /// Costs a search by halving for the term; takes no memory.
    pub fn for_term(
        segment: &'a SegmentReader,
        term: &Term,
        option: IndexRecordOption,
        weight: &Bm25Weight<N>,
    ) -> Option<TermScorer<'a, N>>
        ensures present { IsSome result ↔ ¬ (holders segment.now.segment term.now ≡ []) }
        ensures lists { IfSome result (ListsTerm ⟦<TermScorer<'a, N> as DocSet>⟧ segment.now.segment option term.now (weighing weight.now)) }
        ensures ids { IfSome result (λ s. scored_ids s ≡ length_ids segment.now.segment term.now.field) }
        ensures reads { IfSome result (λ s. scored_reads s ≡ reading segment.now.segment.schema option term.now.field) }
        ensures looked { IfSome result LooksHere }
    {
        let field = term.field();
        let postings = segment.inverted_index(field).read_postings(term, option)?;
        Some(TermScorer {
            postings,
            fieldnorm_reader: length_ids(segment, field),
            similarity_weight: *weight,
        })
    }

    /// How often the term stands in the scorer's document, as its postings read it. Asks that the
    /// scorer stands on a document. Constant time.
    #[inline]
    #[tactic(auto, using(crate::specs::TermScorerFacts::scoring))]
    pub fn term_freq(&self) -> u32
        requires valid { IsTermScorer self.now }
        requires here { head_document (scored_left self.now) < TERMINATED }
        ensures { result ≡ head_frequency (scored_left self.now) }
    {
        self.postings.term_freq()
    }

    /// The length id of the scorer's document. Asks that the scorer stands on one. Constant time.
    #[inline]
    #[tactic(auto, using(crate::specs::TermScorerFacts::scoring))]
    pub fn fieldnorm_id(&self) -> u8
        requires valid { IsTermScorer self.now }
        requires here { head_document (scored_left self.now) < TERMINATED }
        ensures { slice_get (scored_ids self.now) (head_document (scored_left self.now)) ≡ Some result }
    {
        self.fieldnorm_reader.fieldnorm_id(self.postings.doc())
    }

    // What the scorer's document scores. Asks that the scorer stands on one. One division.
    #[inline]
    #[tactic(auto, using(crate::specs::TermScorerFacts::scoring))]
    pub(crate) fn score_here(&self) -> Score
        requires valid { IsTermScorer self.now }
        requires here { head_document (scored_left self.now) < TERMINATED }
        ensures { result ≡ pos (head_score (scored_left self.now)) }
    {
        self.similarity_weight
            .score(self.fieldnorm_id(), self.term_freq())
    }

    // The least share of the weight that scores above a threshold, as the weight says.
    #[inline]
    pub(crate) fn share_above(&self, threshold: Score) -> u64
        ensures less { (part : ℕ) → part < result → pos (boost_of self.now * part) ≤ℤ threshold }
        ensures enough { (part : ℕ) → result ≤ part → 0 < boost_of self.now → threshold <ℤ pos (boost_of self.now * part) }
    {
        self.similarity_weight.share_above(threshold)
    }

    // Whether the scorer's document earns less than a share of the weight. Asks that the scorer stands on one.
    #[inline]
    pub(crate) fn earns_less(&self, least: u64) -> bool
        requires valid { IsTermScorer self.now }
        requires here { head_document (scored_left self.now) < TERMINATED }
        ensures yes { result ≡ true → (part : ℕ) × (part < least) × (head_score (scored_left self.now) ≡ boost_of self.now * part) }
        ensures no { result ≡ false → 0 < head_frequency (scored_left self.now) → (part : ℕ) × (least ≤ part) × (head_score (scored_left self.now) ≡ boost_of self.now * part) }
    {
        self.similarity_weight
            .earns_less(least, self.fieldnorm_id(), self.term_freq())
    }

    /// Why the scorer's document scores what it does. Asks that the scorer stands on one.
    ///
    /// Refused with [`QueryError::Memory`] alone.
    #[tactic(auto, using(crate::specs::TermScorerFacts::scoring))]
    pub fn explain(&self, alloc: Global) -> Result<Explanation, QueryError>
        requires valid { IsTermScorer self.now }
        requires here { head_document (scored_left self.now) < TERMINATED }
        ensures value { IfOk result (λ explanation. value_of explanation ≡ pos (head_score (scored_left self.now))) }
        ensures refused { IsOkUnless result QueryError.Memory }
    {
        self.similarity_weight
            .explain(alloc, self.fieldnorm_id(), self.term_freq())
    }

    /// At least the score of every document. No call changes it. Constant time.
    pub fn max_score(&self) -> Score
        ensures { result ≡ pos (scored_limits self.now).top }
    {
        self.similarity_weight.max_score()
    }

    /// Looks at the first block of the term's postings that ends at or past `target`, from that of the
    /// scorer's document on; the scorer stays. Takes every target up to [`TERMINATED`].
    pub fn seek_block(&mut self, target: DocId)
        requires valid { IsTermScorer self.old }
        requires target { target ≤ TERMINATED }
        ensures looked { scored_looked self.new ≡ scored_looked_at target self.old }
        ensures kept { (s : _) → ScoresAs s self.old → ScoresAs s self.new }
        ensures entries { scored_left self.new ≡ scored_left self.old }
        ensures limits { scored_limits self.new ≡ scored_limits self.old }
        ensures valid { IsTermScorer self.new }
    {
        self.postings.seek_block(target);
    }

    /// The end of the block looked at: its last document, and [`TERMINATED`] for the last block and past
    /// the end. Constant time.
    pub fn last_doc_in_block(&self) -> DocId
        requires { IsTermScorer self.now }
        ensures { result ≡ (scored_looked self.now).last }
    {
        self.postings.last_doc_in_block()
    }

    /// At least the score of every remaining document of the block looked at: what its greatest frequency
    /// scores at its least length id, or at the one id of the reader. It is 0 past the end. One division.
    pub fn block_max_score(&self) -> Score
        requires { IsTermScorer self.now }
        ensures bound { result ≡ pos (scored_looked self.now).bound }
        ensures least { BoundsLooked self.now result }
    {
        if self.postings.doc() == TERMINATED {
            return 0;
        }
        self.similarity_weight
            .score(self.block_id(), self.postings.block_max_term_freq())
    }

    // The length id that bounds those of the block looked at.
    fn block_id(&self) -> u8
        requires valid { IsTermScorer self.now }
        requires here { head_document (scored_left self.now) < TERMINATED }
        ensures { result ≡ least_id self.now.fieldnorm_reader (looked_block self.now.postings) }
    {
        if self.fieldnorm_reader.is_constant() {
            self.fieldnorm_id()
        } else {
            self.postings.block_least_fieldnorm_id()
        }
    }

    /// What is read of the term's frequencies.
    pub fn freq_reading_option(&self) -> FreqReadingOption
        ensures { result ≡ scored_reads self.now }
    {
        self.postings.freq_reading_option()
    }
}

/// A copy stands where the original does. It takes no memory, so it is never refused.
impl<'a, N: Norms> Clone for TermScorer<'a, N> {
    ghost is_clone = { λ scorer copy. copy ≡ scorer };

    ghost is_infallible = { λ _. Unit {0} };

    fn clone(&self) -> Result<TermScorer<'a, N>, AllocError> {
        Ok(TermScorer {
            postings: self.postings,
            fieldnorm_reader: self.fieldnorm_reader,
            similarity_weight: self.similarity_weight,
        })
    }
}

#[tactic(auto, using(crate::specs::TermScorerFacts::scoring))]
impl<'a, N: Norms> DocSet for TermScorer<'a, N> {
    ghost use Rattle.qm_term.specs.TermScorer.{IsTermScorer, ScoresAs, scored_left, scored_limits};
    ghost use Rattle.qm_term.specs.TermScorerFacts.{AreEntries-scored};

    ghost entries = { scored_left };

    ghost limits = { scored_limits };

    ghost keeps = { ScoresAs };

    ghost placed = { λ _. Unit {0} };

    ghost valid = { IsTermScorer };

    #[inline]
    fn doc(&self) -> DocId {
        self.postings.doc()
    }

    #[inline]
    fn advance(&mut self) -> DocId
        requires valid { IsTermScorer self.old }
        ensures head { result ≡ head_document (scored_left self.new) }
        ensures entries { scored_left self.new ≡ drop 1 (scored_left self.old) }
        ensures limits { scored_limits self.new ≡ scored_limits self.old }
        ensures valid { IsTermScorer self.new }
        ensures kept { (s : _) → ScoresAs s self.old → ScoresAs s self.new }
        ensures looked { LooksHere self.new }
    {
        self.postings.advance()
    }

    #[inline]
    fn seek(&mut self, target: DocId) -> DocId
        requires valid { IsTermScorer self.old }
        requires target { target ≤ TERMINATED }
        ensures head { result ≡ head_document (scored_left self.new) }
        ensures entries { scored_left self.new ≡ from target (scored_left self.old) }
        ensures limits { scored_limits self.new ≡ scored_limits self.old }
        ensures valid { IsTermScorer self.new }
        ensures kept { (s : _) → ScoresAs s self.old → ScoresAs s self.new }
        ensures looked { LooksHere self.new }
    {
        self.postings.seek(target)
    }

    #[inline]
    fn seek_danger(&mut self, target: DocId) -> SeekDangerResult
        requires valid { IsTermScorer self.old }
        requires target { target ≤ TERMINATED }
        ensures answer { IsSeekAnswer target (scored_left self.new) result }
        ensures placed { OnFound result (Unit {0}) }
        ensures entries { scored_left self.new ≡ from target (scored_left self.old) }
        ensures limits { scored_limits self.new ≡ scored_limits self.old }
        ensures kept { (s : _) → ScoresAs s self.old → ScoresAs s self.new }
        ensures valid { IsTermScorer self.new }
        ensures looked { LooksHere self.new }
    {
        self.postings.seek_danger(target)
    }

    fn fill_buffer(&mut self, buffer: &mut [DocId; COLLECT_BLOCK_BUFFER_LEN]) -> usize
        requires valid { IsTermScorer self.old }
        ensures count { result ≡ min COLLECT_BLOCK_BUFFER_LEN (length (scored_left self.old)) }
        ensures documents { take result buffer.new ≡ documents (take COLLECT_BLOCK_BUFFER_LEN (scored_left self.old)) }
        ensures entries { scored_left self.new ≡ drop COLLECT_BLOCK_BUFFER_LEN (scored_left self.old) }
        ensures limits { scored_limits self.new ≡ scored_limits self.old }
        ensures kept { (s : _) → ScoresAs s self.old → ScoresAs s self.new }
        ensures valid { IsTermScorer self.new }
        ensures looked { LooksHere self.new }
    {
        self.postings.fill_buffer(buffer)
    }

    fn size_hint(&self) -> u32 {
        self.postings.size_hint()
    }

    fn cost(&self) -> u64 {
        self.postings.cost()
    }

    fn count(&mut self, alive: &AliveBitSet) -> u32 {
        self.postings.count(alive)
    }

    fn count_including_deleted(&mut self) -> u32 {
        self.postings.count_including_deleted()
    }

    ghost ascending = { AreEntries-scored };
}

/// A score leaves the block looked at as it is.
#[tactic(auto, using(crate::specs::TermScorerFacts::scoring))]
impl<'a, N: Norms> Scorer for TermScorer<'a, N> {
    ghost use Rattle.qm_term.specs.TermScorer.{IsTermScorer, ScoresAs, scored_left, scored_limits};

    #[inline]
    fn score(&mut self) -> Score
        requires valid { IsTermScorer self.old }
        requires here { head_document (scored_left self.old) < TERMINATED }
        ensures score { result ≡ pos (head_score (scored_left self.old)) }
        ensures looked { scored_looked self.new ≡ scored_looked self.old }
        ensures entries { scored_left self.new ≡ scored_left self.old }
        ensures limits { scored_limits self.new ≡ scored_limits self.old }
        ensures kept { (s : _) → ScoresAs s self.old → ScoresAs s self.new }
        ensures valid { IsTermScorer self.new }
    {
        self.score_here()
    }

    fn max_score(&self) -> Score {
        TermScorer::max_score(self)
    }
}

// The length id of a field in each document of a segment: 1 where the field keeps no lengths.
fn length_ids(segment: &SegmentReader, field: Field) -> FieldNormReader<'_>
    ensures { norm_ids result ≡ length_ids segment.now.segment field }
{
    match segment.fieldnorms(field) {
        Some(reader) => reader,
        None => FieldNormReader::constant(segment.max_doc(), 1),
    }
}
