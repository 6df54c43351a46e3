//! The weight of a term.

ghost use Rattle.std.specs.Prelude.{◌≡◌, ◌<◌, ◌≤◌, ◌≤ℤ◌, ℕ, IfErr, IfOk, None, if◌then◌else◌, length, nat_abs, pos};
ghost use Rattle.qm_schema.specs.declared.schema.option.IndexRecordOption.TheVariants.{Basic};
ghost use Rattle.qm_docset.specs.Entry.{greatest_score};
ghost use Rattle.qm_term.specs.Bm25.{boosted_by};
ghost use Rattle.qm_term.specs.Bm25Weight.{weighing};
ghost use Rattle.qm_term.specs.Explained.{value_of};
ghost use Rattle.qm_weight.specs.Counts.{alive_count};
ghost use Rattle.qm_weight.specs.Explanations.{IsExplained, IsExplainRefusal};
ghost use Rattle.qm_weight.specs.LeafScorers.{IsLeafOf};
ghost use Rattle.qm_weight.specs.Scorers.{IsRefusalOf};
ghost use Rattle.qm_weight.specs.Tree.{term as leaf_of};
ghost use Rattle.qm_weight.specs.TreeRuns.{MayPruneTree, PrunesTreeBy};
ghost use Rattle.qm_weight.specs.Weights.{term_tree, term_weighing, weight_term, weighing_if};

use crate::bounds::bound_of_term;
use crate::counts::count_alive;
use crate::explanations::explain_term;
use crate::leaf_scorers::scorer_of_leaf;
use crate::pruning::counted_none;
use crate::shared_runs::{StandsFor, check_document, prune_leaf, run_leaf};
use crate::weight::{Weight, empty_buffer, for_each_docset_buffered};
use qm_combine::Scorer;
use qm_docset::{DocId, DocSet, Score, TERMINATED};
use qm_postings::SegmentReader;
use qm_schema::{IndexRecordOption, QueryError, Term};
use qm_scorer::AnyScorer;
use qm_term::{Bm25Weight, Explanation, Norms, TermScorer, WandCount, block_wand_single_scorer};
use std::alloc::Global;

/// Matches the documents that hold a term. Each scores what the term's weight gives its frequency there
/// and the length of its field, with the weight's boost times that of the scorer. With scoring off
/// nothing is said of the scores.
#[derive(Drop)]
pub struct TermWeight {
    pub(crate) term: Term,
    pub(crate) index_record_option: IndexRecordOption,
    pub(crate) similarity_weight: Bm25Weight,
    pub(crate) scoring_enabled: bool,
}

impl TermWeight {
    /// The weight of a term. The option says what is read of its postings: where frequencies are not
    /// asked for each is 1. Takes no memory.
    pub fn new(
        term: Term,
        index_record_option: IndexRecordOption,
        similarity_weight: Bm25Weight,
        scoring_enabled: bool,
    ) -> TermWeight
        ensures { term_tree result ≡ leaf_of term index_record_option (weighing_if scoring_enabled similarity_weight) }
    {
        TermWeight {
            term,
            index_record_option,
            similarity_weight,
            scoring_enabled,
        }
    }

    /// The term.
    pub fn term(&self) -> &Term
        ensures { result.now ≡ weight_term self.now }
    {
        &self.term
    }

    // The term's weight at a boost, over the norms where they stand. With scoring off its boost is 0, which fits
    // whatever it weighs.
    fn weight_at(&self, boost: u64) -> Result<Bm25Weight<&[u32; 256]>, QueryError>
        requires { boost ≤ greatest_score }
        ensures weighing { IfOk result (λ w. weighing w ≡ term_weighing self.now boost) }
        ensures refused { IfErr result (IsRefusalOf (term_tree self.now) boost) }
    {
        let boost = if self.scoring_enabled {
            boost as Score
        } else {
            0
        };
        self.similarity_weight.lent().boost_by(boost)
    }

    // The term's scorer at a boost, over the weight's norms, and none where no document holds the term.
    pub(crate) fn term_scorer<'a>(
        &'a self,
        reader: &'a SegmentReader,
        boost: u64,
    ) -> Result<Option<TermScorer<'a, &'a [u32; 256]>>, QueryError>
        requires boost { boost ≤ greatest_score }
        ensures scorer { IfOk result (IsLeafOf ⟦<TermScorer<'a, &'a [u32; 256]> as DocSet>⟧ (term_tree self.now) boost reader.now.segment) }
        ensures refused { IfErr result (IsRefusalOf (term_tree self.now) boost) }
    {
        let weight = self.weight_at(boost)?;
        Ok(self.scorer_by(reader, &weight))
    }

    // The term's scorer by its weight at a boost.
    fn scorer_by<'a, N: Norms>(
        &self,
        reader: &'a SegmentReader,
        weight: &Bm25Weight<N>,
    ) -> Option<TermScorer<'a, N>>
        ensures { (boost : ℕ) → weighing weight.now ≡ term_weighing self.now boost →
            IsLeafOf ⟦<TermScorer<'a, N> as DocSet>⟧ (term_tree self.now) boost reader.now.segment result }
    {
        let option = self.index_record_option;
        TermScorer::for_term(reader, &self.term, option, weight)
    }

    // Why a document of the segment scores what it does at a boost: what the term weighs there.
    pub(crate) fn explain_at(
        &self,
        alloc: Global,
        reader: &SegmentReader,
        doc: DocId,
        boost: u64,
    ) -> Result<Explanation, QueryError>
        requires boost { boost ≤ greatest_score }
        requires inside { doc < length reader.now.segment.documents }
        requires below { doc < TERMINATED }
        ensures explained { IfOk result (λ e. IsExplained (term_tree self.now) boost reader.now.segment doc (value_of e)) }
        ensures refused { IfErr result (IsExplainRefusal (term_tree self.now) boost reader.now.segment doc) }
    {
        let leaf = self.term_scorer(reader, boost)?;
        explain_term(self, alloc, reader, leaf, &self.term, doc, boost)
    }
}

impl StandsFor for TermWeight {
    ghost tree = { term_tree };
}

impl Weight for TermWeight {
    ghost tree = { term_tree };

    fn scorer<'a, S: Scorer>(
        &self,
        alloc: Global,
        reader: &'a SegmentReader,
        boost: Score,
    ) -> Result<AnyScorer<'a, S>, QueryError> {
        let boost = boost as u64;
        // (it outlives the weight)
        let weight = self.weight_at(boost)?.owned();
        let leaf = self.scorer_by(reader, &weight);
        scorer_of_leaf(self, alloc, reader, leaf, boost)
    }

    fn fits(&self, boost: Score) -> bool {
        bound_of_term(self, boost as u64).is_some()
    }

    fn count(&self, _alloc: Global, reader: &SegmentReader) -> Result<u32, QueryError> {
        Ok(count_term(&self.term, reader))
    }

    fn explain(
        &self,
        alloc: Global,
        reader: &SegmentReader,
        doc: DocId,
    ) -> Result<Explanation, QueryError> {
        check_document(self, reader, doc)?;
        self.explain_at(alloc, reader, doc, 1)
    }

    /// Runs over the postings of the term, and takes no memory.
    fn for_each<F: FnMut(DocId, Score)>(
        &self,
        _alloc: Global,
        reader: &SegmentReader,
        callback: &mut F,
    ) -> Result<(), QueryError> {
        let leaf = self.term_scorer(reader, 1)?;
        run_leaf(self, reader, leaf, callback);
        Ok(())
    }

    /// Runs over the postings of the term, and takes no memory.
    fn for_each_no_score<F: FnMut(&[DocId])>(
        &self,
        _alloc: Global,
        reader: &SegmentReader,
        callback: &mut F,
    ) -> Result<(), QueryError> {
        let index = reader.inverted_index(self.term.field());
        if let Some(mut documents) = index.read_documents(&self.term) {
            for_each_docset_buffered(&mut documents, &mut empty_buffer(), callback);
        }
        Ok(())
    }

    /// Runs over the postings of the term, and takes no memory. With scoring on it passes over blocks whose
    /// documents cannot score above the threshold.
    fn for_each_pruning_counted<F: FnMut(DocId, Score) -> Score>(
        &self,
        _alloc: Global,
        threshold: Score,
        reader: &SegmentReader,
        callback: &mut F,
    ) -> Result<WandCount, QueryError> {
        let leaf = self.term_scorer(reader, 1)?;
        if self.scoring_enabled {
            Ok(prune_term(self, reader, leaf, threshold, callback))
        } else {
            Ok(prune_leaf(self, reader, leaf, threshold, callback))
        }
    }
}

// The pruned run over the term's own scorer, by the bounds of its blocks.
fn prune_term<'a, F: FnMut(DocId, Score) -> Score>(
    weight: &TermWeight,
    reader: &SegmentReader,
    leaf: Option<TermScorer<'a, &'a [u32; 256]>>,
    threshold: Score,
    callback: &mut F,
) -> WandCount
    requires leaf { IsLeafOf ⟦<TermScorer<'a, &'a [u32; 256]> as DocSet>⟧ (term_tree weight.now) 1 reader.now.segment leaf }
    requires allowed { MayPruneTree F.step F.pre (term_tree weight.now) reader.now.segment threshold callback.old }
    ensures calls { PrunesTreeBy F.step (term_tree weight.now) 1 reader.now.segment threshold callback.old result callback.new }
{
    match leaf {
        Some(scorer) => block_wand_single_scorer(scorer, threshold, callback),
        None => counted_none(),
    }
}

/// How many documents of a segment hold a term and weren't deleted. Reads the term's postings where some document was
/// deleted, and else only their number; takes no memory and is never refused.
pub fn count_term(term: &Term, reader: &SegmentReader) -> u32
    ensures { result ≡ alive_count (leaf_of term.now Basic None) reader.now.segment }
{
    let index = reader.inverted_index(term.field());
    let Some(info) = index.get_term_info(term) else {
        return 0;
    };
    if !reader.has_deletes() {
        return info.doc_freq;
    }
    let mut postings = index.read_postings_from_terminfo(&info, IndexRecordOption::Basic);
    count_alive(&mut postings, reader)
}
