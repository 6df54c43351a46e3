//! A weight of clauses that are terms, which share the norms of the length ids.
//!
//! It stands for the tree of the Boolean, so no definition knows of it. The norms, a kilobyte, are there once and not
//! for each term.

ghost use Rattle.std.specs.Prelude.{◌≡◌, ◌≤◌, length};
ghost use Rattle.std.specs.List.Sorted.{IsNonDecreasing};
ghost use Rattle.qm_docset.specs.Entry.{greatest_score};

use crate::boolean_weight::BooleanRule;
use crate::bounds::bound_of_terms;
use crate::shared_runs::{StandsFor, check_document, run_node_slices};
use crate::weight::Weight;
use joined::{boxed_scorer, unscored_scorer};
use qm_combine::{EmptyScorer, Scorer};
use qm_docset::{DocId, DocSet, Score};
use qm_postings::SegmentReader;
use qm_schema::{IndexRecordOption, Occur, QueryError, Term};
use qm_scorer::{AnyCombiner, AnyScorer};
use qm_term::{Explanation, WandCount};
use runs::{run_should_slices, run_terms};
use std::alloc::Global;
use term_union::are_all;

mod clause_in;
mod counted;
mod explained;
mod joined;
mod pruned;
mod runs;
mod term_cursor;
mod term_union;

pub(crate) use counted::count_terms;
pub(crate) use explained::explain_terms;
pub(crate) use pruned::prune_terms;

/// One of the clauses of a [`TermsWeight`]: how it occurs, its term, what is read of the term's postings, and what the
/// term weighs in whole scores.
#[derive(Drop)]
pub struct TermClause {
    pub(crate) occur: Occur,
    pub(crate) term: Term,
    pub(crate) index_record_option: IndexRecordOption,
    pub(crate) weight: u64,
    ghost fits: { weight ≤ greatest_score },
}

impl TermClause {
    ghost use Rattle.std.specs.Prelude.{◌≤ℤ◌, ℕ, Bool, List, nat_abs, pos};
    ghost use Rattle.qm_weight.specs.Tree.{term as leaf_of};
    ghost use Rattle.qm_weight.specs.Weights.{clause_occur, clause_tree, shared_weighing};

    /// A clause of a term with its weight, which is at least 0. The option says what is read of the term's postings:
    /// where frequencies are not asked for each is 1. Takes no memory.
    pub fn new(
        occur: Occur,
        term: Term,
        index_record_option: IndexRecordOption,
        weight: Score,
    ) -> TermClause
        requires { pos 0 ≤ℤ weight }
        ensures occur { clause_occur result ≡ occur }
        ensures tree { (scoring : Bool) (norms : List ℕ) →
            clause_tree scoring norms result ≡ leaf_of term index_record_option (shared_weighing scoring norms (nat_abs weight)) }
    {
        TermClause {
            occur,
            term,
            index_record_option,
            weight: weight as u64,
        }
    }
}

/// What a [`BooleanWeight`](crate::BooleanWeight) of the weights of terms matches and scores: the documents that every
/// Must term stands in, no MustNot term, and at least so many of the Should terms.
///
/// The norms of the length ids stand here once: a clause takes five words of the machine, and the weight of a term by
/// itself a kilobyte more. So its runs, pruned ones too, go over cursors that borrow the norms, and with scoring off over
/// documents alone.
#[derive(Drop)]
pub struct TermsWeight {
    pub(crate) clauses: Vec<TermClause>,
    pub(crate) norms: [u32; 256],
    pub(crate) rule: BooleanRule,
    ghost ascending: { IsNonDecreasing norms },
    ghost many: { length norms ≡ 256 },
}

impl TermsWeight {
    ghost use Rattle.qm_weight.specs.Tree.{boolean};
    ghost use Rattle.qm_weight.specs.Weights.{combiner_of, term_clauses, terms_tree};

    /// The weight of clauses of which at least this many Should clauses have to match, over the norm of each length id
    /// in words.
    ///
    /// Asks that no norm is less than the one before it. Takes no memory; costs a copy of the norms.
    pub fn new(
        clauses: Vec<TermClause>,
        norms: &[u32; 256],
        minimum_number_should_match: usize,
        scoring_enabled: bool,
        score_combiner: AnyCombiner,
    ) -> TermsWeight
        requires { IsNonDecreasing norms.now }
        ensures { terms_tree result ≡
            boolean scoring_enabled minimum_number_should_match (combiner_of score_combiner) (term_clauses scoring_enabled norms.now clauses.items) }
    {
        TermsWeight {
            clauses,
            norms: *norms,
            rule: BooleanRule {
                minimum_number_should_match,
                scoring_enabled,
                score_combiner,
            },
        }
    }
}

impl StandsFor for TermsWeight {
    ghost use Rattle.qm_weight.specs.Weights.{terms_tree};

    ghost tree = { terms_tree };
}

impl Weight for TermsWeight {
    ghost use Rattle.qm_weight.specs.Weights.{terms_tree};

    ghost tree = { terms_tree };

    fn scorer<'a, S: Scorer>(
        &self,
        alloc: Global,
        reader: &'a SegmentReader,
        boost: Score,
    ) -> Result<AnyScorer<'a, S>, QueryError> {
        boxed_scorer(self, alloc, reader, boost as u64)
    }

    fn fits(&self, boost: Score) -> bool {
        bound_of_terms(self, boost as u64).is_some()
    }

    fn count(&self, alloc: Global, reader: &SegmentReader) -> Result<u32, QueryError> {
        count_terms(self, alloc, reader, 1)
    }

    fn explain(
        &self,
        alloc: Global,
        reader: &SegmentReader,
        doc: DocId,
    ) -> Result<Explanation, QueryError> {
        check_document(self, reader, doc)?;
        explain_terms(self, alloc, reader, doc, 1)
    }

    /// Where the terms should match, the run goes over the union of their own cursors, or over what enough of these have.
    fn for_each<F: FnMut(DocId, Score)>(
        &self,
        alloc: Global,
        reader: &SegmentReader,
        callback: &mut F,
    ) -> Result<(), QueryError> {
        run_terms(self, alloc, reader, callback)
    }

    /// The same over documents alone, where scoring is off.
    fn for_each_no_score<F: FnMut(&[DocId])>(
        &self,
        alloc: Global,
        reader: &SegmentReader,
        callback: &mut F,
    ) -> Result<(), QueryError> {
        if self.rule.scoring_enabled {
            let scorer: AnyScorer<EmptyScorer> = boxed_scorer(self, alloc, reader, 1)?;
            run_node_slices(self, reader, scorer, callback);
        } else if are_all(self, Occur::Should) {
            run_should_slices(self, alloc, reader, callback)?;
        } else {
            let scorer = unscored_scorer(self, alloc, reader, 1)?;
            run_node_slices(self, reader, scorer, callback);
        }
        Ok(())
    }

    /// Passes over blocks whose documents cannot score above the threshold, where scoring is on, and the clauses are up
    /// to 300 terms that must match, or that should match, one of which is enough, by the sum or the greatest score, or
    /// one scorer is left and is that of a term. It takes memory before the first call alone.
    fn for_each_pruning_counted<F: FnMut(DocId, Score) -> Score>(
        &self,
        alloc: Global,
        threshold: Score,
        reader: &SegmentReader,
        callback: &mut F,
    ) -> Result<WandCount, QueryError> {
        prune_terms(self, alloc, reader, 1, threshold, callback)
    }
}
