//! Callers of a term's scorer and of its blocks.

ghost use Rattle.std.specs.Prelude.{◌≡◌, ◌≤◌, IfOk, IfSome};
ghost use Rattle.example_callers.specs.Found.{block_looked_at};
ghost use Rattle.qm_term.specs.TermScorer.{IsTermScorer, scored_left};
ghost use Rattle.qm_weight.specs.Best.{best};
ghost use Rattle.qm_weight.specs.Callers.{pairs};

use crate::best::BestPairs;
use qm_docset::{DocId, Score, TERMINATED};
use qm_postings::SegmentReader;
use qm_schema::{IndexRecordOption, Term};
use qm_term::{TermScorer, block_wand_single_scorer};
use std::alloc::{AllocError, Global};

/// The best of the documents that a term's scorer has left, at most so many, the best first, by the bounds
/// of its blocks. Of documents with one score the lower is the better. Want of memory alone refuses it.
pub fn best_of_term(
    alloc: Global,
    scorer: TermScorer<'_>,
    limit: usize,
) -> Result<Vec<(DocId, Score)>, AllocError>
    requires { IsTermScorer scorer }
    ensures { IfOk result (λ found. found.items ≡ best limit (pairs (scored_left scorer.entry))) }
{
    let mut best = BestPairs {
        limit,
        kept: Vec::new(alloc),
        refused: false,
    };
    let threshold = best.score_to_pass();
    block_wand_single_scorer(scorer, threshold, &mut |doc, score| best.add(doc, score));
    if best.refused {
        Err(AllocError)
    } else {
        Ok(best.kept)
    }
}

/// Where the block of a term's postings ends that is looked at with a document, by the segment's documents
/// alone; none where no document holds the term.
pub fn end_of_block(segment: &SegmentReader, term: &Term, target: DocId) -> Option<DocId>
    requires { target ≤ TERMINATED }
    ensures { IfSome result (λ end. end ≡ (block_looked_at segment.now.segment term.now target).last) }
{
    let index = segment.inverted_index(term.field());
    let mut postings = index.read_postings(term, IndexRecordOption::WithFreqs)?;
    postings.seek_block(target);
    Some(postings.last_doc_in_block())
}
