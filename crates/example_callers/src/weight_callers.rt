//! What a caller learns of the runs of a weight, from their contracts alone: the slices are the documents
//! that match, one after another, and a pruned run finds the best of them.

ghost use Rattle.std.specs.Prelude.{◌≡◌, IfOk, IsTrue, false};
ghost use Rattle.example_callers.specs.Found.{holders_of_both};
ghost use Rattle.qm_weight.specs.Best.{best};
ghost use Rattle.qm_weight.specs.Callers.{pairs};
ghost use Rattle.qm_weight.specs.Tree.{is_scoring, list, matching};

use crate::best::BestPairs;
use crate::callers::Joined;
use qm_docset::{DocId, Score};
use qm_postings::SegmentReader;
use qm_schema::{IndexRecordOption, Occur, QueryError, Term};
use qm_scorer::AnyCombiner;
use qm_weight::{TermClause, TermsWeight, Weight};
use std::alloc::Global;

/// The documents of a segment that a weight matches: the slices of its run, one after another.
pub fn join_matches<W: Weight>(
    alloc: Global,
    weight: &W,
    reader: &SegmentReader,
) -> Result<Vec<DocId>, QueryError>
    ensures { IfOk result (λ v. v.items ≡ matching (W.tree weight.now) reader.now.segment) }
{
    let mut joined = Joined {
        documents: Vec::new(alloc),
        refused: false,
    };
    weight.for_each_no_score(alloc, reader, &mut |slice| { joined.add(slice) })?;
    if joined.refused {
        Err(QueryError::Memory)
    } else {
        Ok(joined.documents)
    }
}

/// The best of the documents of a segment that a weight matches, at most so many, the best first. Of
/// documents with one score the lower one is the better.
pub fn best_matches<W: Weight>(
    alloc: Global,
    weight: &W,
    reader: &SegmentReader,
    limit: usize,
) -> Result<Vec<(DocId, Score)>, QueryError>
    ensures { IfOk result (λ v. IsTrue (is_scoring (W.tree weight.now)) → v.items ≡ best limit (pairs (list (W.tree weight.now) 1 reader.now.segment))) }
{
    let mut best = BestPairs {
        limit,
        kept: Vec::new(alloc),
        refused: false,
    };
    let threshold = best.score_to_pass();
    weight.for_each_pruning(
        alloc,
        threshold,
        reader,
        &mut |doc, score| best.add(doc, score),
    )?;
    if best.refused {
        Err(QueryError::Memory)
    } else {
        Ok(best.kept)
    }
}

/// The documents of a segment that hold two terms, without scores.
pub fn holders_of_both(
    alloc: Global,
    reader: &SegmentReader,
    first: Term,
    second: Term,
) -> Result<Vec<DocId>, QueryError>
    ensures { IfOk result (λ v. v.items ≡ holders_of_both reader.now.segment first second) }
{
    let clauses = vec![in alloc;
        TermClause::new(Occur::Must, first, IndexRecordOption::Basic, 0),
        TermClause::new(Occur::Must, second, IndexRecordOption::Basic, 0),
    ]?;
    let weight = TermsWeight::new(clauses, &[0; 256], 0, false, AnyCombiner::default());
    join_matches(alloc, &weight, reader)
}
