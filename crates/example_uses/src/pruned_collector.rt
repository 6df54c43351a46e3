//! A collector over a pruned run: the callback's answer is what the next document has to score more than,
//! and the run passes over those that can't.

ghost use Rattle.std.specs.Prelude.{◌≡◌, IfOk, IsTrue, slice_get};
ghost use Rattle.qm_weight.specs.Best.{best};
ghost use Rattle.qm_weight.specs.Callers.{pairs};
ghost use Rattle.qm_weight.specs.Tree.{is_scoring, list};

use qm_docset::{DocId, Score};
use qm_postings::SegmentReader;
use qm_schema::QueryError;
use qm_weight::Weight;
use std::alloc::Global;

/// The best of the documents of a segment that a weight matches, with its score, and none where it
/// matches none. Of documents with one score it is the lowest.
pub fn best_document<W: Weight>(
    alloc: Global,
    weight: &W,
    reader: &SegmentReader,
) -> Result<Option<(DocId, Score)>, QueryError>
    ensures { IfOk result (λ f. IsTrue (is_scoring (W.tree weight.now)) → f ≡ slice_get (best 1 (pairs (list (W.tree weight.now) 1 reader.now.segment))) 0) }
{
    let mut found = None;
    weight.for_each_pruning(
        alloc,
        Score::MIN,
        reader,
        &mut |doc, score| {
            found = Some((doc, score));
            score
        },
    )?;
    Ok(found)
}
