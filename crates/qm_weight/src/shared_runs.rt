//! What the runs and explanations of several weights have in common. Those of a leaf go over a scorer of its
//! own, where it has one, and those of a node over the node's scorer.

ghost use Rattle.std.specs.Fn.{CalledAt, TakesAt};
ghost use Rattle.std.specs.Prelude.{◌≡◌, ◌<◌, IfErr, IfOk, OnOk, length};
ghost use Rattle.qm_weight.specs.Counts.{alive_count};
ghost use Rattle.qm_weight.specs.Explanations.{IsExplained, IsExplainRefusal, StandsOn};
ghost use Rattle.qm_weight.specs.LeafScorers.{IsLeafOf};
ghost use Rattle.qm_weight.specs.Scorers.{IsScorerOf};
ghost use Rattle.qm_weight.specs.Tree.{Tree};
ghost use Rattle.qm_weight.specs.TreeRuns.{CallsSlices, CallsTree, MayCallSlices, MayCallTree, MayPruneTree, PrunesTreeBy};

use crate::counts::count_alive;
use crate::explanations::score_of;
use crate::pruning::{counted_none, prune_to_bound};
use crate::weight::{empty_buffer, for_each_docset_buffered, for_each_scorer};
use qm_combine::{EmptyScorer, Scorer};
use qm_docset::{DocId, DocSet, Score, TERMINATED};
use qm_postings::SegmentReader;
use qm_schema::QueryError;
use qm_term::WandCount;

/// What stands for a tree. By it the functions here name the tree that a scorer is of: a weight can't be named
/// as one in its own runs.
pub(crate) trait StandsFor {
    // the tree that it stands for
    ghost tree: { Self → Tree };
}

// Refused with `DoesNotMatch` where the segment has no such document, which no weight matches then.
pub(crate) fn check_document<W: StandsFor>(
    weight: &W,
    reader: &SegmentReader,
    doc: DocId,
) -> Result<(), QueryError>
    ensures inside { OnOk result (doc < length reader.now.segment.documents) }
    ensures below { OnOk result (doc < TERMINATED) }
    ensures refused { IfErr result (IsExplainRefusal (W.tree weight.now) 1 reader.now.segment doc) }
{
    if doc < reader.max_doc() {
        Ok(())
    } else {
        Err(QueryError::DoesNotMatch(doc))
    }
}

// A call for each document of a leaf, with its score. The weight and the segment are those that the scorer
// is of.
pub(crate) fn run_leaf<W: StandsFor, L: Scorer, F: FnMut(DocId, Score)>(
    weight: &W,
    reader: &SegmentReader,
    leaf: Option<L>,
    callback: &mut F,
)
    requires leaf { IsLeafOf L.DocSet (W.tree weight.now) 1 reader.now.segment leaf }
    requires allowed { MayCallTree F.step F.pre (W.tree weight.now) reader.now.segment callback.old }
    ensures calls { CallsTree F.step (W.tree weight.now) reader.now.segment callback.old callback.new }
{
    if let Some(mut scorer) = leaf {
        for_each_scorer(&mut scorer, callback);
    }
}

// The calls with the slices of a leaf's documents: an empty one where there is no scorer.
pub(crate) fn run_leaf_slices<W: StandsFor, L: Scorer, F: FnMut(&[DocId])>(
    weight: &W,
    reader: &SegmentReader,
    leaf: Option<L>,
    callback: &mut F,
)
    requires leaf { IsLeafOf L.DocSet (W.tree weight.now) 1 reader.now.segment leaf }
    requires allowed { MayCallSlices (λ f xs g. CalledAt F.FnMut f xs tt g) (TakesAt F.FnMut) (W.tree weight.now) reader.now.segment callback.old }
    ensures calls { CallsSlices (λ f xs g. CalledAt F.FnMut f xs tt g) (W.tree weight.now) reader.now.segment callback.old callback.new }
{
    match leaf {
        Some(mut scorer) => for_each_docset_buffered(&mut scorer, &mut empty_buffer(), callback),
        None => for_each_docset_buffered(&mut EmptyScorer, &mut empty_buffer(), callback),
    }
}

// A call for each document of a node's scorer, with its score.
pub(crate) fn run_node<W: StandsFor, S: Scorer, F: FnMut(DocId, Score)>(
    weight: &W,
    reader: &SegmentReader,
    mut scorer: S,
    callback: &mut F,
)
    requires scorer { IsScorerOf S.DocSet (W.tree weight.now) 1 reader.now.segment scorer }
    requires allowed { MayCallTree F.step F.pre (W.tree weight.now) reader.now.segment callback.old }
    ensures calls { CallsTree F.step (W.tree weight.now) reader.now.segment callback.old callback.new }
{
    for_each_scorer(&mut scorer, callback);
}

// The calls with the slices of the documents that a node's scorer has.
pub(crate) fn run_node_slices<W: StandsFor, S: Scorer, F: FnMut(&[DocId])>(
    weight: &W,
    reader: &SegmentReader,
    mut scorer: S,
    callback: &mut F,
)
    requires scorer { IsScorerOf S.DocSet (W.tree weight.now) 1 reader.now.segment scorer }
    requires allowed { MayCallSlices (λ f xs g. CalledAt F.FnMut f xs tt g) (TakesAt F.FnMut) (W.tree weight.now) reader.now.segment callback.old }
    ensures calls { CallsSlices (λ f xs g. CalledAt F.FnMut f xs tt g) (W.tree weight.now) reader.now.segment callback.old callback.new }
{
    for_each_docset_buffered(&mut scorer, &mut empty_buffer(), callback);
}

// The pruned run over a leaf from a threshold on.
pub(crate) fn prune_leaf<W: StandsFor, L: Scorer, F: FnMut(DocId, Score) -> Score>(
    weight: &W,
    reader: &SegmentReader,
    leaf: Option<L>,
    threshold: Score,
    callback: &mut F,
) -> WandCount
    requires leaf { IsLeafOf L.DocSet (W.tree weight.now) 1 reader.now.segment leaf }
    requires allowed { MayPruneTree F.step F.pre (W.tree weight.now) reader.now.segment threshold callback.old }
    ensures calls { PrunesTreeBy F.step (W.tree weight.now) 1 reader.now.segment threshold callback.old result callback.new }
{
    match leaf {
        Some(scorer) => prune_to_bound(scorer, threshold, callback),
        None => counted_none(),
    }
}

// How many documents of a leaf weren't deleted.
pub(crate) fn count_leaf<W: StandsFor, L: Scorer>(
    weight: &W,
    reader: &SegmentReader,
    leaf: Option<L>,
) -> u32
    requires leaf { IsLeafOf L.DocSet (W.tree weight.now) 1 reader.now.segment leaf }
    ensures { result ≡ alive_count (W.tree weight.now) reader.now.segment }
{
    match leaf {
        Some(mut scorer) => count_alive(&mut scorer, reader),
        None => 0,
    }
}

// The score of a document by a leaf's scorer at a boost, and that scorer, which stands on it.
pub(crate) fn find_in_leaf<W: StandsFor, L: Scorer>(
    weight: &W,
    reader: &SegmentReader,
    leaf: Option<L>,
    doc: DocId,
    boost: u64,
) -> Result<(Score, L), QueryError>
    requires below { doc < TERMINATED }
    requires leaf { IsLeafOf L.DocSet (W.tree weight.now) boost reader.now.segment leaf }
    ensures score { IfOk result (λ found. IsExplained (W.tree weight.now) boost reader.now.segment doc found.0) }
    ensures left { IfOk result (λ found. StandsOn L.DocSet doc found.1) }
    ensures refused { IfErr result (IsExplainRefusal (W.tree weight.now) boost reader.now.segment doc) }
{
    let Some(mut scorer) = leaf else {
        return Err(QueryError::DoesNotMatch(doc));
    };
    let score = score_of(&mut scorer, doc)?;
    Ok((score, scorer))
}

// The score of a document by a node's scorer at a boost.
pub(crate) fn score_in_node<W: StandsFor, S: Scorer>(
    weight: &W,
    reader: &SegmentReader,
    mut scorer: S,
    doc: DocId,
    boost: u64,
) -> Result<Score, QueryError>
    requires below { doc < TERMINATED }
    requires scorer { IsScorerOf S.DocSet (W.tree weight.now) boost reader.now.segment scorer }
    ensures score { IfOk result (IsExplained (W.tree weight.now) boost reader.now.segment doc) }
    ensures refused { IfErr result (IsExplainRefusal (W.tree weight.now) boost reader.now.segment doc) }
{
    score_of(&mut scorer, doc)
}
