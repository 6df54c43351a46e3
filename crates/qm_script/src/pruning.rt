//! The documents for which a pruned run of a query calls, in all segments, written one after another.

ghost use Rattle.std.specs.Prelude.{◌≡◌, ◌≤◌, ◌*◌, ◌+◌, [], IfErr, IfOk, IsTrue, OnOk, length, map, string_bytes, true};
ghost use Rattle.qm_docset.specs.declared.numbers.TheConstants.{TERMINATED};
ghost use Rattle.qm_query.specs.EnableScoring.{is_enabled};
ghost use Rattle.qm_query.specs.Query.{query_of};
ghost use Rattle.qm_script.specs.AllSegments.{listed};
ghost use Rattle.qm_index.specs.Parts.{segments_of};
ghost use Rattle.qm_script.specs.Found.{found_above_in_parts};
ghost use Rattle.qm_script.specs.Parts.{document_count};
ghost use Rattle.qm_script.specs.ProgramNumbers.{most_segments};
ghost use Rattle.qm_script.specs.Pruned.{all_pruned, parts_pruned};
ghost use Rattle.qm_script.specs.Text.{WritesListing};
ghost use Rattle.qm_script.specs.Under.{IsListingRefusal, IsWithinScores};
ghost use Rattle.qm_script.specs.Written.{ListsMore, ListsRun, ListsSoFar};
ghost use Rattle.qm_weight.specs.Scorers.{IsRefusalOf};
ghost use Rattle.qm_weight.specs.Tree.{is_scoring};
ghost use Rattle.qm_weight.specs.Weights.{tree_of};

use crate::listing::Listing;
use qm_docset::Score;
use qm_postings::{Searcher, SegmentReader};
use qm_query::{AnyQuery, EnableScoring, fitting_weight};
use qm_schema::QueryError;
use qm_weight::{AnyWeight, Weight};
use std::alloc::Global;

/// Writes the documents for which a pruned run calls, whose calls answer their scores, at the end of the
/// text, joined by one space, and numbered over all segments; each with its score. Each segment begins
/// at the threshold: the first `ended` of these, and behind them the one that the others are parts of,
/// each of which goes on at the threshold that the one before it left. The query's weight is built once.
///
/// Refused as [`fitting_weight`] is, before anything is written, and else for want of memory alone. What a
/// refused call has written is of no use.
pub(crate) fn write_pruned(
    alloc: Global,
    segments: &[SegmentReader],
    ended: usize,
    enable_scoring: EnableScoring<'_, Searcher>,
    query: &AnyQuery,
    threshold: Score,
    text: &mut String,
) -> Result<(), QueryError>
    requires some { ended ≤ length segments.now }
    requires few { document_count (map (λ r. r.segment) segments.now) ≤ most_segments * TERMINATED }
    requires empty { length (string_bytes text.old) ≡ 0 }
    requires scoring { is_enabled enable_scoring ≡ true }
    ensures listed { WritesListing result (found_above_in_parts threshold enable_scoring.entry (query_of query.now) ended (segments_of segments.now)) text.new }
    ensures within { OnOk result (IsWithinScores enable_scoring.entry (query_of query.now)) }
    ensures refused { IfErr result (IsListingRefusal enable_scoring.entry (query_of query.now)) }
{
    let weight = fitting_weight(query, alloc, enable_scoring)?;
    let mut listing = Listing::new(alloc, text);
    let first = list_runs(alloc, &segments[..ended], &weight, threshold, &mut listing)?;
    list_parts(
        alloc,
        &segments[ended..],
        &weight,
        threshold,
        first,
        &mut listing,
    )?;
    listing.finish(text)
}

// Lists what the runs of the weight call for in the segments, and answers how many documents these have.
fn list_runs(
    alloc: Global,
    segments: &[SegmentReader],
    weight: &AnyWeight,
    threshold: Score,
    listing: &mut Listing,
) -> Result<u64, QueryError>
    requires few { document_count (map (λ r. r.segment) segments.now) ≤ most_segments * TERMINATED }
    requires empty { ListsSoFar [] listing.old }
    requires scoring { IsTrue (is_scoring (tree_of weight.now)) }
    ensures counted { IfOk result (λ number. number ≡ document_count (map (λ r. r.segment) segments.now)) }
    ensures listed { OnOk result (ListsSoFar (all_pruned threshold (tree_of weight.now) (map (λ r. r.segment) segments.now)) listing.new) }
    ensures refused { IfErr result (IsRefusalOf (tree_of weight.now) 1) }
{
    let mut first: u64 = 0;
    // what the runs over the segments before this one call for is listed
    for segment in segments {
        listing.begin_segment(first);
        list_run(alloc, segment, weight, threshold, listing)?;
        first += u64::from(segment.max_doc());
    }
    Ok(first)
}

// Lists what one run of the weight calls for in the parts of a segment, whose first document has this
// number.
fn list_parts(
    alloc: Global,
    parts: &[SegmentReader],
    weight: &AnyWeight,
    threshold: Score,
    first: u64,
    listing: &mut Listing,
) -> Result<(), QueryError>
    requires few { first + document_count (map (λ r. r.segment) parts.now) ≤ most_segments * TERMINATED }
    requires scoring { IsTrue (is_scoring (tree_of weight.now)) }
    ensures listed { OnOk result
        (ListsMore (parts_pruned threshold (tree_of weight.now) first (map (λ r. r.segment) parts.now)) listing.old listing.new) }
    ensures refused { IfErr result (IsRefusalOf (tree_of weight.now) 1) }
{
    let mut next = first;
    let mut left = threshold;
    // the run over the parts before this one has left this threshold
    for part in parts {
        listing.begin_segment(next);
        left = list_run(alloc, part, weight, left, listing)?;
        next += u64::from(part.max_doc());
    }
    Ok(())
}

// Lists what a run calls for in one segment, and answers the threshold behind it.
fn list_run(
    alloc: Global,
    segment: &SegmentReader,
    weight: &AnyWeight,
    threshold: Score,
    listing: &mut Listing,
) -> Result<Score, QueryError>
    requires scoring { IsTrue (is_scoring (tree_of weight.now)) }
    ensures run { IfOk result (ListsRun threshold (listed true (tree_of weight.now) listing.old.first segment.now.segment) listing.old listing.new) }
    ensures refused { IfErr result (IsRefusalOf (tree_of weight.now) 1) }
{
    let mut left = threshold;
    weight.for_each_pruning(
        alloc,
        threshold,
        segment,
        &mut |document, score| {
            listing.add_score(document, score);
            left = score;
            score
        },
    )?;
    Ok(left)
}
