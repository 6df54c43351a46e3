//! The documents that a query matches in all segments, written one after another.

ghost use Rattle.std.specs.Prelude.{◌≡◌, ◌≤◌, ◌*◌, ◌+◌, ◌∷◌, [], IfErr, Some, IsTrue, OnOk, false, length, map, string_bytes, true};
ghost use Rattle.qm_docset.specs.declared.numbers.TheConstants.{TERMINATED};
ghost use Rattle.qm_query.specs.Query.{query_of};
ghost use Rattle.qm_script.specs.AllSegments.{all_listed, listed};
ghost use Rattle.qm_index.specs.Parts.{segments_of};
ghost use Rattle.qm_script.specs.Found.{found_matches};
ghost use Rattle.qm_script.specs.Parts.{document_count};
ghost use Rattle.qm_script.specs.ProgramNumbers.{most_segments};
ghost use Rattle.qm_script.specs.Text.{WritesListing};
ghost use Rattle.qm_script.specs.Under.{IsListingRefusal, IsWithinScores};
ghost use Rattle.qm_script.specs.Written.{ListsMore, ListsSoFar};
ghost use Rattle.qm_weight.specs.Scorers.{IsRefusalOf};
ghost use Rattle.qm_weight.specs.Tree.{is_scoring};
ghost use Rattle.qm_weight.specs.Weights.{tree_of};

use crate::listing::Listing;
use qm_postings::{Searcher, SegmentReader};
use qm_query::{AnyQuery, EnableScoring, fitting_weight};
use qm_schema::QueryError;
use qm_weight::{AnyWeight, Weight};
use std::alloc::Global;

/// Writes the documents that the query matches at the end of the text, joined by one space, and
/// numbered over all segments; each with its score where scoring is on. The query's weight is built
/// once, and run over each segment; no list of documents is made.
///
/// Refused as [`fitting_weight`] is, before anything is written, and else for want of memory alone. What a
/// refused call has written is of no use.
pub(crate) fn write_matches(
    alloc: Global,
    segments: &[SegmentReader],
    enable_scoring: EnableScoring<'_, Searcher>,
    query: &AnyQuery,
    text: &mut String,
) -> Result<(), QueryError>
    requires few { document_count (map (λ r. r.segment) segments.now) ≤ most_segments * TERMINATED }
    requires empty { length (string_bytes text.old) ≡ 0 }
    ensures listed { WritesListing result (found_matches enable_scoring.entry (query_of query.now) (segments_of segments.now)) text.new }
    ensures within { OnOk result (IsWithinScores enable_scoring.entry (query_of query.now)) }
    ensures refused { IfErr result (IsListingRefusal enable_scoring.entry (query_of query.now)) }
{
    let weight = fitting_weight(query, alloc, enable_scoring)?;
    let is_scored = enable_scoring.is_scoring_enabled();
    let mut listing = Listing::new(alloc, text);
    list_all(alloc, segments, &weight, is_scored, &mut listing)?;
    listing.finish(text)
}

// Lists what the weight does in the segments.
fn list_all(
    alloc: Global,
    segments: &[SegmentReader],
    weight: &AnyWeight,
    is_scored: bool,
    listing: &mut Listing,
) -> Result<(), QueryError>
    requires few { document_count (map (λ r. r.segment) segments.now) ≤ most_segments * TERMINATED }
    requires empty { ListsSoFar [] listing.old }
    requires scoring { is_scored ≡ true → IsTrue (is_scoring (tree_of weight.now)) }
    ensures listed { OnOk result (ListsSoFar (all_listed is_scored (tree_of weight.now) (map (λ r. r.segment) segments.now)) listing.new) }
    ensures refused { IfErr result (IsRefusalOf (tree_of weight.now) 1) }
{
    let mut first: u64 = 0;
    // what the segments before this one have is listed
    for segment in segments {
        listing.begin_segment(first);
        list_segment(alloc, segment, weight, is_scored, listing)?;
        first += u64::from(segment.max_doc());
    }
    Ok(())
}

// Lists what the weight does in one segment.
fn list_segment(
    alloc: Global,
    segment: &SegmentReader,
    weight: &AnyWeight,
    is_scored: bool,
    listing: &mut Listing,
) -> Result<(), QueryError>
    requires scoring { is_scored ≡ true → IsTrue (is_scoring (tree_of weight.now)) }
    ensures listed { OnOk result (ListsMore (listed is_scored (tree_of weight.now) listing.old.first segment.now.segment) listing.old listing.new) }
    ensures refused { IfErr result (IsRefusalOf (tree_of weight.now) 1) }
{
    if is_scored {
        list_scored(alloc, segment, weight, listing)
    } else {
        list_unscored(alloc, segment, weight, listing)
    }
}

// Lists the documents of a segment with their scores.
fn list_scored(
    alloc: Global,
    segment: &SegmentReader,
    weight: &AnyWeight,
    listing: &mut Listing,
) -> Result<(), QueryError>
    requires scoring { IsTrue (is_scoring (tree_of weight.now)) }
    ensures listed { OnOk result (ListsMore (listed true (tree_of weight.now) listing.old.first segment.now.segment) listing.old listing.new) }
    ensures refused { IfErr result (IsRefusalOf (tree_of weight.now) 1) }
{
    weight.for_each(
        alloc,
        segment,
        &mut |document, score|
            ensures first { listing.exit.now.first ≡ listing.entry.now.first }
            ensures listed { ListsMore ((listing.entry.now.first + document, Some score) ∷ []) listing.entry.now listing.exit.now }
        { listing.add_score(document, score) },
    )
}

// Lists the documents of a segment alone.
fn list_unscored(
    alloc: Global,
    segment: &SegmentReader,
    weight: &AnyWeight,
    listing: &mut Listing,
) -> Result<(), QueryError>
    ensures listed { OnOk result (ListsMore (listed false (tree_of weight.now) listing.old.first segment.now.segment) listing.old listing.new) }
    ensures refused { IfErr result (IsRefusalOf (tree_of weight.now) 1) }
{
    weight.for_each_no_score(
        alloc,
        segment,
        &mut |documents| { listing.add_documents(documents) },
    )
}
