//! The best documents that a query matches, in all segments, written one after another.

ghost use Rattle.std.specs.Prelude.{◌≡◌, ◌<◌, ◌≤◌, ◌*◌, All, IfErr, IfOk, IsOkUnless, OnOk, length, map, string_bytes};
ghost use Rattle.qm_docset.specs.declared.numbers.TheConstants.{TERMINATED};
ghost use Rattle.qm_query.specs.Query.{query_of};
ghost use Rattle.qm_query.specs.Searches.{scoring_by};
ghost use Rattle.qm_script.specs.BestListed.{firsts_from, found_item};
ghost use Rattle.qm_index.specs.Parts.{segments_of};
ghost use Rattle.qm_script.specs.Found.{found_best};
ghost use Rattle.qm_script.specs.Parts.{document_count};
ghost use Rattle.qm_script.specs.ProgramNumbers.{most_segments};
ghost use Rattle.qm_script.specs.Text.{WritesListing};
ghost use Rattle.qm_script.specs.Under.{IsBestRefusal, IsWithinBest};
ghost use Rattle.qm_script.specs.Written.{ListsMore};

use crate::listing::Listing;
use qm_docset::Score;
use qm_postings::{DocAddress, Searcher, SegmentReader};
use qm_query::{AnyQuery, TopDocs};
use qm_schema::QueryError;
use std::alloc::Global;

/// Writes the best documents of the searcher's segments that the query matches and that weren't deleted,
/// at most so many, joined by one space and numbered over all segments; each with its score, by what another searcher says
/// that words weigh.
///
/// Refused as the search for them is. What a refused call has written is of no use.
pub(crate) fn write_best(
    alloc: Global,
    searcher: &Searcher,
    weights: &Searcher,
    query: &AnyQuery,
    count: u32,
    text: &mut String,
) -> Result<(), QueryError>
    requires few { document_count (segments_of searcher.now.segments) ≤ most_segments * TERMINATED }
    requires empty { length (string_bytes text.old) ≡ 0 }
    ensures listed { WritesListing result (found_best count (scoring_by weights.now searcher.now) (query_of query.now) (segments_of searcher.now.segments)) text.new }
    ensures within { OnOk result (IsWithinBest count (scoring_by weights.now searcher.now) (query_of query.now)) }
    ensures refused { IfErr result (IsBestRefusal count (scoring_by weights.now searcher.now) (query_of query.now)) }
{
    let best = TopDocs::with_limit(count as usize);
    let found = best.search_counted(alloc, query, searcher, weights)?;
    let firsts = first_numbers(alloc, searcher.segment_readers())?;
    let mut listing = Listing::new(alloc, text);
    list_found(&mut listing, firsts.as_slice(), found.documents.as_slice());
    listing.finish(text)
}

/// The number of each segment's first document.
pub(crate) fn first_numbers(
    alloc: Global,
    segments: &[SegmentReader],
) -> Result<Vec<u64>, QueryError>
    requires few { document_count (segments_of segments.now) ≤ most_segments * TERMINATED }
    ensures numbers { IfOk result (λ firsts. firsts.items ≡ firsts_from 0 (segments_of segments.now)) }
    ensures few { IfOk result (λ firsts. All (λ n. n ≤ most_segments * TERMINATED) firsts.items) }
    ensures refused { IsOkUnless result QueryError.Memory }
{
    let mut firsts = Vec::with_capacity(alloc, segments.len())?;
    let mut first: u64 = 0;
    // those of the segments so far are there
    for segment in segments {
        firsts.push(first)?;
        first += u64::from(segment.max_doc());
    }
    Ok(firsts)
}

// Lists each by its number, by those of the segments' first documents.
fn list_found(listing: &mut Listing, firsts: &[u64], found: &[(Score, DocAddress)])
    requires there { All (λ f. f.1.segment_ord < length firsts.now) found.now }
    requires few { All (λ n. n ≤ most_segments * TERMINATED) firsts.now }
    ensures { ListsMore (map (found_item firsts.now) found.now) listing.old listing.new }
{
    // those before this one are listed
    for (score, address) in found {
        listing.begin_segment(firsts[address.segment_ord as usize]);
        listing.add_score(address.doc_id, *score);
    }
}
