//! How many documents a query matches that weren't deleted, in all segments.

ghost use Rattle.std.specs.Prelude.{◌≡◌, IfErr, OnOk};
ghost use Rattle.qm_query.specs.Query.{query_of};
ghost use Rattle.qm_query.specs.Searches.{without_scores};
ghost use Rattle.qm_index.specs.Parts.{segments_of};
ghost use Rattle.qm_script.specs.Found.{AddsNumber, found_alive};
ghost use Rattle.qm_script.specs.Under.{IsListingRefusal, IsWithinScores};

use crate::item_writer::reserve_line_end;
use qm_postings::Searcher;
use qm_query::{AnyQuery, Query};
use qm_schema::QueryError;
use std::alloc::Global;

/// Writes at the end of the text how many documents of the searcher's segments the query matches,
/// without the deleted ones.
///
/// Refused as the weight and the counts are. What a refused call has written is of no use.
pub(crate) fn write_count(
    alloc: Global,
    searcher: &Searcher,
    query: &AnyQuery,
    text: &mut String,
) -> Result<(), QueryError>
    ensures count { AddsNumber result (found_alive (without_scores searcher.now) (query_of query.now) (segments_of searcher.now.segments)) text.old text.new }
    ensures within { OnOk result (IsWithinScores (without_scores searcher.now) (query_of query.now)) }
    ensures refused { IfErr result (IsListingRefusal (without_scores searcher.now) (query_of query.now)) }
{
    let count = query.count(alloc, searcher)?;
    write!(text, "{count}")?;
    reserve_line_end(text)
}
