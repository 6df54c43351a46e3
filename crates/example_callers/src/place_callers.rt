//! Where documents stand that a query finds.

ghost use Rattle.std.specs.Prelude.{◌≡◌, ◌≤◌, IfOk, IsTrue, length, slice_get};
ghost use Rattle.example_callers.specs.Found.{place_of_best};
ghost use Rattle.qm_query.specs.EnableScoring.{is_enabled};
ghost use Rattle.qm_query.specs.QueryTree.{query_tree};

use crate::query_callers::best_document;
use qm_docset::DocId;
use qm_postings::{Bm25StatisticsProvider, SegmentReader};
use qm_query::{EnableScoring, Query};
use qm_schema::QueryError;
use qm_store::{DocumentPlace, StoreError, StoredPlaces, places_bytes};
use std::alloc::Global;

/// Why it can't be told where a document stands that a query finds.
#[derive(Clone, Copy, Debug, PartialEq, Eq)]
pub enum PlaceError {
    /// The query was refused.
    Query(QueryError),
    /// The file of places was refused, or could not be made.
    Places(StoreError),
}

impl From<QueryError> for PlaceError {
    fn from(error: QueryError) -> PlaceError {
        PlaceError::Query(error)
    }
}

impl From<StoreError> for PlaceError {
    fn from(error: StoreError) -> PlaceError {
        PlaceError::Places(error)
    }
}

/// Writes where the documents of a segment stand, opens what was written, and reads the place of a document there: it is
/// the one that was written, and none where the document has none.
pub fn place_through_file(
    alloc: Global,
    places: &[DocumentPlace],
    key: u64,
    doc: DocId,
) -> Result<Option<DocumentPlace>, StoreError>
    requires few { length places.now ≤ u32.MAX }
    ensures { IfOk result (λ place. place ≡ slice_get places.now doc) }
{
    let bytes = places_bytes(alloc, places, key)?;
    let stored = StoredPlaces::open(alloc, bytes, key, places.len() as u32)?;
    if doc >= stored.max_doc() {
        return Ok(None);
    }
    let place = stored.place(alloc, doc)?;
    Ok(Some(place))
}

/// Where the best of the documents of a segment stands that a query matches, by a file that was written of where they
/// all do; none where it matches none. Asks that scoring is on.
pub fn place_of_best<Q: Query, P: Bm25StatisticsProvider>(
    alloc: Global,
    query: &Q,
    enable_scoring: EnableScoring<'_, P>,
    reader: &SegmentReader,
    places: &[DocumentPlace],
    key: u64,
) -> Result<Option<DocumentPlace>, PlaceError>
    requires scoring { IsTrue (is_enabled enable_scoring) }
    requires few { length places.now ≤ u32.MAX }
    ensures { IfOk result (λ place.
        place ≡ place_of_best (query_tree P.Bm25StatisticsProvider enable_scoring.entry (Q.query query.now)) reader.now.segment places.now) }
{
    let Some((doc, _)) = best_document(alloc, query, enable_scoring, reader)? else {
        return Ok(None);
    };
    let place = place_through_file(alloc, places, key, doc)?;
    Ok(place)
}
