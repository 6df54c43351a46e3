//! Whether rows make a segment.

ghost use Rattle.std.specs.Prelude.{◌≡◌, ◌↔◌, ◌<◌, ◌≤◌, IsTrue, All, length, map, slice_index_or};
ghost use Rattle.std.specs.List.Sorted.{IsStrictlySortedBy};
ghost use Rattle.qm_schema.specs.Term.{term_cmp};
ghost use Rattle.qm_postings.specs.LentRow.{lent_row};
ghost use Rattle.qm_postings.specs.Rows.{ArePlaces, AreRows, IsRow, MakeSegment, no_row};
ghost use Rattle.qm_postings.specs.RowsSoFar.{IsLaid};
ghost use Rattle.qm_postings.specs.Segment.{AscendFrom};

use crate::rows_builder::lent_rows::LentRows;
use crate::segment_builder::checks::{do_ascend, is_indexed, keeps_positions};
use crate::segment_builder::columns::are_columns;
use crate::term_row::{TermRow, TermRowRef};
use qm_docset::{DocId, TERMINATED};
use qm_schema::Schema;
use std::cmp::Ordering;

// Whether they make one of so many documents, with these columns of length ids. One step for each posting, and for
// each position of rows that were not put together by a builder.
pub(crate) fn make_segment<R: LentRows>(
    schema: &Schema,
    block_len: u32,
    max_doc: DocId,
    lengths: &[Vec<u8>],
    rows: &R,
) -> bool
    ensures { IsTrue result ↔ MakeSegment schema.now block_len max_doc (map (λ c. c.items) lengths.now) (R.rows rows.now) }
{
    if block_len == 0 || block_len > 128 || max_doc > TERMINATED {
        return false;
    }
    are_columns(schema, max_doc, lengths) && are_rows(schema, max_doc, rows)
}

fn are_rows<R: LentRows>(schema: &Schema, max_doc: DocId, rows: &R) -> bool
    ensures { IsTrue result ↔ AreRows schema.now max_doc (R.rows rows.now) }
{
    if !have_ascending_terms(rows) {
        return false;
    }
    // those before it are rows
    for place in 0..rows.row_count() {
        if !is_row_at(schema, max_doc, rows, place) {
            return false;
        }
    }
    true
}

fn have_ascending_terms<R: LentRows>(rows: &R) -> bool
    ensures { IsTrue result ↔ IsStrictlySortedBy term_cmp (map (λ r. r.term) (R.rows rows.now)) }
{
    // the terms before this place ascend
    for place in 1..rows.row_count() {
        let before = rows.row_at(place - 1);
        let row = rows.row_at(place);
        match before.term.cmp(row.term) {
            Ordering::Less => {}
            Ordering::Equal | Ordering::Greater => return false,
        }
    }
    true
}

#[tactic(auto, using(crate::proofs::RowChecks::row_laid))]
fn is_row_at<R: LentRows>(schema: &Schema, max_doc: DocId, rows: &R, place: usize) -> bool
    requires { place < length (R.rows rows.now) }
    ensures { IsTrue result ↔ IsRow schema.now max_doc (slice_index_or (R.rows rows.now) place no_row) }
{
    rows.is_laid_at(place) && is_row(schema, max_doc, &rows.row_at(place))
}

// Whether a row, whose documents ascend, and which has positions of each posting or none, is one of a segment.
#[tactic(auto, using(crate::proofs::RowChecks::placed_where_some, crate::proofs::RowChecks::some_placed))]
fn is_row(schema: &Schema, max_doc: DocId, row: &TermRowRef<'_>) -> bool
    requires { IsLaid (lent_row row.now) }
    ensures { IsTrue result ↔ IsRow schema.now max_doc (lent_row row.now) }
{
    let field = row.term.field();
    if !is_indexed(schema, field) || !are_below(row.documents, max_doc) {
        return false;
    }
    if !row.frequencies.are_above_0() {
        return false;
    }
    if keeps_positions(schema, field) {
        !row.positions.is_empty()
    } else {
        row.positions.is_empty()
    }
}

// Whether there are documents, which ascend, and all are below a number.
fn are_below(documents: &[DocId], max_doc: DocId) -> bool
    requires { AscendFrom 0 documents.now }
    ensures { IsTrue result ↔ ((0 < length documents.now) × All (λ d. d < max_doc) documents.now) }
{
    let count = documents.len();
    if count == 0 {
        return false;
    }
    documents[count - 1] < max_doc
}

// Whether the documents of a row ascend, each has a frequency, and there are positions, which ascend, of each
// posting or of none.
pub(super) fn is_laid(row: &TermRow) -> bool
    ensures { IsTrue result ↔ IsLaid row.now }
{
    if row.frequencies.len() != row.documents.len() || !do_ascend(&row.documents) {
        return false;
    }
    row.positions.is_empty() || are_places(&row.frequencies, &row.positions)
}

// Whether each frequency has as many positions, which ascend, and no more are there.
fn are_places(frequencies: &[u32], positions: &[u32]) -> bool
    ensures { IsTrue result ↔ ArePlaces frequencies.now positions.now }
{
    let mut start: usize = 0;
    // those before it have theirs
    for frequency in frequencies {
        let count = *frequency as usize;
        if positions.len() - start < count || !do_ascend(&positions[start..start + count]) {
            return false;
        }
        start += count;
    }
    start == positions.len()
}
