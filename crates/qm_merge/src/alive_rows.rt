//! The rows of a segment without its deleted documents.

ghost use Rattle.std.specs.Prelude.{◌≡◌, ◌≢◌, ◌++◌, ◌<◌, ◌≤◌, [], All, IfOk, IsOkUnless, OnOk, length, nat_lt};
ghost use Rattle.qm_postings.specs.LentRow.{lent_row};
ghost use Rattle.qm_postings.specs.Reading.{IsOfRows};
ghost use Rattle.qm_postings.specs.Rows.{ArePlaces};
ghost use Rattle.qm_merge.specs.AliveRows.{row_left, row_with_left, rows_left};

use crate::new_numbers::number_of;
use qm_docset::DocId;
use qm_postings::{SegmentReader, TermRow, TermRowRef};
use qm_schema::QueryError;
use std::alloc::Global;

// The rows of the postings whose documents have a new number, with these numbers. A term without one has no row.
pub(crate) fn alive_rows(
    alloc: Global,
    segment: &SegmentReader,
    numbers: &[Option<DocId>],
) -> Result<Vec<TermRow>, QueryError>
    requires { length numbers.now ≡ length segment.now.segment.documents }
    ensures whole { OnOk result (IsOfRows segment.now) }
    ensures rows { IfOk result (λ it. it.items ≡ rows_left numbers.now segment.now.rows) }
    ensures refused { IsOkUnless result QueryError.Memory }
{
    let mut rows = Vec::new(alloc);
    // those before it are there, as far as they have a posting left
    for place in 0..segment.row_count() {
        let row = alive_row(alloc, &segment.row(place), numbers)?;
        if has_posting(&row) {
            rows.push(row)?;
        }
    }
    Ok(rows)
}

fn has_posting(row: &TermRow) -> bool
    ensures { result ≡ nat_lt 0 (length row.now.documents) }
{
    !row.documents.is_empty()
}

// The postings of a row whose documents have a new number.
fn alive_row(
    alloc: Global,
    row: &TermRowRef<'_>,
    numbers: &[Option<DocId>],
) -> Result<TermRow, QueryError>
    requires within { All (λ d. d < length numbers.now) (lent_row row.now).documents }
    requires paired { length (lent_row row.now).frequencies ≡ length (lent_row row.now).documents }
    requires places { (lent_row row.now).positions ≢ [] → ArePlaces (lent_row row.now).frequencies (lent_row row.now).positions }
    ensures row { IfOk result (λ it. it ≡ row_left numbers.now (lent_row row.now)) }
    ensures refused { IsOkUnless result QueryError.Memory }
{
    let mut left = TermRow {
        term: row.term().clone(alloc)?,
        documents: Vec::new(alloc),
        frequencies: Vec::new(alloc),
        positions: alive_positions(alloc, row, numbers)?,
    };
    push_postings(&mut left, row, numbers)?;
    Ok(left)
}

// Adds documents and frequencies of the postings whose documents have a new number.
fn push_postings(
    left: &mut TermRow,
    row: &TermRowRef<'_>,
    numbers: &[Option<DocId>],
) -> Result<(), QueryError>
    requires within { All (λ d. d < length numbers.now) (lent_row row.now).documents }
    requires paired { length (lent_row row.now).frequencies ≡ length (lent_row row.now).documents }
    ensures added { OnOk result (left.new ≡ row_with_left numbers.now left.old (lent_row row.now)) }
    ensures refused { IsOkUnless result QueryError.Memory }
{
    // those before it are there
    for place in 0..row.documents().len() {
        if let Some(number) = number_of(numbers, row.documents()[place] as usize) {
            left.documents.push(number)?;
            left.frequencies.push(row.frequency(place))?;
        }
    }
    Ok(())
}

// The positions of these postings; none where the row has none.
fn alive_positions(
    alloc: Global,
    row: &TermRowRef<'_>,
    numbers: &[Option<DocId>],
) -> Result<Vec<u32>, QueryError>
    requires within { All (λ d. d < length numbers.now) (lent_row row.now).documents }
    requires paired { length (lent_row row.now).frequencies ≡ length (lent_row row.now).documents }
    requires places { (lent_row row.now).positions ≢ [] → ArePlaces (lent_row row.now).frequencies (lent_row row.now).positions }
    ensures positions { IfOk result (λ it. it.items ≡ (row_left numbers.now (lent_row row.now)).positions) }
    ensures refused { IsOkUnless result QueryError.Memory }
{
    let mut positions = Vec::new(alloc);
    if !row.positions().is_empty() {
        push_positions(&mut positions, row, numbers)?;
    }
    Ok(positions)
}

// Adds the positions of these postings.
fn push_positions(
    positions: &mut Vec<u32>,
    row: &TermRowRef<'_>,
    numbers: &[Option<DocId>],
) -> Result<(), QueryError>
    requires within { All (λ d. d < length numbers.now) (lent_row row.now).documents }
    requires paired { length (lent_row row.now).frequencies ≡ length (lent_row row.now).documents }
    requires places { ArePlaces (lent_row row.now).frequencies (lent_row row.now).positions }
    ensures added { OnOk result (positions.new.items ≡ positions.old.items ++ (row_left numbers.now (lent_row row.now)).positions) }
    ensures refused { IsOkUnless result QueryError.Memory }
{
    let mut start = 0;
    // those of the postings before it are there
    for place in 0..row.documents().len() {
        let end = start + row.frequency(place) as usize;
        if number_of(numbers, row.documents()[place] as usize).is_some() {
            positions.extend_from_slice(&row.positions()[start..end])?;
        }
        start = end;
    }
    Ok(())
}
