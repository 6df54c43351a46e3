//! The rows of two segments, joined.

ghost use Rattle.std.specs.Prelude.{◌≡◌, ◌+◌, ◌++◌, ◌<◌, ◌≤◌, All, IfOk, IsOkUnless, OnOk, drop, length, map};
ghost use Rattle.qm_postings.specs.LentRow.{lent_row};
ghost use Rattle.qm_postings.specs.Reading.{IsOfRows};
ghost use Rattle.qm_merge.specs.JoinedRows.{row_behind, row_of_both, rows_of_both};

use qm_docset::{DocId, TERMINATED};
use qm_postings::{SegmentReader, TermRow, TermRowRef};
use qm_schema::QueryError;
use std::alloc::Global;
use std::cmp::Ordering;

// The rows of both in the terms' order, those of the second of documents that come behind those of the first. A term
// that both have has one row. A step for each posting, position and term.
pub(crate) fn joined_rows(
    alloc: Global,
    first: &SegmentReader,
    second: &SegmentReader,
) -> Result<Vec<TermRow>, QueryError>
    requires few { length first.now.segment.documents + length second.now.segment.documents ≤ TERMINATED }
    ensures rows { IfOk result (λ it. it.items ≡ rows_of_both first.now second.now) }
    ensures whole { OnOk result (IsOfRows first.now × IsOfRows second.now) }
    ensures refused { IsOkUnless result QueryError.Memory }
{
    let (first_rows, second_rows) = (first.row_count(), second.row_count());
    let count = first.max_doc();
    let mut rows = Vec::new(alloc);
    let mut left = 0;
    let mut right = 0;
    // what is there and what the rows that are left of both make is all
    while left < first_rows && right < second_rows {
        let one = first.row(left);
        let other = second.row(right);
        match one.term().cmp(other.term()) {
            Ordering::Less => {
                rows.push(one.copy(alloc)?)?;
                left += 1;
            }
            Ordering::Equal => {
                rows.push(both(alloc, &one, &other, count)?)?;
                left += 1;
                right += 1;
            }
            Ordering::Greater => {
                rows.push(behind(alloc, &other, count)?)?;
                right += 1;
            }
        }
    }
    push_rows(alloc, &mut rows, first, left)?;
    push_rows_behind(alloc, &mut rows, second, right, count)?;
    Ok(rows)
}

// Adds the rows from a place on.
fn push_rows(
    alloc: Global,
    rows: &mut Vec<TermRow>,
    reader: &SegmentReader,
    start: usize,
) -> Result<(), QueryError>
    requires { start ≤ length reader.now.rows }
    ensures added { OnOk result (rows.new.items ≡ rows.old.items ++ drop start reader.now.rows) }
    ensures refused { IsOkUnless result QueryError.Memory }
{
    // those before it are there
    for place in start..reader.row_count() {
        rows.push(reader.row(place).copy(alloc)?)?;
    }
    Ok(())
}

// Adds the rows from a place on, of documents that come behind so many.
fn push_rows_behind(
    alloc: Global,
    rows: &mut Vec<TermRow>,
    reader: &SegmentReader,
    start: usize,
    count: DocId,
) -> Result<(), QueryError>
    requires start { start ≤ length reader.now.rows }
    requires few { count + length reader.now.segment.documents ≤ TERMINATED }
    ensures added { OnOk result (rows.new.items ≡ rows.old.items ++ map (row_behind count) (drop start reader.now.rows)) }
    ensures refused { IsOkUnless result QueryError.Memory }
{
    // those before it are there
    for place in start..reader.row_count() {
        rows.push(behind(alloc, &reader.row(place), count)?)?;
    }
    Ok(())
}

// A row of documents that come behind so many.
fn behind(alloc: Global, row: &TermRowRef<'_>, count: DocId) -> Result<TermRow, QueryError>
    requires paired { length (lent_row row.now).frequencies ≡ length (lent_row row.now).documents }
    requires few { All (λ d. count + d < TERMINATED) (lent_row row.now).documents }
    ensures row { IfOk result (λ it. it ≡ row_behind count (lent_row row.now)) }
    ensures refused { IsOkUnless result QueryError.Memory }
{
    let mut made = TermRow {
        term: row.term().clone(alloc)?,
        documents: Vec::with_capacity(alloc, row.documents().len())?,
        frequencies: Vec::with_capacity(alloc, row.documents().len())?,
        positions: Vec::with_capacity(alloc, row.positions().len())?,
    };
    push_postings(&mut made, row, count)?;
    Ok(made)
}

// A row, and behind its postings those of another of documents that come behind so many.
fn both(
    alloc: Global,
    row: &TermRowRef<'_>,
    other: &TermRowRef<'_>,
    count: DocId,
) -> Result<TermRow, QueryError>
    requires paired { length (lent_row other.now).frequencies ≡ length (lent_row other.now).documents }
    requires few { All (λ d. count + d < TERMINATED) (lent_row other.now).documents }
    ensures row { IfOk result (λ it. it ≡ row_of_both (lent_row row.now) (row_behind count (lent_row other.now))) }
    ensures refused { IsOkUnless result QueryError.Memory }
{
    let mut made = row.copy(alloc)?;
    push_postings(&mut made, other, count)?;
    Ok(made)
}

// Adds the postings of a row, of documents that come behind so many.
fn push_postings(row: &mut TermRow, other: &TermRowRef<'_>, count: DocId) -> Result<(), QueryError>
    requires paired { length (lent_row other.now).frequencies ≡ length (lent_row other.now).documents }
    requires few { All (λ d. count + d < TERMINATED) (lent_row other.now).documents }
    ensures added { OnOk result (row.new ≡ row_of_both row.old (row_behind count (lent_row other.now))) }
    ensures refused { IsOkUnless result QueryError.Memory }
{
    // those before it are there
    for place in 0..other.documents().len() {
        row.documents.push(count + other.documents()[place])?;
        row.frequencies.push(other.frequency(place))?;
    }
    row.positions.extend_from_slice(other.positions())?;
    Ok(())
}
