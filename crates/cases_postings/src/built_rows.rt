//! Segments whose rows are put together anew, posting by posting.

ghost use Rattle.std.specs.Prelude.{◌≡◌, OnOk, length};
ghost use Rattle.qm_postings.specs.LentRow.{lent_row};
ghost use Rattle.qm_postings.specs.RowsSoFar.{IsLaid, pushed_row};

use qm_postings::{RowsBuilder, RowsError, SegmentReader, TermRow, TermRowRef};
use qm_schema::{QueryError, Term};
use std::alloc::{AllocError, Global};

/// The segment made anew of its own rows, posting by posting, and of these columns of length ids.
pub fn built_again(
    alloc: Global,
    segment: &SegmentReader,
    lengths: Vec<Vec<u8>>,
) -> Result<SegmentReader, RowsError> {
    let mut rows = RowsBuilder::new(alloc);
    // the rows at the places before this one are put together anew
    for place in 0..segment.row_count() {
        match push_row(alloc, &mut rows, &segment.row(place)) {
            Ok(()) => {}
            Err(_) => return Err(RowsError::Memory),
        }
    }
    rows.finish(
        alloc,
        segment.schema(),
        segment.block_len(),
        segment.max_doc(),
        lengths,
    )
}

/// The same row, put together anew.
pub fn row_again(alloc: Global, row: &TermRowRef<'_>) -> Result<TermRow, QueryError>
    requires { IsLaid (lent_row row.now) }
{
    let mut rows = RowsBuilder::new(alloc);
    push_parts(&mut rows, row)?;
    Ok(rows.into_row(alloc, row.term().clone(alloc)?)?)
}

// Adds a row to others.
fn push_row(alloc: Global, rows: &mut RowsBuilder, row: &TermRowRef<'_>) -> Result<(), QueryError>
    requires { IsLaid (lent_row row.now) }
{
    let term: Term = row.term().clone(alloc)?;
    push_parts(rows, row)?;
    rows.end_row(term)?;
    Ok(())
}

// Begins a row, and pushes its postings and its positions.
fn push_parts(rows: &mut RowsBuilder, row: &TermRowRef<'_>) -> Result<(), AllocError>
    requires { length (lent_row row.now).frequencies ≡ length (lent_row row.now).documents }
    ensures pushed { OnOk result (pushed_row (lent_row row.now).term rows.new ≡ lent_row row.now) }
    ensures rows { rows.new.rows ≡ rows.old.rows }
{
    rows.begin_row(row.documents().len(), row.positions().len())?;
    // those before it are there
    for place in 0..row.documents().len() {
        rows.push_posting(row.documents()[place], row.frequency(place))?;
    }
    // those before it are there
    for position in row.positions() {
        rows.push_position(*position)?;
    }
    Ok(())
}
