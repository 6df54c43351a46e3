//! A row that is kept as bytes and read again.

ghost use Rattle.std.specs.Prelude.{◌≡◌, IfOk, IsOkUnless, slice_get};
ghost use Rattle.qm_postings.specs.Segment.{keeps_positions};

use qm_postings::{SegmentReader, TermRow};
use qm_schema::{Field, QueryError, Schema};
use qm_store::{push_row, read_row};
use std::alloc::Global;

/// The row of the term at a place of a segment, and none past them, read again out of its bytes. Refused for want of
/// memory alone.
pub fn row_through_bytes(
    alloc: Global,
    reader: &SegmentReader,
    place: usize,
) -> Result<Option<TermRow>, QueryError>
    ensures row { IfOk result (λ row. row ≡ slice_get reader.now.rows place) }
    ensures refused { IsOkUnless result QueryError.Memory }
{
    if place >= reader.row_count() {
        return Ok(None);
    }
    let row = reader.row(place);
    let mut bytes = Vec::new(alloc);
    push_row(&mut bytes, &row)?;
    let term = row.term().clone(alloc)?;
    let has_positions = keeps_positions(reader.schema(), term.field());
    Ok(read_row(alloc, term, has_positions, &bytes)?)
}

// Whether a field keeps the positions of its terms.
pub(crate) fn keeps_positions(schema: &Schema, field: Field) -> bool
    ensures { result ≡ keeps_positions schema.now field }
{
    match schema.get_field_entry(field) {
        Some(entry) => match entry.index_record_option() {
            Some(kept) => kept.has_positions(),
            None => false,
        },
        None => false,
    }
}
