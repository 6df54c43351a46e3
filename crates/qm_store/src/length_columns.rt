//! The length ids of a stored segment.

ghost use Rattle.std.specs.Prelude.{◌≡◌, IfOk, if◌then◌else◌, map, option_map};
ghost use Rattle.qm_postings.specs.Segment.{keeps_lengths};
ghost use Rattle.qm_store.specs.Columns.{columns_at};

use qm_schema::{Field, Schema};
use std::alloc::{AllocError, Global};

// A column for each field of a schema: an id for each document where the field keeps lengths, and else none. None at all
// where the bytes are no such columns.
pub(crate) fn read_columns(
    alloc: Global,
    schema: &Schema,
    documents: u32,
    bytes: &[u8],
) -> Result<Option<Vec<Vec<u8>>>, AllocError>
    ensures { IfOk result (λ r. option_map (λ v. map (λ c. c.items) v.items) r ≡ columns_at schema.now documents bytes.now) }
{
    let mut columns = Vec::new(alloc);
    let mut rest = bytes;
    // what is read and what is left make all
    for id in 0..schema.field_count() {
        let count = column_len(schema, id, documents);
        if count > rest.len() {
            return Ok(None);
        }
        let (column, behind) = rest.split_at(count);
        columns.push(Vec::from_slice(alloc, column)?)?;
        rest = behind;
    }
    if rest.is_empty() {
        Ok(Some(columns))
    } else {
        Ok(None)
    }
}

// How many length ids a field keeps of so many documents.
fn column_len(schema: &Schema, id: u32, documents: u32) -> usize
    ensures { result ≡ (if keeps_lengths schema.now id then documents else 0) }
{
    match schema.get_field_entry(Field::from_field_id(id)) {
        Some(entry) if entry.has_fieldnorms() => documents as usize,
        _ => 0,
    }
}
