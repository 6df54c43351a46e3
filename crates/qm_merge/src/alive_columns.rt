//! The length ids of a segment's documents that were not deleted.

ghost use Rattle.std.specs.Prelude.{◌≡◌, ◌≤◌, IfOk, IsOkUnless, length, map};
ghost use Rattle.qm_merge.specs.AliveRows.{alive_columns, ids_left, new_numbers};

use crate::new_numbers::number_of;
use qm_docset::DocId;
use qm_postings::SegmentReader;
use qm_schema::{Field, QueryError};
use std::alloc::Global;

// Of each field the length ids in the documents that have a new number.
pub(crate) fn alive_columns(
    alloc: Global,
    segment: &SegmentReader,
    numbers: &[Option<DocId>],
) -> Result<Vec<Vec<u8>>, QueryError>
    requires { numbers.now ≡ new_numbers segment.now.segment }
    ensures columns { IfOk result (λ it. map (λ c. c.items) it.items ≡ alive_columns segment.now.segment) }
    ensures refused { IsOkUnless result QueryError.Memory }
{
    let mut columns = Vec::new(alloc);
    // those before it are there
    for id in 0..segment.schema().field_count() {
        let ids = segment.length_ids(Field::from_field_id(id));
        columns.push(alive_column(alloc, ids, numbers)?)?;
    }
    Ok(columns)
}

// The length ids in the documents that have a new number; none where there are none.
fn alive_column(alloc: Global, ids: &[u8], numbers: &[Option<DocId>]) -> Result<Vec<u8>, QueryError>
    requires { length ids.now ≤ length numbers.now }
    ensures ids { IfOk result (λ it. it.items ≡ ids_left numbers.now ids.now) }
    ensures refused { IsOkUnless result QueryError.Memory }
{
    let mut column = Vec::new(alloc);
    // those before it are there
    for doc in 0..ids.len() {
        if number_of(numbers, doc).is_some() {
            column.push(ids[doc])?;
        }
    }
    Ok(column)
}
