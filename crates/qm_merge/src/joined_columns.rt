//! The length ids of two segments, joined.

ghost use Rattle.std.specs.Prelude.{◌≡◌, IfOk, IsOkUnless, map};
ghost use Rattle.qm_merge.specs.JoinedRows.{columns_of_both};
ghost use Rattle.qm_merge.specs.Merging.{AreAlike};

use qm_postings::SegmentReader;
use qm_schema::{Field, QueryError};
use std::alloc::Global;

// Of each field the length ids in the documents of the first, and behind them in those of the second.
pub(crate) fn joined_columns(
    alloc: Global,
    first: &SegmentReader,
    second: &SegmentReader,
) -> Result<Vec<Vec<u8>>, QueryError>
    requires alike { AreAlike first.now.segment second.now.segment }
    ensures columns { IfOk result (λ it. map (λ c. c.items) it.items ≡ columns_of_both first.now.segment second.now.segment) }
    ensures refused { IsOkUnless result QueryError.Memory }
{
    let mut columns = Vec::new(alloc);
    // those before it are there
    for id in 0..first.schema().field_count() {
        let field = Field::from_field_id(id);
        let mut column = Vec::new(alloc);
        column.extend_from_slice(first.length_ids(field))?;
        column.extend_from_slice(second.length_ids(field))?;
        columns.push(column)?;
    }
    Ok(columns)
}
