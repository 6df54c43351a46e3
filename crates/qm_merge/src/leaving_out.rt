//! A segment without its deleted documents.

ghost use Rattle.std.specs.Prelude.{◌≡◌, IfOk, IsOkUnless};
ghost use Rattle.qm_merge.specs.Merging.{alive_only};

use crate::alive_columns::alive_columns;
use crate::alive_rows::alive_rows;
use crate::made_of_rows::made_of_rows;
use crate::new_numbers::new_numbers;
use qm_postings::SegmentReader;
use qm_schema::QueryError;
use std::alloc::Global;

/// The segment of the documents that were not deleted, in their order, numbered anew from 0 up; terms that no such
/// document holds are gone. Costs a step for each posting, position, term and document.
///
/// Refused with [`QueryError::Memory`] alone.
pub fn leave_out_deleted(
    alloc: Global,
    segment: &SegmentReader,
) -> Result<SegmentReader, QueryError>
    ensures alive { IfOk result (λ it. it.segment ≡ alive_only segment.now.segment) }
    ensures refused { IsOkUnless result QueryError.Memory }
{
    let numbers = new_numbers(alloc, segment)?;
    let rows = alive_rows(alloc, segment, &numbers)?;
    let lengths = alive_columns(alloc, segment, &numbers)?;
    made_of_rows(
        alloc,
        segment.schema(),
        segment.block_len(),
        segment.num_docs(),
        lengths,
        rows,
    )
}
