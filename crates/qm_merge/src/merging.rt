//! Two segments made one.

ghost use Rattle.std.specs.Prelude.{◌≡◌, ◌↔◌, ◌+◌, ◌<◌, ◌≤◌, IfOk, IsErrOf, IsOkUnless, length};
ghost use Rattle.qm_merge.specs.Merging.{AreAlike, AreTooMany, joined};

use crate::alike::are_alike;
use crate::deletions::delete_of_both;
use crate::error::MergeError;
use crate::joined_columns::joined_columns;
use crate::joined_rows::joined_rows;
use crate::made_of_rows::made_of_rows;
use qm_docset::TERMINATED;
use qm_postings::SegmentReader;
use qm_schema::QueryError;
use std::alloc::Global;

/// The segment of the documents of one segment, and of those of another behind them, with the numbers that follow.
/// Deleted are those that were: they keep their numbers and their postings. Costs a step for each posting, position,
/// term and document of both.
///
/// Refused with [`MergeError::Unlike`] exactly where the two have other fields than one another, or blocks of other
/// lengths; with [`MergeError::TooMany`] exactly where they are alike and have more than
/// [`TERMINATED`] documents together; and else with [`MergeError::Memory`] alone.
pub fn merge(
    alloc: Global,
    first: &SegmentReader,
    second: &SegmentReader,
) -> Result<SegmentReader, MergeError>
    ensures merged { IfOk result (λ it. it.segment ≡ joined first.now.segment second.now.segment) }
    ensures unlike { IsErrOf result MergeError.Unlike ↔ ¬ AreAlike first.now.segment second.now.segment }
    ensures too_many { IsErrOf result MergeError.TooMany ↔ AreTooMany first.now.segment second.now.segment }
{
    if !are_alike(first, second) {
        return Err(MergeError::Unlike);
    }
    if first.max_doc() > TERMINATED - second.max_doc() {
        return Err(MergeError::TooMany);
    }
    match joined_segment(alloc, first, second) {
        Ok(segment) => Ok(segment),
        Err(_) => Err(MergeError::Memory),
    }
}

// The segment of the documents of both, of which there are few enough.
fn joined_segment(
    alloc: Global,
    first: &SegmentReader,
    second: &SegmentReader,
) -> Result<SegmentReader, QueryError>
    requires alike { AreAlike first.now.segment second.now.segment }
    requires few { length first.now.segment.documents + length second.now.segment.documents ≤ TERMINATED }
    ensures joined { IfOk result (λ it. it.segment ≡ joined first.now.segment second.now.segment) }
{
    let rows = joined_rows(alloc, first, second)?;
    let lengths = joined_columns(alloc, first, second)?;
    let count = first.max_doc() + second.max_doc();
    let mut segment = made_of_rows(
        alloc,
        first.schema(),
        first.block_len(),
        count,
        lengths,
        rows,
    )?;
    delete_of_both(alloc, &mut segment, first, second)?;
    Ok(segment)
}
