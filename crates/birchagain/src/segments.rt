//! Segments that are ended and built.

ghost use Rattle.std.specs.Prelude.{IfErr, OnErr, OnOk};
ghost use Rattle.qm_index.specs.Indexed.{IsRefreshed, indexed};
ghost use Rattle.birchagain.specs.Changes.{IsEnded, IsSame};
ghost use Rattle.birchagain.specs.Refusals.{IsEndRefusal, IsMemory};

use crate::refusal::Refusal;
use qm_index::Index;
use std::alloc::Global;

/// Ends the open segment, and opens another. Costs what [`Index::end_segment`] does.
///
/// Refused with [`QueryError::TooManySegments`](qm_schema::QueryError::TooManySegments) where there are 4294967295
/// with the open one, and else for want of memory.
pub fn end_segment(alloc: Global, index: &mut Index) -> Result<(), Refusal>
    ensures ended { OnOk result (IsEnded index.old index.new) }
    ensures unchanged { OnErr result (IsSame index.old index.new) }
    ensures refused { IfErr result (IsEndRefusal (indexed index.old)) }
{
    index.end_segment(alloc)?;
    Ok(())
}

/// Builds what was added since the last time, so that the next query need not. Refused for want of memory.
pub fn refresh(alloc: Global, index: &mut Index) -> Result<(), Refusal>
    ensures same { IsSame index.old index.new }
    ensures refreshed { OnOk result (IsRefreshed index.new) }
    ensures refused { IfErr result IsMemory }
{
    index.refresh(alloc)?;
    Ok(())
}
