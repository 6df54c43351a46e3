//! The deleted documents of two segments, in the segment of both.

ghost use Rattle.std.specs.Prelude.{◌≡◌, ◌+◌, ◌<◌, [], IsOkUnless, OnOk, length};
ghost use Rattle.qm_postings.specs.Segment.{without};
ghost use Rattle.qm_merge.specs.Merging.{joined, was_deleted};

use crate::alive::is_alive;
use qm_docset::DocId;
use qm_postings::SegmentReader;
use qm_schema::QueryError;
use std::alloc::Global;

// Deletes what is deleted in two segments, in a segment of the documents of both. A step for each document, where one
// was deleted.
pub(crate) fn delete_of_both(
    alloc: Global,
    segment: &mut SegmentReader,
    first: &SegmentReader,
    second: &SegmentReader,
) -> Result<(), QueryError>
    requires both { length segment.old.segment.documents ≡ length first.now.segment.documents + length second.now.segment.documents }
    requires none { segment.old.segment.deleted ≡ [] }
    ensures deleted { OnOk result (segment.new.segment ≡ without (joined first.now.segment second.now.segment).deleted segment.old.segment) }
    ensures refused { IsOkUnless result QueryError.Memory }
{
    let (in_first, in_second) = (first.alive_bitset(), second.alive_bitset());
    if in_first.is_none() && in_second.is_none() {
        return Ok(());
    }
    // those before it are deleted where they were
    for doc in 0..segment.max_doc() {
        if was_deleted(first, second, doc) {
            segment.delete(alloc, doc)?;
        }
    }
    Ok(())
}

// Whether a document of the first, or one of the second behind them, was deleted.
fn was_deleted(first: &SegmentReader, second: &SegmentReader, doc: DocId) -> bool
    requires { doc < length first.now.segment.documents + length second.now.segment.documents }
    ensures { result ≡ was_deleted first.now.segment second.now.segment doc }
{
    let count = first.max_doc();
    if doc < count {
        !is_alive(first, doc)
    } else {
        !is_alive(second, doc - count)
    }
}
