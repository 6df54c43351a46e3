//! New numbers of the documents that were not deleted.

ghost use Rattle.std.specs.Prelude.{◌≡◌, ◌<◌, IfOk, IsOkUnless, length};
ghost use Rattle.qm_merge.specs.AliveRows.{new_numbers, number_in};

use crate::alive::is_alive;
use qm_docset::DocId;
use qm_postings::SegmentReader;
use qm_schema::QueryError;
use std::alloc::Global;

// The new number of each document, which is how many alive ones stand before it; none where it was deleted.
pub(crate) fn new_numbers(
    alloc: Global,
    segment: &SegmentReader,
) -> Result<Vec<Option<DocId>>, QueryError>
    ensures numbers { IfOk result (λ it. it.items ≡ new_numbers segment.now.segment) }
    ensures refused { IsOkUnless result QueryError.Memory }
{
    let mut numbers = Vec::with_capacity(alloc, segment.max_doc() as usize)?;
    let mut next = 0;
    // those before it have theirs, and so many of them are alive
    for doc in 0..segment.max_doc() {
        if is_alive(segment, doc) {
            numbers.push(Some(next))?;
            next += 1;
        } else {
            numbers.push(None)?;
        }
    }
    Ok(numbers)
}

// The new number of a document, by the table of all. Constant time.
pub(crate) fn number_of(numbers: &[Option<DocId>], doc: usize) -> Option<DocId>
    requires { doc < length numbers.now }
    ensures { result ≡ number_in numbers.now doc }
{
    numbers[doc]
}
