//! Callers of a cursor over several others, and of one over the documents of a term.

ghost use Rattle.std.specs.Prelude.{◌≡◌, ◌≤◌, IfOk};
ghost use Rattle.example_callers.specs.Found.{documents_in_enough};
ghost use Rattle.qm_docset.specs.Lists.{ArePlaced, lists};
ghost use Rattle.qm_postings.specs.Segment.{holders};

use qm_combine::{BufferedDisjunction, DoNothingCombiner, Scorer};
use qm_docset::{DocId, documents_left};
use qm_postings::SegmentReader;
use qm_schema::{QueryError, Term};
use std::alloc::{AllocError, Global};

/// The documents that at least so many of several scorers have left, ascending, of a segment of `num_docs`
/// documents. Asks for a minimum of 1 or more. Refuses as [`BufferedDisjunction::build`] does.
pub fn documents_in_enough<S: Scorer>(
    alloc: Global,
    scorers: Vec<S>,
    minimum: usize,
    num_docs: u32,
) -> Result<Vec<DocId>, QueryError>
    requires placed { ArePlaced S.DocSet scorers.items }
    requires minimum { 1 ≤ minimum }
    ensures { IfOk result (λ found. found.items ≡ documents_in_enough minimum (lists S.DocSet scorers.items)) }
{
    let enough = BufferedDisjunction::build(alloc, scorers, DoNothingCombiner, minimum, num_docs)?;
    Ok(documents_left(alloc, enough)?)
}

/// The documents of a segment that hold a term, ascending. Want of memory alone refuses it.
pub fn documents_with_term(
    alloc: Global,
    reader: &SegmentReader,
    term: &Term,
) -> Result<Vec<DocId>, AllocError>
    ensures { IfOk result (λ found. found.items ≡ holders reader.now.segment term.now) }
{
    match reader.inverted_index(term.field()).read_documents(term) {
        Some(cursor) => documents_left(alloc, cursor),
        None => Ok(Vec::new(alloc)),
    }
}
