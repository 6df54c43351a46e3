//! What a caller learns of an index, from the contracts of its calls alone.

ghost use Rattle.std.specs.Prelude.{◌≡◌, ◌+◌, ◌≤◌, IfOk, OnOk, length};
ghost use Rattle.example_callers.specs.Found.{Replaces};
ghost use Rattle.qm_index.specs.Indexed.{IsRefreshed, indexed};
ghost use Rattle.qm_index.specs.Texts.{texts_draft};

use qm_index::Index;
use qm_schema::{Field, QueryError};
use std::alloc::Global;

/// Puts a document of these texts in the place of the document of this number, and has it searched. Answers
/// whether there was one. A refused call may have done a part of this.
pub fn replace_document(
    alloc: Global,
    index: &mut Index,
    number: u64,
    texts: Vec<(Field, String)>,
) -> Result<bool, QueryError>
    ensures replaced { IfOk result (Replaces number (texts_draft texts.items) (indexed index.old) (indexed index.new)) }
    ensures refreshed { OnOk result (IsRefreshed index.new) }
{
    let existed = index.delete(alloc, number)?;
    index.add_document(alloc, texts)?;
    index.refresh(alloc)?;
    Ok(existed)
}

/// How many segments are searched once the open one is a single part: those that were ended, and one more at
/// most. Refused for want of memory alone.
pub fn searched_segments(alloc: Global, index: &mut Index) -> Result<usize, QueryError>
    ensures few { IfOk result (λ count. count ≤ length (indexed index.new).ended + 1) }
    ensures documents { indexed index.new ≡ indexed index.old }
{
    index.merge(alloc)?;
    Ok(index.searcher().segment_readers().len())
}

/// How many documents of the index are not searched, once it is refreshed: none, however its open segment is
/// kept in parts.
pub fn unsearched_documents(index: &Index) -> u64
    requires { IsRefreshed index.now }
    ensures { result ≡ 0 }
{
    let mut left = index.document_count();
    let readers = index.searcher().segment_readers();
    // the segments before have the others
    for reader in readers {
        left -= u64::from(reader.max_doc());
    }
    left
}
