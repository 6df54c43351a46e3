//! What a cursor still has to visit.

ghost use Rattle.std.specs.Prelude.{◌≡◌, IfOk};
ghost use Rattle.qm_docset.specs.Entry.{documents};
ghost use Rattle.qm_docset.specs.Lists.{IsPlaced};

use crate::docset::DocSet;
use crate::numbers::{COLLECT_BLOCK_BUFFER_LEN, DocId};
use std::alloc::{AllocError, Global};

// what is reserved at most before the first document is found, since a hint may be far too large
const MOST_RESERVED: usize = 1024;

/// The documents that a cursor has left, ascending. It takes them 64 at a time by `fill_buffer`.
/// Room for as many as the size hint says, up to 1024, is reserved at once, and more as the list
/// grows; an `AllocError` where that is refused.
pub fn documents_left<D: DocSet>(alloc: Global, mut docset: D) -> Result<Vec<DocId>, AllocError>
    requires { IsPlaced D.DocSet docset }
    ensures { IfOk result (λ found. found.items ≡ documents (D.entries docset)) }
{
    let mut found = Vec::with_capacity(alloc, MOST_RESERVED.min(docset.size_hint() as usize))?;
    let mut buffer = [0; COLLECT_BLOCK_BUFFER_LEN];
    // what was found and what the cursor has left are all documents that it had
    loop {
        let count = docset.fill_buffer(&mut buffer);
        found.extend_from_slice(&buffer[..count])?;
        if count < COLLECT_BLOCK_BUFFER_LEN {
            return Ok(found);
        }
    }
}
