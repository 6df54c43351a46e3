//! Lists of documents that a cursor can be made of.
//!
//! A cursor that can't know whether its documents are in order asks its caller; `are_documents` is the test.

ghost use Rattle.std.specs.Prelude.{◌↔◌, IsTrue};
ghost use Rattle.qm_docset.specs.Documents.{AreDocuments};

use crate::numbers::{DocId, TERMINATED};

/// Whether these documents ascend strictly and are below [`TERMINATED`], as
/// [`VecDocSet::new`](crate::VecDocSet::new) asks. Costs a pass over the list.
pub fn are_documents(docs: &[DocId]) -> bool
    ensures { IsTrue result ↔ AreDocuments docs.now }
{
    docs.iter().all(|doc| *doc < TERMINATED) && docs.is_sorted_by(|one, next| one < next)
}
