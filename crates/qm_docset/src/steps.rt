//! A seek that steps.

ghost use Rattle.std.specs.Prelude.{◌≡◌, ◌≤◌};
ghost use Rattle.qm_docset.specs.Entry.{head_document, from};
ghost use Rattle.qm_docset.specs.Lists.{IsPlaced, Lists};

use crate::docset::DocSet;
use crate::numbers::{DocId, TERMINATED};

/// Steps a placed cursor to the first remaining document at or past `target`, and answers it: what
/// `seek` answers and leaves, for callers that know the target to be near. Each step costs an
/// `advance`.
pub fn seek_by_steps<D: DocSet>(docset: &mut D, target: DocId) -> DocId
    requires placed { IsPlaced D.DocSet docset.old }
    requires target { target ≤ TERMINATED }
    ensures head { result ≡ head_document (D.entries docset.new) }
    ensures left { Lists D.DocSet docset.new (from target (D.entries docset.old)) (D.limits docset.old) }
{
    let mut doc = docset.doc();
    // every document that was stepped over is below the target
    while doc < target {
        doc = docset.advance();
    }
    doc
}
