//! A cursor that writes none of the calls with a body by default.

ghost use Rattle.qm_docset.specs.DocumentsFacts.{AreEntries-documents};
ghost use Rattle.qm_docset.specs.VecDocSet.{remaining_documents, IsVecCursor};

use qm_docset::{DocId, DocSet, VecDocSet};

/// A list of documents that has no calls but those that it must, and the greatest size hint.
#[derive(Drop)]
pub struct OnlySteps {
    pub docs: VecDocSet,
}

impl DocSet for OnlySteps {
    ghost entries = { λ s. remaining_documents s.docs };

    ghost placed = { λ _. Unit {0} };

    ghost valid = { λ s. IsVecCursor s.docs };

    fn doc(&self) -> DocId {
        self.docs.doc()
    }

    fn advance(&mut self) -> DocId {
        self.docs.advance()
    }

    fn seek(&mut self, target: DocId) -> DocId {
        self.docs.seek(target)
    }

    fn size_hint(&self) -> u32 {
        u32::MAX
    }

    ghost ascending = { λ s h. AreEntries-documents s.docs.cursor s.docs.docs.items h.documents };
}
