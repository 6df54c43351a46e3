//! A cursor of one's own: over a single document, such as one that was found by its key elsewhere.

ghost use Rattle.std.specs.Prelude.{◌≡◌, ◌<◌, ◌∷◌, []};
ghost use Rattle.example_search.specs.OneDocument.{AreEntries-left, IsBelowEnd, left};
ghost use Rattle.qm_docset.specs.Entry.{no_limits, plain};
ghost use Rattle.qm_docset.specs.Lists.{Lists};

use qm_docset::{DocId, DocSet, TERMINATED};

/// A cursor over one document.
#[derive(Drop)]
pub struct OneDocument {
    // none once the cursor has gone past it
    doc: Option<DocId>,
}

impl OneDocument {
    /// A cursor that stands on this document. Asks that it is below [`TERMINATED`].
    pub fn new(doc: DocId) -> OneDocument
        requires { doc < TERMINATED }
        ensures lists { Lists ⟦<OneDocument as DocSet>⟧ result (plain doc ∷ []) no_limits }
    {
        OneDocument { doc: Some(doc) }
    }
}

// A cursor says what it has left (`entries`), when it may be used (`valid`), and when it stands on
// its first document (`placed`: this one always does). What each call answers and leaves is said by
// the trait, over these, so that no call needs a clause of its own. All other calls have bodies by
// default.
#[tactic(auto, using(crate::specs::OneDocument::left_facts))]
impl DocSet for OneDocument {
    ghost entries = { λ s. left s.doc };

    ghost placed = { λ _. Unit {0} };

    ghost valid = { λ s. IsBelowEnd s.doc };

    fn doc(&self) -> DocId {
        self.doc.unwrap_or(TERMINATED)
    }

    fn advance(&mut self) -> DocId {
        self.doc = None;
        TERMINATED
    }

    fn seek(&mut self, target: DocId) -> DocId {
        if self.doc() < target {
            self.doc = None;
        }
        self.doc()
    }

    fn size_hint(&self) -> u32 {
        u32::from(self.doc.is_some())
    }

    // the one law of a cursor: what it has left ascends, below `TERMINATED`
    ghost ascending = { λ s h. AreEntries-left s.doc h };
}
