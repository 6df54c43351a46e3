//! Sets of documents that are left out.

ghost use Rattle.std.specs.Prelude.{◌≡◌, ℕ, ◌<◌, ◌≤◌, Bool, All, IsTrue, map};
ghost use Rattle.qm_docset.specs.Exclusion.{has_document, some_has_document};

use crate::docset::{DocSet, SeekDangerResult};
use crate::numbers::{DocId, TERMINATED};

/// A set of documents that are left out, which may be asked for documents in any order.
///
/// An answer may drop members below the document that was asked for, so that a cursor may stand
/// behind it: such a member, asked for later, may no longer be there.
pub trait ExclusionSet: Drop {
    // whether a document is in what remains of the set
    ghost excludes: { Self → ℕ → Bool };
    // that the value is such a set: constructors give it, and every call asks and keeps it
    ghost usable: { Self → Type 0 };

    /// Whether a document, which is below [`TERMINATED`], is a member. The members at or past it
    /// stay, and none is added.
    fn contains(&mut self, doc: DocId) -> bool
        requires usable { usable self.old }
        requires doc { doc < TERMINATED }
        ensures member { result ≡ excludes self.old doc }
        ensures kept { (d : ℕ) → doc ≤ d → excludes self.new d ≡ excludes self.old d }
        ensures none_added { (d : ℕ) → IsTrue (excludes self.new d) → IsTrue (excludes self.old d) }
        ensures usable { usable self.new };
}

/// What a cursor excludes are its remaining documents. It is asked by `seek_danger`, so it need not
/// stand on one of them afterwards; nor need it be placed before.
impl<T: DocSet> ExclusionSet for T {
    ghost excludes = { λ docs d. has_document (T.entries docs) d };

    ghost usable = { T.valid };

    fn contains(&mut self, doc: DocId) -> bool {
        matches!(self.seek_danger(doc), SeekDangerResult::Found)
    }
}

/// What several cursors exclude is what one of them does. They are asked in turn, up to the first
/// that has the document.
impl<T: DocSet> ExclusionSet for Vec<T> {
    ghost excludes = { λ sets d. some_has_document (map T.entries sets.items) d };

    ghost usable = { λ sets. All T.valid sets.items };

    fn contains(&mut self, doc: DocId) -> bool {
        // none of the cursors that were asked has the document; each keeps what stands from it on
        for set in self.iter_mut() {
            if set.contains(doc) {
                return true;
            }
        }
        false
    }
}
