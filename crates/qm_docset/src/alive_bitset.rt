//! The documents of a segment that were not deleted.

ghost use Rattle.std.specs.Prelude.{◌≡◌, ℕ, ◌*◌, ◌+◌, ◌≤◌, ◌<◌, ◌==◌, ◌&&◌, nat_lt, not, false, length};
ghost use Rattle.qm_docset.specs.TinySet.{tiny_has};
ghost use Rattle.qm_docset.specs.BitSet.{set_has, set_max_value, set_members};

use crate::bitset::BitSet;
use crate::numbers::DocId;
use crate::tiny_set::TinySet;

/// The documents of a segment that were not deleted.
#[derive(Debug, Drop)]
pub struct AliveBitSet {
    alive: BitSet,
}

impl AliveBitSet {
    ghost use Rattle.qm_docset.specs.AliveBitSet.{alive_docs};

    /// Whether a document is alive; none at or past the set's `max_value` is.
    pub fn is_alive(&self, doc: DocId) -> bool
        ensures member { result ≡ set_has (alive_docs self.now) doc }
        ensures past { set_max_value (alive_docs self.now) ≤ doc → result ≡ false }
    {
        self.alive.contains(doc)
    }

    /// The number of alive documents.
    pub fn num_alive_docs(&self) -> usize
        ensures { result ≡ length (set_members (alive_docs self.now)) }
    {
        self.alive.len()
    }

    /// Deletes a document, which is below the set's `max_value`: it is alive no more. To delete it again
    /// changes nothing. Constant time, and no memory.
    pub fn remove(&mut self, doc: DocId)
        requires { doc < set_max_value (alive_docs self.old) }
        ensures alive { (x : ℕ) → set_has (alive_docs self.new) x ≡ (set_has (alive_docs self.old) x && not (x == doc)) }
        ensures max_value { set_max_value (alive_docs self.new) ≡ set_max_value (alive_docs self.old) }
    {
        self.alive.remove(doc);
    }

    /// The alive documents of a bucket, less `64 * bucket`, as of a [`BitSet`].
    pub(crate) fn tinyset(&self, bucket: u32) -> TinySet
        ensures { (x : ℕ) → tiny_has result x ≡ (nat_lt x 64 && set_has (alive_docs self.now) (64 * bucket + x)) }
    {
        self.alive.tinyset(bucket)
    }
}

impl From<BitSet> for AliveBitSet {
    ghost use Rattle.qm_docset.specs.AliveBitSet.{alive_docs};

    // the members of the set are the alive documents
    ghost from_gives = { λ bitset alive. alive_docs alive ≡ bitset };

    fn from(bitset: BitSet) -> AliveBitSet {
        AliveBitSet { alive: bitset }
    }
}
