//! A cursor over the members of a bit set.
//!
//! The cursor keeps a copy of what is left of its word, so that a step changes that, and never the set.

ghost use Rattle.std.specs.Prelude.{◌≡◌, ℕ, ◌+◌, ◌*◌, ◌/◌, ◌%◌, ◌≤◌, ◌&&◌, nat_lt, nat_le, map, drop, slice_get};
ghost use Rattle.qm_docset.specs.BitSet.{set_has, set_max_value, set_members, set_members_from, members_left};
ghost use Rattle.qm_docset.specs.BitSetDocSet.{remaining_members, IsOnMember, IsBitSetCursor};
ghost use Rattle.qm_docset.specs.BitSetDocSetFacts.{AreEntries-remaining};
ghost use Rattle.qm_docset.specs.Entry.{head_document, no_limits, plain};
ghost use Rattle.qm_docset.specs.Lists.{Lists};
ghost use Rattle.qm_docset.specs.Members.{members_between};
ghost use Rattle.qm_docset.specs.TinySet.{tiny_has, tiny_members};

use crate::alive_bitset::AliveBitSet;
use crate::bitset::BitSet;
use crate::docset::{DocSet, SeekDangerResult};
use crate::numbers::{DocId, TERMINATED};
use crate::tiny_set::TinySet;

/// A cursor over the members of a bit set, ascending.
#[derive(Debug, Drop)]
pub struct BitSetDocSet {
    docs: BitSet,
    doc: DocId,
    // the members behind the document: those left in its bucket's word, and all of later buckets
    bucket: u32,
    word: TinySet,
}

impl BitSetDocSet {
    /// A cursor that stands on the first member. Asks that the set's `max_value` is at most
    /// [`TERMINATED`].
    pub fn new(docs: BitSet) -> BitSetDocSet
        requires { set_max_value docs ≤ TERMINATED }
        ensures lists { Lists ⟦<BitSetDocSet as DocSet>⟧ result (map plain (set_members docs)) no_limits }
    {
        let mut docset = BitSetDocSet {
            docs,
            doc: 0,
            bucket: 0,
            word: TinySet::empty(),
        };
        docset.go_to(0);
        docset
    }

    /// Goes to the first member at or past `target`, wherever the cursor stands.
    fn go_to(&mut self, target: DocId)
        requires documents { set_max_value self.old.docs ≤ TERMINATED }
        requires target { target ≤ TERMINATED }
        ensures docs { self.new.docs ≡ self.old.docs }
        ensures entries { remaining_members self.new ≡ map plain (set_members_from self.old.docs target) }
        ensures valid { IsBitSetCursor self.new }
        ensures placed { IsOnMember self.new }
    {
        self.bucket = target / 64;
        self.word = word_from(&self.docs, target);
        self.doc = take_next(&self.docs, &mut self.bucket, &mut self.word).unwrap_or(TERMINATED);
    }
}

/// The members of a document's word at or past it.
fn word_from(docs: &BitSet, doc: DocId) -> TinySet
    ensures has { (x : ℕ) → tiny_has result x ≡ ((nat_lt x 64 && set_has docs.now (64 * (doc / 64) + x)) && (nat_le (doc % 64) x && nat_lt x 64)) }
    ensures members { map (λ x. 64 * (doc / 64) + x) (tiny_members result) ≡ members_between (set_has docs.now) doc (64 * (doc / 64 + 1)) }
{
    docs.tinyset(doc / 64)
        .intersect(TinySet::range_greater_or_equal(doc))
}

/// Takes the next member out of what is left of a bucket's word, or else of the first word after it
/// that has one.
fn take_next(docs: &BitSet, bucket: &mut u32, word: &mut TinySet) -> Option<DocId>
    requires documents { set_max_value docs.now ≤ TERMINATED }
    requires bucket { 64 * bucket.old ≤ TERMINATED }
    ensures next { result ≡ slice_get (members_left docs.now bucket.old word.old) 0 }
    ensures left { members_left docs.now bucket.new word.new ≡ drop 1 (members_left docs.now bucket.old word.old) }
    ensures bucket { 64 * bucket.new ≤ TERMINATED }
{
    if let Some(lowest) = word.pop_lowest() {
        return Some(64 * *bucket + lowest);
    }
    *bucket = docs.first_non_empty_bucket(*bucket + 1)?;
    *word = docs.tinyset(*bucket);
    let lowest = word.pop_lowest().unwrap();
    Some(64 * *bucket + lowest)
}

/// A step takes the next member out of a word that the cursor keeps. Each call looks at words of 64
/// documents, and passes over an empty stretch a word at a time.
/// `seek_danger` looks at the target's word alone, and bounds by the word's end where it has no
/// member from the target on.
impl DocSet for BitSetDocSet {
    ghost entries = { remaining_members };

    ghost placed = { IsOnMember };

    ghost valid = { IsBitSetCursor };

    fn doc(&self) -> DocId {
        self.doc
    }

    fn advance(&mut self) -> DocId {
        self.doc = take_next(&self.docs, &mut self.bucket, &mut self.word).unwrap_or(TERMINATED);
        self.doc
    }

    fn seek(&mut self, target: DocId) -> DocId {
        self.go_to(self.doc.max(target));
        self.doc
    }

    fn seek_danger(&mut self, target: DocId) -> SeekDangerResult {
        let from = self.doc.max(target);
        self.bucket = from / 64;
        self.word = word_from(&self.docs, from);
        let Some(lowest) = self.word.pop_lowest() else {
            self.doc = (64 * (self.bucket + 1)).min(TERMINATED);
            return SeekDangerResult::SeekLowerBound(self.doc);
        };
        self.doc = 64 * self.bucket + lowest;
        if self.doc == target {
            SeekDangerResult::Found
        } else {
            SeekDangerResult::SeekLowerBound(self.doc)
        }
    }

    fn size_hint(&self) -> u32 {
        self.docs.len() as u32
    }

    fn cost(&self) -> u64 {
        self.docs.len() as u64 + u64::from(self.docs.max_value() / 64)
    }

    fn count(&mut self, alive: &AliveBitSet) -> u32 {
        let first = self.doc / 64;
        let mut count = word_from(&self.docs, self.doc)
            .intersect(alive.tinyset(first))
            .len();
        // the alive members below the bucket are counted
        for bucket in first + 1..self.docs.max_value().div_ceil(64) {
            count += self
                .docs
                .tinyset(bucket)
                .intersect(alive.tinyset(bucket))
                .len();
        }
        self.go_to(TERMINATED);
        count
    }

    fn count_including_deleted(&mut self) -> u32 {
        let mut count = word_from(&self.docs, self.doc).len();
        // the members below the bucket are counted
        for bucket in self.doc / 64 + 1..self.docs.max_value().div_ceil(64) {
            count += self.docs.tinyset(bucket).len();
        }
        self.go_to(TERMINATED);
        count
    }

    ghost ascending = { AreEntries-remaining };
}
