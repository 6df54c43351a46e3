//! A set of numbers below a bound, in words.
//!
//! The number of members is kept, so that `len` costs nothing. For that, adding one looks whether it is there.

ghost use Rattle.std.specs.Prelude.{◌≡◌, ℕ, ◌+◌, ◌*◌, ◌/◌, ◌<◌, ◌≤◌, ◌==◌, ◌||◌, ◌&&◌, nat_lt, not, false, length, slice_get, option_map, vec_len, IfOk, IsTrue};
ghost use Rattle.qm_docset.specs.Members.{members_between};
ghost use Rattle.qm_docset.specs.TinySet.{tiny_has};
ghost use Rattle.qm_docset.specs.Words.{words_have};

use crate::tiny_set::TinySet;
use std::alloc::{AllocError, Global};

/// A set of numbers below a bound that it is made with, 64 in each word.
#[derive(Debug, Drop)]
pub struct BitSet {
    words: Vec<TinySet>,
    len: usize,
    max_value: u32,
    ghost covers: { vec_len words ≡ (max_value + 63) / 64 },
    ghost within: { (x : ℕ) → IsTrue (words_have words.items x) → x < max_value },
    ghost counted: { len ≡ length (members_between (words_have words.items) 0 max_value) },
}

impl BitSet {
    ghost use Rattle.qm_docset.specs.BitSet.{set_has, set_max_value, set_members, set_members_from};

    /// The set without members, with room for the numbers below `max_value`: all the memory that it
    /// ever takes. Answers an `AllocError` where that is refused. It costs a write to each word.
    pub fn with_max_value(alloc: Global, max_value: u32) -> Result<BitSet, AllocError>
        ensures members { IfOk result (λ set. (x : ℕ) → set_has set x ≡ false) }
        ensures max_value { IfOk result (λ set. set_max_value set ≡ max_value) }
    {
        let words = vec![in alloc; TinySet::empty(); max_value.div_ceil(64) as usize]?;
        Ok(BitSet {
            words,
            len: 0,
            max_value,
        })
    }

    /// Adds `el`, which is below `max_value`, where it is not there yet.
    pub fn insert(&mut self, el: u32)
        requires { el < set_max_value self.old }
        ensures members { (x : ℕ) → set_has self.new x ≡ (x == el || set_has self.old x) }
        ensures max_value { set_max_value self.new ≡ set_max_value self.old }
    {
        if self.contains(el) {
            return;
        }
        let bucket = (el / 64) as usize;
        self.words[bucket] = self.words[bucket].insert(el % 64);
        self.len += 1;
    }

    /// Takes `el`, which is below `max_value`, out where it is there.
    pub fn remove(&mut self, el: u32)
        requires { el < set_max_value self.old }
        ensures members { (x : ℕ) → set_has self.new x ≡ (set_has self.old x && not (x == el)) }
        ensures max_value { set_max_value self.new ≡ set_max_value self.old }
    {
        if !self.contains(el) {
            return;
        }
        let bucket = (el / 64) as usize;
        self.words[bucket] = self.words[bucket].remove(el % 64);
        self.len -= 1;
    }

    /// Whether `el` is a member; none at or past `max_value` is.
    pub fn contains(&self, el: u32) -> bool
        ensures member { result ≡ set_has self.now el }
        ensures past { set_max_value self.now ≤ el → result ≡ false }
    {
        self.tinyset(el / 64).contains(el % 64)
    }

    /// The number of members, which the set keeps.
    pub fn len(&self) -> usize
        ensures { result ≡ length (set_members self.now) }
    {
        self.len
    }

    /// The number that all members are below, as it was given.
    pub fn max_value(&self) -> u32
        ensures { result ≡ set_max_value self.now }
    {
        self.max_value
    }

    /// The members of a bucket, which are the numbers from `64 * bucket` on, less `64 * bucket`; no
    /// member where the bucket is past the last one. It reads one word.
    pub fn tinyset(&self, bucket: u32) -> TinySet
        ensures { (x : ℕ) → tiny_has result x ≡ (nat_lt x 64 && set_has self.now (64 * bucket + x)) }
    {
        match self.words.get(bucket as usize) {
            Some(word) => *word,
            None => TinySet::empty(),
        }
    }

    /// The first bucket at or past `bucket` that has a member. It looks at one word for each bucket
    /// that it passes.
    pub fn first_non_empty_bucket(&self, bucket: u32) -> Option<u32>
        ensures { result ≡ option_map (λ x. x / 64) (slice_get (set_members_from self.now (64 * bucket)) 0) }
    {
        // no bucket that was passed has a member
        for index in bucket as usize..self.words.len() {
            if !self.words[index].is_empty() {
                return Some(index as u32);
            }
        }
        None
    }
}
