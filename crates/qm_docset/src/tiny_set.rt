//! A set of small numbers in one word.

ghost use Rattle.std.specs.Prelude.{◌≡◌, ℕ, ◌%◌, ◌<◌, ◌==◌, ◌||◌, ◌&&◌, ◌↔◌, nat_lt, nat_le, not, false, [], drop, length, slice_get, IsTrue, IfSome};

/// A set of numbers from 0 to 63, kept as the bits of one word. It is copied freely, and each call
/// costs a few instructions.
#[derive(Clone, Copy, Debug, PartialEq, Eq)]
pub struct TinySet {
    bits: u64,
}

impl TinySet {
    ghost use Rattle.qm_docset.specs.TinySet.{tiny_has, tiny_members};

    /// The set without members.
    pub fn empty() -> TinySet
        ensures { (x : ℕ) → tiny_has result x ≡ false }
    {
        TinySet { bits: 0 }
    }

    /// The numbers of the set and `el`, which is below 64.
    pub fn insert(self, el: u32) -> TinySet
        requires { el < 64 }
        ensures { (x : ℕ) → tiny_has result x ≡ (x == el || tiny_has self x) }
    {
        TinySet {
            bits: self.bits | (1 << el),
        }
    }

    /// Adds `el`, which is below 64, and says whether it is new.
    pub fn insert_mut(&mut self, el: u32) -> bool
        requires { el < 64 }
        ensures new { result ≡ not (tiny_has self.old el) }
        ensures members { (x : ℕ) → tiny_has self.new x ≡ (x == el || tiny_has self.old x) }
    {
        let is_new = !self.contains(el);
        *self = self.insert(el);
        is_new
    }

    /// The numbers of the set without `el`, which is below 64.
    pub fn remove(self, el: u32) -> TinySet
        requires { el < 64 }
        ensures { (x : ℕ) → tiny_has result x ≡ (tiny_has self x && not (x == el)) }
    {
        TinySet {
            bits: self.bits & !(1 << el),
        }
    }

    /// Whether `el`, which is below 64, is a member.
    pub fn contains(self, el: u32) -> bool
        requires { el < 64 }
        ensures { result ≡ tiny_has self el }
    {
        (self.bits >> el) & 1 == 1
    }

    /// Takes the least member out and answers it, or `None` where there is none.
    pub fn pop_lowest(&mut self) -> Option<u32>
        ensures lowest { result ≡ slice_get (tiny_members self.old) 0 }
        ensures members { tiny_members self.new ≡ drop 1 (tiny_members self.old) }
        ensures others { IfSome result (λ lowest. (x : ℕ) → tiny_has self.new x ≡ (tiny_has self.old x && not (x == lowest))) }
    {
        if self.bits == 0 {
            return None;
        }
        let lowest = self.bits.trailing_zeros();
        self.bits &= !(1 << lowest);
        Some(lowest)
    }

    /// The numbers from `from % 64` to 63.
    pub fn range_greater_or_equal(from: u32) -> TinySet
        ensures { (x : ℕ) → tiny_has result x ≡ (nat_le (from % 64) x && nat_lt x 64) }
    {
        TinySet {
            bits: u64::MAX << (from % 64),
        }
    }

    /// The numbers that both sets have.
    pub fn intersect(self, other: TinySet) -> TinySet
        ensures { (x : ℕ) → tiny_has result x ≡ (tiny_has self x && tiny_has other x) }
    {
        TinySet {
            bits: self.bits & other.bits,
        }
    }

    /// The number of members.
    pub fn len(self) -> u32
        ensures { result ≡ length (tiny_members self) }
    {
        self.bits.count_ones()
    }

    /// Whether there is no member.
    pub fn is_empty(self) -> bool
        ensures { IsTrue result ↔ (tiny_members self ≡ []) }
    {
        self.bits == 0
    }

    /// Takes every member out.
    pub fn clear(&mut self)
        ensures { (x : ℕ) → tiny_has self.new x ≡ false }
    {
        self.bits = 0;
    }
}
