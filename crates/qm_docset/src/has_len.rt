//! Containers that know their length.

ghost use Rattle.std.specs.Prelude.{◌≡◌, ◌↔◌, ℕ, IsTrue};

/// A container that knows how many elements it was made with.
pub trait HasLen {
    ghost len_of: { Self → ℕ };

    /// The number of elements.
    fn len(&self) -> usize
        ensures { result ≡ len_of self.now };

    /// Whether there is no element.
    fn is_empty(&self) -> bool
        ensures { IsTrue result ↔ (len_of self.now ≡ 0) };
}
