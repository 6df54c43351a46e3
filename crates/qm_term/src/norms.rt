//! Where the norm of each length id stands.

ghost use Rattle.std.specs.Prelude.{◌≡◌, ℕ, List, slice_index_or};

/// The norm of each of the 256 length ids, in words: an array of them, or a reference to one, so that many weights may
/// share it. Copying it takes no memory.
pub trait Norms: Copy {
    // the norm of each length id
    ghost table: { Self → List ℕ };

    /// The norm of a length id. Constant time.
    fn norm(&self, fieldnorm_id: u8) -> u32
        ensures { result ≡ slice_index_or (table self.now) fieldnorm_id 0 };
}

impl Norms for [u32; 256] {
    ghost table = { λ norms. norms };

    #[inline]
    fn norm(&self, fieldnorm_id: u8) -> u32 {
        self[fieldnorm_id as usize]
    }
}

impl<'n> Norms for &'n [u32; 256] {
    ghost table = { λ norms. norms.now };

    #[inline]
    fn norm(&self, fieldnorm_id: u8) -> u32 {
        (**self).norm(fieldnorm_id)
    }
}
