//! What gives the bytes of a stored segment, from any place on.

ghost use Rattle.std.specs.Prelude.{◌≡◌, ◌+◌, List, ℕ, OnOk, Ok, Option, None, Some, length};
ghost use Rattle.qm_store.specs.Pieces.{AddsFound, WhereKnown, part_at};

use crate::store_error::StoreError;

/// What gives the bytes of a stored segment, from any place on: a file, or a `Vec` that has them.
pub trait Pieces {
    // The bytes, where they are known.
    ghost bytes: { Self → Option (List ℕ) } = { λ _. None };

    /// How many bytes there are.
    ///
    /// Refused with [`StoreError::Failed`] alone, where that can't be told.
    fn byte_count(&self) -> Result<u64, StoreError>
        ensures all { WhereKnown (bytes self.now) (λ file. result ≡ Ok (length file)) };

    /// Adds so many bytes from a place on to others.
    ///
    /// Refused with [`StoreError::Damaged`] where fewer are there, with [`StoreError::Failed`] where they can't be read,
    /// and else for want of memory. A refused call may have added some.
    fn read_at(&self, at: u64, count: u64, into: &mut Vec<u8>) -> Result<(), StoreError>
        ensures count { OnOk result (length into.new.items ≡ length into.old.items + count) }
        ensures read { WhereKnown (bytes self.now) (λ file. AddsFound into.old.items into.new.items result (part_at at count file)) };
}

impl Pieces for Vec<u8> {
    ghost bytes = { λ v. Some v.items };

    fn byte_count(&self) -> Result<u64, StoreError> {
        Ok(self.len() as u64)
    }

    fn read_at(&self, at: u64, count: u64, into: &mut Vec<u8>) -> Result<(), StoreError> {
        let there = self.len() as u64;
        if at > there || count > there - at {
            return Err(StoreError::Damaged);
        }
        let start = at as usize;
        into.extend_from_slice(&self[start..start + count as usize])?;
        Ok(())
    }
}
