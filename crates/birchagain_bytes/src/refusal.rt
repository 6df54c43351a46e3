//! Why an index was not made bytes, or bytes no index, and the statuses by which C learns of it.

ghost use Rattle.std.specs.Prelude.{◌≡◌, ◌≤◌, ◌↔◌, IsSome};
ghost use Rattle.birchagain_bytes.specs.Refusals.{of_reading, of_writing};

use qm_schema::QueryError;
use qm_store::StoreError;
use std::alloc::{AllocError, AllocFailed};

/// Why an index was not made bytes, or bytes no index. The index that there is holds what it held.
#[derive(Clone, Copy, Debug, PartialEq, Eq)]
pub enum BytesRefusal {
    /// There was no memory left.
    Memory,
    /// The bytes are no index at all.
    OtherFile,
    /// They are an index, or have a file, of a version that is not read here.
    OtherVersion,
    /// They are an index of which something is missing, or not what was written.
    Damaged,
    /// They are an index whose postings are cut into blocks of another length than those of this library.
    OtherBlocks,
    /// The open segment has documents, which would be left out.
    OpenSegment,
    /// No number is left for a file, or a segment has more than 2^60 bytes.
    NoNumber,
    /// The bytes are more than there is room for.
    NoRoom,
}

impl BytesRefusal {
    ghost use Rattle.birchagain_bytes.specs.Statuses.{status_of};

    /// The status of a call that was refused so: a number of [`QueryError::number`] for want of memory, else one from 80 on.
    pub fn status(self) -> u32
        ensures { result ≡ status_of self }
    {
        match self {
            BytesRefusal::Memory => u32::from(QueryError::Memory.number()),
            BytesRefusal::OtherFile => 80,
            BytesRefusal::OtherVersion => 81,
            BytesRefusal::Damaged => 82,
            BytesRefusal::OtherBlocks => 83,
            BytesRefusal::OpenSegment => 84,
            BytesRefusal::NoNumber => 85,
            BytesRefusal::NoRoom => 86,
        }
    }
}

impl From<AllocError> for BytesRefusal {
    ghost use Rattle.birchagain_bytes.specs.declared.refusal.BytesRefusal.TheVariants.{Memory};

    ghost from_gives = { λ _ refusal. refusal ≡ Memory };

    fn from(_error: AllocError) -> BytesRefusal {
        BytesRefusal::Memory
    }
}

impl<T: Drop> From<AllocFailed<T>> for BytesRefusal {
    ghost use Rattle.birchagain_bytes.specs.declared.refusal.BytesRefusal.TheVariants.{Memory};

    ghost from_gives = { λ _ refusal. refusal ≡ Memory };

    fn from(_error: AllocFailed<T>) -> BytesRefusal {
        BytesRefusal::from(AllocError)
    }
}

// Why files were not written: for want of memory, or of a number.
pub(crate) fn of_writing(error: StoreError) -> BytesRefusal
    ensures { result ≡ of_writing error }
{
    match error {
        StoreError::Memory => BytesRefusal::Memory,
        _ => BytesRefusal::NoNumber,
    }
}

// Why files were not read, which lie in memory: a folder never fails.
pub(crate) fn of_reading(error: StoreError) -> BytesRefusal
    ensures { result ≡ of_reading error }
{
    match error {
        StoreError::Memory | StoreError::Failed => BytesRefusal::Memory,
        StoreError::OtherVersion => BytesRefusal::OtherVersion,
        StoreError::OtherFile | StoreError::Damaged => BytesRefusal::Damaged,
    }
}

/// What a status of these calls says, in English; none of another status.
pub fn status_text(status: u32) -> Option<&'static str>
    ensures { IsSome result ↔ ((80 ≤ status) × (status ≤ 86)) }
{
    match status {
        80 => Some("the bytes are no index"),
        81 => Some("the bytes are an index of another version"),
        82 => Some("the bytes are an index that is damaged"),
        83 => Some("the bytes are an index with blocks of another length than 128"),
        84 => Some("the open segment has documents: end it first"),
        85 => Some("no number is left for a file of the index"),
        86 => Some("an array is too small for what it is to be filled with"),
        _ => None,
    }
}
