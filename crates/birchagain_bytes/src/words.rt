//! Numbers of eight bytes, the lowest first.

ghost use Rattle.std.specs.Prelude.{◌≡◌, ◌<◌, ◌++◌, IfSome, OnOk, length, option_map};
ghost use Rattle.std.specs.Int.{w64, to_le_bytes};
ghost use Rattle.qm_store.specs.Words.{word_at};

use std::alloc::AllocError;

/// How many bytes a number has.
pub(crate) const WORD_BYTES: usize = 8;

// Adds the bytes of a number.
pub(crate) fn push_word(out: &mut Vec<u8>, number: u64) -> Result<(), AllocError>
    ensures added { OnOk result (out.new.items ≡ out.old.items ++ to_le_bytes w64 number) }
{
    out.extend_from_slice(&number.to_le_bytes())
}

// The number that some bytes begin with, and the bytes behind it; none where they are fewer than eight.
pub(crate) fn read_word(bytes: &[u8]) -> Option<(u64, &[u8])>
    ensures read { option_map (λ r. (r.0, r.1.now)) result ≡ word_at bytes.now }
    ensures shorter { IfSome result (λ r. length r.1.now < length bytes.now) }
{
    if bytes.len() < WORD_BYTES {
        return None;
    }
    let (front, rest) = bytes.split_at(WORD_BYTES);
    let number = u64::from_le_bytes([
        front[0], front[1], front[2], front[3], front[4], front[5], front[6], front[7],
    ]);
    Some((number, rest))
}
