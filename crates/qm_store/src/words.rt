//! Numbers of eight bytes, and of four.

ghost use Rattle.std.specs.Prelude.{◌≡◌, ◌<◌, ◌^◌, ◌++◌, OnOk, option_map};
ghost use Rattle.std.specs.Int.{w32, w64, to_le_bytes};
ghost use Rattle.qm_store.specs.Words.{half_at, word_at};

use std::alloc::AllocError;

// Adds the eight bytes of a number, the lowest first.
pub(crate) fn push_word(out: &mut Vec<u8>, number: u64) -> Result<(), AllocError>
    ensures added { OnOk result (out.new.items ≡ out.old.items ++ to_le_bytes w64 number) }
    ensures fits { number < 2 ^ 64 }
{
    out.extend_from_slice(&number.to_le_bytes())
}

// The number that some bytes begin with, and the bytes behind it; none where they are fewer than eight.
pub(crate) fn read_word(bytes: &[u8]) -> Option<(u64, &[u8])>
    ensures read { option_map (λ r. (r.0, r.1.now)) result ≡ word_at bytes.now }
{
    if bytes.len() < 8 {
        return None;
    }
    let (front, rest) = bytes.split_at(8);
    let number = u64::from_le_bytes([
        front[0], front[1], front[2], front[3], front[4], front[5], front[6], front[7],
    ]);
    Some((number, rest))
}

// Adds the four bytes of a number, the lowest first.
pub(crate) fn push_half(out: &mut Vec<u8>, half: u32) -> Result<(), AllocError>
    ensures added { OnOk result (out.new.items ≡ out.old.items ++ to_le_bytes w32 half) }
    ensures fits { half < 2 ^ 32 }
{
    out.extend_from_slice(&half.to_le_bytes())
}

// The number that some bytes begin with, and the bytes behind it; none where they are fewer than four.
pub(crate) fn read_half(bytes: &[u8]) -> Option<(u32, &[u8])>
    ensures read { option_map (λ r. (r.0, r.1.now)) result ≡ half_at bytes.now }
{
    if bytes.len() < 4 {
        return None;
    }
    let (front, rest) = bytes.split_at(4);
    let half = u32::from_le_bytes([front[0], front[1], front[2], front[3]]);
    Some((half, rest))
}
