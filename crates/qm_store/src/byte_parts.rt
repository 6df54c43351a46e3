//! Small numbers, and bytes with their number in front, as parts of other bytes.

ghost use Rattle.std.specs.Prelude.{◌≡◌, ◌<◌, ◌≤◌, ◌^◌, ◌++◌, IfSome, OnOk, length, option_map};
ghost use Rattle.qm_store.specs.Items.{bytes_at, counted_bytes, small_at};
ghost use Rattle.qm_store.specs.Numbers.{spelled};

use crate::numbers::{push_number, read_number};
use std::alloc::AllocError;

// Adds how many bytes there are, and these.
pub(crate) fn push_bytes(out: &mut Vec<u8>, bytes: &[u8]) -> Result<(), AllocError>
    ensures added { OnOk result (out.new.items ≡ out.old.items ++ counted_bytes bytes.now) }
    ensures short { length bytes.now < 128 ^ 9 }
{
    push_number(out, bytes.len() as u64)?;
    out.extend_from_slice(bytes)?;
    Ok(())
}

// Adds the bytes of a number of at most four bytes.
pub(crate) fn push_small(out: &mut Vec<u8>, number: u32) -> Result<(), AllocError>
    ensures added { OnOk result (out.new.items ≡ out.old.items ++ spelled number) }
    ensures few { number ≤ u32.MAX }
{
    push_number(out, u64::from(number))?;
    Ok(())
}

// The bytes that some bytes begin with, behind their number, and the bytes behind them; none where they are not there.
pub(crate) fn read_bytes(bytes: &[u8]) -> Option<(&[u8], &[u8])>
    ensures read { option_map (λ r. (r.0.now, r.1.now)) result ≡ bytes_at bytes.now }
{
    let (count, rest) = read_number(bytes)?;
    if count > rest.len() as u64 {
        return None;
    }
    Some(rest.split_at(count as usize))
}

// The number of at most four bytes that some bytes begin with, and the bytes behind it; none where they begin with none.
pub(crate) fn read_small(bytes: &[u8]) -> Option<(u32, &[u8])>
    ensures read { option_map (λ r. (r.0, r.1.now)) result ≡ small_at bytes.now }
{
    let (number, rest) = read_number(bytes)?;
    if number > u64::from(u32::MAX) {
        return None;
    }
    Some((number as u32, rest))
}
