//! Numbers as bytes.

ghost use Rattle.std.specs.Prelude.{◌≡◌, ◌<◌, ◌≤◌, ◌^◌, ◌+◌, ◌++◌, OnOk, IfSome, option_map};
ghost use Rattle.qm_store.specs.Numbers.{number_at, number_bytes, spelled};

use std::alloc::AllocError;

/// How many bytes a number has besides its first one, at most.
const MORE: u32 = 8;

// Adds the bytes of a number: seven bits in each, the lowest first, the eighth set where more come.
pub(crate) fn push_number(out: &mut Vec<u8>, number: u64) -> Result<(), AllocError>
    requires fits { number < 128 ^ 9 }
    ensures added { OnOk result (out.new.items ≡ out.old.items ++ spelled number) }
{
    push_part(out, MORE, number)
}

// Adds the bytes of a number that so many and one more are enough for.
#[tactic(auto, using(crate::proofs::NumberBytes::pushed, crate::proofs::NumberBytes::bytes_last, crate::proofs::NumberBytes::part_fits))]
fn push_part(out: &mut Vec<u8>, more: u32, number: u64) -> Result<(), AllocError>
    requires few { more ≤ 8 }
    requires fits { number < 128 ^ (more + 1) }
    ensures added { OnOk result (out.new.items ≡ out.old.items ++ number_bytes more number) }
{
    if number < 128 {
        out.push(number as u8)?;
        return Ok(());
    }
    out.push((number % 128 + 128) as u8)?;
    push_part(out, more - 1, number / 128)?;
    Ok(())
}

// The number that some bytes begin with, and the bytes behind it; none where they begin with none.
pub(crate) fn read_number(bytes: &[u8]) -> Option<(u64, &[u8])>
    ensures read { option_map (λ r. (r.0, r.1.now)) result ≡ number_at 8 bytes.now }
    ensures fits { IfSome result (λ r. r.0 < 128 ^ 9) }
{
    let (first, rest) = bytes.split_first()?;
    // nearly all numbers of a row have one byte, and need no further call
    if *first < 128 {
        return Some((u64::from(*first), rest));
    }
    let (second, behind) = rest.split_first()?;
    if *second < 128 {
        let number = u64::from(*first) - 128 + 128 * u64::from(*second);
        return Some((number, behind));
    }
    read_part(MORE, bytes)
}

#[tactic(auto, using(crate::proofs::NumberBytes::one_fits, crate::proofs::NumberBytes::whole_fits, crate::proofs::NumberBytes::part_small))]
fn read_part(more: u32, bytes: &[u8]) -> Option<(u64, &[u8])>
    requires few { more ≤ 8 }
    ensures read { option_map (λ r. (r.0, r.1.now)) result ≡ number_at more bytes.now }
    ensures fits { IfSome result (λ r. r.0 < 128 ^ (more + 1)) }
{
    let (first, rest) = bytes.split_first()?;
    if *first < 128 {
        return Some((u64::from(*first), rest));
    }
    if more == 0 {
        return None;
    }
    let (high, rest) = read_part(more - 1, rest)?;
    Some((u64::from(*first) - 128 + 128 * high, rest))
}
