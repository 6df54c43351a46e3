//! Ascending numbers as bytes.

ghost use Rattle.std.specs.Prelude.{◌≡◌, ◌<◌, ◌≤◌, ◌++◌, OnOk, IfOk, IfSome, option_map};
ghost use Rattle.qm_postings.specs.Segment.{AscendFrom};
ghost use Rattle.qm_store.specs.RowBytes.{above_at, gaps, gaps_at, in_front_of_all};

use crate::numbers::{push_number, read_number};
use std::alloc::AllocError;

/// The least number that is no position, and past all documents.
pub(crate) const LIMIT: u64 = 4294967295;

// Adds numbers that ascend strictly.
pub(crate) fn push_gaps(out: &mut Vec<u8>, numbers: &[u32]) -> Result<(), AllocError>
    requires ascending { AscendFrom 0 numbers.now }
    ensures added { OnOk result (out.new.items ≡ out.old.items ++ gaps 0 numbers.now) }
{
    let mut low = 0;
    // those before it are there, and the others are from the low one on
    for number in numbers {
        push_number(out, u64::from(*number - low))?;
        low = *number + 1;
    }
    Ok(())
}

// Adds to the numbers so many that ascend strictly, and gives the bytes behind them; none where the bytes begin with no
// such numbers.
pub(crate) fn read_gaps<'a>(
    numbers: &mut Vec<u32>,
    bytes: &'a [u8],
    count: u32,
) -> Result<Option<&'a [u8]>, AllocError>
    ensures { IfOk result (λ r. option_map (λ rest. (numbers.new.items, rest.now)) r ≡ in_front_of_all numbers.old.items (gaps_at count 0 bytes.now)) }
{
    let mut rest = bytes;
    let mut low: u32 = 0;
    // what is read and what is left make all
    for place in 0..count {
        let Some((number, behind)) = read_gap(rest, low) else {
            return Ok(None);
        };
        numbers.push(number)?;
        low = number + 1;
        rest = behind;
    }
    Ok(Some(rest))
}

// The number from a low one on that some bytes begin with, and the bytes behind it; none where it is no position.
pub(crate) fn read_gap(bytes: &[u8], low: u32) -> Option<(u32, &[u8])>
    ensures read { option_map (λ r. (r.0, r.1.now)) result ≡ above_at low bytes.now }
    ensures small { IfSome result (λ r. r.0 < 4294967295) }
{
    let (gap, rest) = read_number(bytes)?;
    let number = u64::from(low) + gap;
    if number < LIMIT {
        Some((number as u32, rest))
    } else {
        None
    }
}
