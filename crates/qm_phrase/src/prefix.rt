//! Where the texts that begin with a prefix end.

ghost use Rattle.std.specs.Prelude.{◌≡◌, ◌-◌, ◌<◌, ◌≤◌, All, IfOk, IsOkUnless, drop, length, slice_index};
ghost use Rattle.qm_phrase.specs.PrefixEnd.{IsPrefixEnd};

use qm_schema::QueryError;
use std::alloc::Global;

/// The first text, in the order of bytes, that is past every text which begins with `prefix`; `None`
/// where no text is, since the prefix is empty or all of its bytes are 255.
///
/// So of the texts at or past `prefix` those below the answer begin with it, and no others. It drops
/// the trailing bytes 255, and adds one to the last byte left. Costs the length of the prefix.
///
/// Refused with [`QueryError::Memory`] alone.
pub fn prefix_end(alloc: Global, prefix: &[u8]) -> Result<Option<Vec<u8>>, QueryError>
    ensures end { IfOk result (IsPrefixEnd prefix.now) }
    ensures refused { IsOkUnless result QueryError.Memory }
{
    let length = length_without_trailing_max(prefix);
    if length == 0 {
        return Ok(None);
    }
    let mut end = Vec::from_slice(alloc, &prefix[..length])?;
    end[length - 1] += 1;
    Ok(Some(end))
}

// How long a text is without its trailing bytes 255.
fn length_without_trailing_max(text: &[u8]) -> usize
    ensures within { result ≤ length text.now }
    ensures trailing { All (λ byte. byte ≡ 255) (drop result text.now) }
    ensures last { 0 < result → slice_index text.now (result - 1) < 255 }
{
    let mut length = text.len();
    // all bytes from the length on are the greatest
    while length > 0 && text[length - 1] == u8::MAX {
        length -= 1;
    }
    length
}
