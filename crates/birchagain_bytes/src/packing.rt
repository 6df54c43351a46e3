//! Files as bytes, one behind the other.

ghost use Rattle.std.specs.Prelude.{◌≡◌, ◌<◌, ◌≤◌, ◌^◌, ◌++◌, IfOk, IfSome, IsUtf8, OnOk, length, option_map};
ghost use Rattle.std.specs.Result.{result_map_both};
ghost use Rattle.qm_store.specs.Heads.{head_bytes};
ghost use Rattle.qm_store.specs.Items.{parted_at};
ghost use Rattle.birchagain_bytes.specs.Packed.{file_at, head_at, named_bytes, packed_kind};

use crate::refusal::BytesRefusal;
use crate::words::{WORD_BYTES, push_word, read_word};
use std::alloc::{AllocError, Global};

/// The first bytes of each index as bytes.
const KIND: &[u8] = b"birchall";

/// The version that is written, and read, here.
const VERSION: u64 = 1;

/// How many bytes stand in front of the files.
const HEAD_BYTES: usize = 16;

// The bytes of no file.
pub(crate) fn begin(alloc: Global) -> Result<Vec<u8>, AllocError>
    ensures { IfOk result (λ v. v.items ≡ head_bytes packed_kind) }
{
    let mut out = Vec::new(alloc);
    out.extend_from_slice(KIND)?;
    push_word(&mut out, VERSION)?;
    Ok(out)
}

// Adds a file.
#[tactic(auto, unfolding(crate::specs::Packed::named_bytes))]
pub(crate) fn push_file(out: &mut Vec<u8>, name: &str, bytes: &[u8]) -> Result<(), AllocError>
    ensures added { OnOk result (out.new.items ≡ out.old.items ++ named_bytes name.now bytes.now) }
    ensures name_length { length name.now < 2 ^ 64 }
    ensures length { length bytes.now < 2 ^ 64 }
    ensures text { IsUtf8 name.now }
{
    let name = name.as_bytes();
    push_word(out, name.len() as u64)?;
    push_word(out, bytes.len() as u64)?;
    out.extend_from_slice(name)?;
    out.extend_from_slice(bytes)?;
    Ok(())
}

// What stands behind the first bytes, where these are those of an index as bytes.
pub(crate) fn read_head(bytes: &[u8]) -> Result<&[u8], BytesRefusal>
    ensures { result_map_both (λ rest. rest.now) (λ refusal. refusal) result ≡ head_at bytes.now }
{
    if bytes.len() < HEAD_BYTES {
        return Err(BytesRefusal::OtherFile);
    }
    let (kind, rest) = bytes.split_at(KIND.len());
    if kind != KIND {
        return Err(BytesRefusal::OtherFile);
    }
    match read_word(rest) {
        Some((VERSION, files)) => Ok(files),
        _ => Err(BytesRefusal::OtherVersion),
    }
}

// The name and the bytes of the file that some bytes begin with, and the bytes behind it; none where they begin with none.
#[tactic(auto, unfolding(crate::specs::Packed::file_at))]
pub(crate) fn read_file(bytes: &[u8]) -> Option<(&[u8], &[u8], &[u8])>
    ensures read { option_map (λ r. ((r.0.now, r.1.now), r.2.now)) result ≡ file_at bytes.now }
    ensures shorter { IfSome result (λ r. length r.2.now < length bytes.now) }
    ensures fit { IfSome result (λ r. (length r.0.now < 2 ^ 64) × (length r.1.now < 2 ^ 64)) }
{
    let (name_length, rest) = read_word(bytes)?;
    let (length, rest) = read_word(rest)?;
    let (name, rest) = split_within(rest, name_length)?;
    let (bytes, rest) = split_within(rest, length)?;
    Some((name, bytes, rest))
}

// So many bytes, and those behind them; none where there are fewer.
fn split_within(bytes: &[u8], count: u64) -> Option<(&[u8], &[u8])>
    ensures read { option_map (λ r. (r.0.now, r.1.now)) result ≡ parted_at count bytes.now }
    ensures shorter { IfSome result (λ r. length r.1.now ≤ length bytes.now) }
    ensures fit { IfSome result (λ r. length r.0.now < 2 ^ 64) }
{
    if count > bytes.len() as u64 {
        return None;
    }
    Some(bytes.split_at(count as usize))
}
