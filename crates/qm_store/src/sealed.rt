//! Bytes in front of their digest, and a small file that is read whole.

ghost use Rattle.std.specs.Prelude.{◌≡◌, ◌≤◌, ◌+◌, IfSome, OnOk, length, option_map};
ghost use Rattle.qm_store.specs.Pieces.{Gives};
ghost use Rattle.qm_store.specs.Sealed.{body_in, body_of, sealed_from, unsealed};

use crate::head::{HEAD_BYTES, check_kind};
use crate::piece::digest;
use crate::store_error::StoreError;
use crate::words::{push_word, read_word};
use std::alloc::AllocError;

/// How many bytes a digest has.
pub(crate) const DIGEST_BYTES: usize = 8;

// Adds the digest of all bytes from a place on.
pub(crate) fn push_digest(out: &mut Vec<u8>, key: u64, start: usize) -> Result<(), AllocError>
    requires { start ≤ length out.old.items }
    ensures { OnOk result (out.new.items ≡ sealed_from key start out.old.items) }
{
    let digest = digest(key, start as u64, &out[start..]);
    push_word(out, digest)?;
    Ok(())
}

// What stands at a place in front of its digest, the last eight of these bytes; none where that is another.
pub(crate) fn unsealed(key: u64, at: u64, bytes: &[u8]) -> Option<&[u8]>
    ensures whole { option_map (λ front. front.now) result ≡ unsealed key at bytes.now }
    ensures len { IfSome result (λ front. length front.now + 8 ≡ length bytes.now) }
{
    if bytes.len() < DIGEST_BYTES {
        return None;
    }
    let (front, last) = bytes.split_at(bytes.len() - DIGEST_BYTES);
    let (own, _) = read_word(last)?;
    if digest(key, at, front) == own {
        Some(front)
    } else {
        None
    }
}

// The body of a file of a kind: what stands between its first bytes and the digest of all before it. Takes no memory.
pub(crate) fn read_body<'a>(kind: &[u8], key: u64, file: &'a [u8]) -> Result<&'a [u8], StoreError>
    ensures { Gives (λ body. body.now) result (body_of kind.now key file.now) }
{
    if file.len() < HEAD_BYTES {
        return Err(StoreError::OtherFile);
    }
    let (head, _) = file.split_at(HEAD_BYTES);
    check_kind(kind, head)?;
    match body_in(key, file) {
        Some(body) => Ok(body),
        None => Err(StoreError::Damaged),
    }
}

// The body of a file, where its last bytes are the digest of all before them.
fn body_in(key: u64, file: &[u8]) -> Option<&[u8]>
    ensures { option_map (λ body. body.now) result ≡ body_in key file.now }
{
    if file.len() < HEAD_BYTES + DIGEST_BYTES {
        return None;
    }
    let front = unsealed(key, 0, file)?;
    let (_, body) = front.split_at(HEAD_BYTES);
    Some(body)
}
