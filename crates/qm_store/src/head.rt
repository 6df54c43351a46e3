//! The first bytes of a file of an index: what kind it is, and its version.

ghost use Rattle.std.specs.Prelude.{◌≡◌, ◌++◌, List, ℕ, OnOk, length};
ghost use Rattle.qm_store.specs.Heads.{head_bytes, headed_by};
ghost use Rattle.qm_store.specs.Pieces.{Gives};

use crate::store_error::StoreError;
use crate::words::{push_word, read_word};
use std::alloc::AllocError;

/// The version that is written, and read, here.
const VERSION: u64 = 1;

/// How many bytes the first ones are: those that tell the kind, and the version.
pub(crate) const HEAD_BYTES: usize = 16;

// Adds the first bytes of a file of a kind.
pub(crate) fn push_head(out: &mut Vec<u8>, kind: &[u8]) -> Result<(), AllocError>
    ensures added { OnOk result (out.new.items ≡ out.old.items ++ head_bytes kind.now) }
{
    out.extend_from_slice(kind)?;
    push_word(out, VERSION)?;
    Ok(())
}

// Whether the first bytes of a file are those of a file of a kind, of the version that is read here.
pub(crate) fn check_kind(kind: &[u8], head: &[u8]) -> Result<(), StoreError>
    requires { length head.now ≡ 16 }
    ensures { (file : List ℕ) → Gives (λ _. file) result (headed_by kind.now head.now file) }
{
    let (own, version) = head.split_at(8);
    if own != kind {
        return Err(StoreError::OtherFile);
    }
    match read_word(version) {
        Some((VERSION, _)) => Ok(()),
        _ => Err(StoreError::OtherVersion),
    }
}
