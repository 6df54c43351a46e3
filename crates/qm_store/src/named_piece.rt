//! A piece that is added to a file.

ghost use Rattle.std.specs.Prelude.{◌≡◌, ◌≤◌, ◌+◌, ◌^◌, ◌++◌, IfErr, IfOk, OnOk, length};
ghost use Rattle.qm_store.specs.Pieces.{IsInFile, IsMakeRefusal};
ghost use Rattle.qm_store.specs.Stored.{named};

use crate::piece::{Piece, digest};
use crate::store_error::StoreError;

/// How many bytes a file has at most.
const MOST: usize = 1 << 60;

// Adds bytes to a file, and names the piece that they are there.
pub(crate) fn push_named(out: &mut Vec<u8>, key: u64, bytes: &[u8]) -> Result<Piece, StoreError>
    ensures added { OnOk result (out.new.items ≡ out.old.items ++ bytes.now) }
    ensures named { IfOk result (λ piece. piece ≡ named key (length out.old.items) bytes.now) }
    ensures few { IfOk result IsInFile }
    ensures end { OnOk result (length out.new.items ≤ 2 ^ 60) }
    ensures refused { IfErr result (IsMakeRefusal (length out.old.items + length bytes.now)) }
{
    let start = out.len();
    if start > MOST || bytes.len() > MOST - start {
        return Err(StoreError::Failed);
    }
    let piece = Piece {
        at: start as u64,
        len: bytes.len() as u64,
        digest: digest(key, start as u64, bytes),
    };
    out.extend_from_slice(bytes)?;
    Ok(piece)
}
