//! A piece of a stored segment, and its digest.

ghost use Rattle.std.specs.Prelude.{◌≡◌, ◌++◌, IfSome, OnOk, option_map};
ghost use Rattle.std.specs.Int.{w64, to_le_bytes};
ghost use Rattle.qm_store.specs.Pieces.{AddsFound, IsInFile, WhereKnown, digest, piece_at, piece_bytes, piece_in};

use crate::numbers::{push_number, read_number};
use crate::pieces::Pieces;
use crate::store_error::StoreError;
use crate::words::{push_word, read_word};
use std::alloc::AllocError;
use std::hash::{DefaultHasher, Hasher};

/// A piece of a file: where it stands, how many bytes it has, and their digest.
#[derive(Clone, Copy, Debug, PartialEq, Eq)]
pub struct Piece {
    /// How many bytes stand before it.
    pub at: u64,
    /// How many bytes it has.
    pub len: u64,
    /// Their digest.
    pub digest: u64,
}

/// The digest of some bytes that stand at a place of the segment of a key: SipHash-1-3 of the key and the place, eight
/// bytes each, and of the bytes. So a piece that changed its place, or came from another segment, has another digest
/// but for one chance in 2^64. Costs a step for each byte.
#[tactic(auto, unfolding(crate::specs::Pieces::digest))]
pub(crate) fn digest(key: u64, at: u64, bytes: &[u8]) -> u64
    ensures { result ≡ digest key at bytes.now }
{
    let mut hasher = DefaultHasher::new();
    hasher.write(&key.to_le_bytes());
    hasher.write(&at.to_le_bytes());
    hasher.write(bytes);
    hasher.finish()
}

// Adds the bytes of a piece to others.
pub(crate) fn read_piece<P: Pieces>(
    source: &P,
    key: u64,
    piece: &Piece,
    into: &mut Vec<u8>,
) -> Result<(), StoreError>
    ensures { WhereKnown (P.bytes source.now) (λ file. AddsFound into.old.items into.new.items result (piece_in key file piece.now)) }
{
    let start = into.len();
    source.read_at(piece.at, piece.len, into)?;
    if digest(key, piece.at, &into[start..]) == piece.digest {
        Ok(())
    } else {
        Err(StoreError::Damaged)
    }
}

// Adds the bytes that name a piece.
pub(crate) fn push_piece(out: &mut Vec<u8>, piece: &Piece) -> Result<(), AllocError>
    requires { IsInFile piece.now }
    ensures added { OnOk result (out.new.items ≡ out.old.items ++ piece_bytes piece.now) }
{
    push_number(out, piece.at)?;
    push_number(out, piece.len)?;
    push_word(out, piece.digest)
}

// The piece that some bytes begin with the name of, and the bytes behind it; none where they begin with none.
pub(crate) fn read_piece_name(bytes: &[u8]) -> Option<(Piece, &[u8])>
    ensures read { option_map (λ r. (r.0, r.1.now)) result ≡ piece_at bytes.now }
{
    let (at, rest) = read_number(bytes)?;
    let (len, rest) = read_number(rest)?;
    let (digest, rest) = read_word(rest)?;
    Some((Piece { at, len, digest }, rest))
}
