//! The ends of a stored segment: what its first bytes say, and where its last ones say that its parts stand.

ghost use Rattle.std.specs.Prelude.{◌≡◌};
ghost use Rattle.qm_store.specs.Ends.{checked_ending, ending_at, ending_in, headed, last_piece_at};
ghost use Rattle.qm_store.specs.Pieces.{Gives, GivesSome, WhereKnown};

use crate::head::{HEAD_BYTES, check_kind};
use crate::numbers::read_number;
use crate::piece::{Piece, read_piece, read_piece_name};
use crate::pieces::Pieces;
use crate::store_error::StoreError;
use crate::words::read_word;
use std::alloc::Global;

/// The first bytes of each stored segment.
pub(crate) const KIND: &[u8] = b"birchseg";

/// How many the last ones are, which name the ending.
const NAME_BYTES: u64 = 24;

/// What the last bytes of a stored segment tell.
#[derive(Clone, Copy)]
pub(crate) struct Ending {
    pub(crate) block_len: u32,
    pub(crate) documents: u32,
    pub(crate) index: Piece,
    pub(crate) lengths: Piece,
}

// Whether the first bytes are those of a stored segment, of the version that is read here.
pub(crate) fn check_head<P: Pieces>(alloc: Global, source: &P) -> Result<(), StoreError>
    ensures { WhereKnown (P.bytes source.now) (λ file. Gives (λ _. file) result (headed file)) }
{
    if source.byte_count()? < HEAD_BYTES as u64 {
        return Err(StoreError::OtherFile);
    }
    let mut head = Vec::new(alloc);
    source.read_at(0, HEAD_BYTES as u64, &mut head)?;
    check_kind(KIND, &head)?;
    Ok(())
}

// What the last bytes say of the segment of a key.
pub(crate) fn read_ending<P: Pieces>(
    alloc: Global,
    source: &P,
    key: u64,
) -> Result<Ending, StoreError>
    ensures { WhereKnown (P.bytes source.now) (λ file. GivesSome (λ e. e) result (ending_in key file)) }
{
    let count = source.byte_count()?;
    if count < NAME_BYTES {
        return Err(StoreError::Damaged);
    }
    let mut bytes = Vec::new(alloc);
    source.read_at(count - NAME_BYTES, NAME_BYTES, &mut bytes)?;
    let Some(piece) = last_piece(&bytes) else {
        return Err(StoreError::Damaged);
    };
    bytes.clear();
    read_piece(source, key, &piece, &mut bytes)?;
    match ending_of(key, &bytes) {
        Some(ending) => Ok(ending),
        None => Err(StoreError::Damaged),
    }
}

// The piece that three numbers name.
fn last_piece(bytes: &[u8]) -> Option<Piece>
    ensures { result ≡ last_piece_at bytes.now }
{
    let (at, rest) = read_word(bytes)?;
    let (len, rest) = read_word(rest)?;
    let (digest, rest) = read_word(rest)?;
    if rest.is_empty() {
        Some(Piece { at, len, digest })
    } else {
        None
    }
}

// What the bytes of an ending tell, where it is that of the segment of a key.
fn ending_of(key: u64, bytes: &[u8]) -> Option<Ending>
    ensures { result ≡ ending_at key bytes.now }
{
    let (own_key, rest) = read_word(bytes)?;
    let (block_len, rest) = read_number(rest)?;
    let (documents, rest) = read_number(rest)?;
    let (index, rest) = read_piece_name(rest)?;
    let (lengths, rest) = read_piece_name(rest)?;
    checked_ending(key, own_key, block_len, documents, index, lengths, rest)
}

// The ending of these numbers and pieces, with no bytes behind it.
fn checked_ending(
    key: u64,
    own_key: u64,
    block_len: u64,
    documents: u64,
    index: Piece,
    lengths: Piece,
    rest: &[u8],
) -> Option<Ending>
    ensures { result ≡ checked_ending key own_key block_len documents index lengths rest.now }
{
    let most = u64::from(u32::MAX);
    if own_key != key {
        return None;
    }
    if block_len > most {
        return None;
    }
    if documents > most {
        return None;
    }
    if rest.is_empty() {
        Some(Ending {
            block_len: block_len as u32,
            documents: documents as u32,
            index,
            lengths,
        })
    } else {
        None
    }
}
