//! Where the documents of a segment stand, as the bytes of a file beside it.

ghost use Rattle.std.specs.Prelude.{◌≡◌, ◌++◌, All, IfErr, IfOk, IsOkUnless, OnOk, length};
ghost use Rattle.std.specs.Io.KnownBytes.{Appends};
ghost use Rattle.std.specs.List.{flat_map};
ghost use Rattle.qm_store.specs.Pieces.{IsWriteRefusal};
ghost use Rattle.qm_store.specs.Places.{IsPlace, pieces_bytes, place_bytes, places_head, stored_places};
ghost use Rattle.qm_store.specs.Sealed.{sealed_at};

use crate::document_place::DocumentPlace;
use crate::head::push_head;
use crate::place_bytes::push_place;
use crate::sealed::push_digest;
use crate::store_error::StoreError;
use crate::words::push_word;
use crate::written_bytes::write_bytes;
use std::alloc::{AllocError, Global};
use std::io::Write;

/// The first bytes of each file of places.
pub(crate) const KIND: &[u8] = b"birchplc";

/// How many places a piece has; the last may have fewer.
pub(crate) const PIECE_PLACES: u32 = 256;

/// Where the documents of the segment of a key stand, each at its number, as the bytes of a file beside the segment. Costs
/// a step for each document, and these bytes: sixteen for each document, eight for each 256 or part of them, and forty.
///
/// Refused for want of memory alone.
pub fn places_bytes(
    alloc: Global,
    places: &[DocumentPlace],
    key: u64,
) -> Result<Vec<u8>, StoreError>
    ensures stored { IfOk result (λ v. v.items ≡ stored_places key places.now) }
    ensures places { OnOk result (All IsPlace places.now) }
    ensures refused { IsOkUnless result StoreError.Memory }
{
    let mut out = head(alloc, key, places.len())?;
    push_pieces(&mut out, places, key)?;
    Ok(out)
}

// The first bytes of a file: what kind it is, the key of the segment, how many documents it has, and the digest of these.
fn head(alloc: Global, key: u64, count: usize) -> Result<Vec<u8>, AllocError>
    ensures { IfOk result (λ v. v.items ≡ places_head key count) }
{
    let mut out = Vec::new(alloc);
    push_head(&mut out, KIND)?;
    push_word(&mut out, key)?;
    push_word(&mut out, count as u64)?;
    push_digest(&mut out, key, 0)?;
    Ok(out)
}

// Adds all pieces of some places behind the first bytes of a file.
fn push_pieces(out: &mut Vec<u8>, places: &[DocumentPlace], key: u64) -> Result<(), AllocError>
    requires head { length out.old.items ≡ 40 }
    ensures added { OnOk result (out.new.items ≡ out.old.items ++ pieces_bytes key places.now) }
    ensures places { OnOk result (All IsPlace places.now) }
{
    let size = PIECE_PLACES as usize;
    // the pieces before it are there
    for number in 0..places.len().div_ceil(size) {
        let start = number * size;
        let end = start + size.min(places.len() - start);
        push_piece(out, &places[start..end], key)?;
    }
    Ok(())
}

// Adds the places of a piece, and their digest behind them.
fn push_piece(out: &mut Vec<u8>, piece: &[DocumentPlace], key: u64) -> Result<(), AllocError>
    ensures added { OnOk result (out.new.items ≡ out.old.items ++ sealed_at key (length out.old.items) (flat_map place_bytes piece.now)) }
    ensures places { OnOk result (All IsPlace piece.now) }
{
    let start = out.len();
    // those before it are there
    for place in piece {
        push_place(out, place)?;
    }
    push_digest(out, key, start)?;
    Ok(())
}

/// Writes the bytes of a file of places, as [`places_bytes`] makes them.
///
/// Refused for want of memory, before anything is written; and else with [`StoreError::Failed`] where the writer refuses,
/// when any of them may have been written.
pub fn write_places<W: Write>(
    alloc: Global,
    places: &[DocumentPlace],
    key: u64,
    out: &mut W,
) -> Result<(), StoreError>
    ensures written { OnOk result (Appends (W.contents out.old) (W.contents out.new) (stored_places key places.now)) }
    ensures places { OnOk result (All IsPlace places.now) }
    ensures refused { IfErr result (IsWriteRefusal out.old out.new) }
{
    let bytes = places_bytes(alloc, places, key)?;
    write_bytes(&bytes, out)?;
    Ok(())
}
