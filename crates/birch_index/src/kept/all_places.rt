//! Where all documents of a segment stand.

use crate::kept::Trouble;
use crate::kept::home::Home;
use crate::kept::names::places_name;
use crate::kept::numbers::Unread;
use crate::kept::reading::read_whole;
use qm_docset::DocId;
use qm_store::{DocumentPlace, StoredPlaces};
use std::alloc::Global;

/// How many bytes stand before the first piece of a file of places.
const HEAD_BYTES: usize = 40;

/// How many documents a piece has; the last may have fewer.
const PIECE_PLACES: usize = 256;

/// How many bytes a place has, and how many the digest behind a piece.
const PLACE_BYTES: usize = 16;

const DIGEST_BYTES: usize = 8;

/// Where each document of a segment stands that has so many. To ask for each place by itself would read and check the piece
/// that it is in anew: so each piece is checked once, by its first place, and then taken as it stands.
pub fn all_places(
    rt: &HostRuntime,
    home: &Home,
    key: u64,
    count: DocId,
) -> Result<Vec<DocumentPlace>, Trouble> {
    let alloc = rt.alloc();
    let name = places_name(alloc, key)?;
    let bytes = read_whole(rt, home, name.as_str())?;
    let copy = Vec::from_slice(alloc, &bytes)?;
    let stored = StoredPlaces::open(alloc, copy, key, count)?;
    check_pieces(alloc, &stored)?;
    read_pieces(alloc, &bytes, count as usize)
}

// Checks the digest of each piece.
fn check_pieces(alloc: Global, stored: &StoredPlaces<Vec<u8>>) -> Result<(), Trouble> {
    // the pieces before this one are whole
    for doc in (0..stored.max_doc()).step_by(PIECE_PLACES) {
        if doc < stored.max_doc() {
            stored.place(alloc, doc)?;
        }
    }
    Ok(())
}

// The places in the pieces of a file.
fn read_pieces(alloc: Global, bytes: &[u8], count: usize) -> Result<Vec<DocumentPlace>, Trouble> {
    let mut places = Vec::with_capacity(alloc, count)?;
    let pieces = bytes.get(HEAD_BYTES..).unwrap_or(&[]);
    // the places of the pieces before this one are there
    for piece in pieces.chunks(PIECE_PLACES * PLACE_BYTES + DIGEST_BYTES) {
        let end = piece.len().saturating_sub(DIGEST_BYTES);
        // and those of the piece before this one
        for place in piece.get(..end).unwrap_or(&[]).chunks(PLACE_BYTES) {
            places.push(read_place(place)?)?;
        }
    }
    if places.len() == count {
        Ok(places)
    } else {
        Err(Trouble::Damaged)
    }
}

fn read_place(bytes: &[u8]) -> Result<DocumentPlace, Trouble> {
    let mut unread = Unread::new(bytes);
    let file = unread.half()?;
    let line = unread.half()?;
    let first_byte = unread.half()?;
    let byte_count = unread.half()?;
    Ok(DocumentPlace {
        file,
        line,
        first_byte,
        byte_count,
    })
}
