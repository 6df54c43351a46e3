//! Where a document stands, as bytes.

ghost use Rattle.std.specs.Prelude.{◌≡◌, ◌++◌, OnOk, option_map};
ghost use Rattle.qm_store.specs.Places.{IsPlace, place_at, place_bytes};

use crate::document_place::DocumentPlace;
use crate::words::{push_half, read_half};
use std::alloc::AllocError;

/// How many bytes a place has.
pub(crate) const PLACE_BYTES: u32 = 16;

// Adds the bytes of a place.
#[tactic(auto, unfolding(crate::specs::Places::place_bytes))]
pub(crate) fn push_place(out: &mut Vec<u8>, place: &DocumentPlace) -> Result<(), AllocError>
    ensures added { OnOk result (out.new.items ≡ out.old.items ++ place_bytes place.now) }
    ensures place { OnOk result (IsPlace place.now) }
{
    push_half(out, place.file)?;
    push_half(out, place.line)?;
    push_half(out, place.first_byte)?;
    push_half(out, place.byte_count)?;
    Ok(())
}

// The place that some bytes begin with, and the bytes behind it; none where they begin with none.
#[tactic(auto, unfolding(crate::specs::Places::place_at))]
pub(crate) fn read_place(bytes: &[u8]) -> Option<(DocumentPlace, &[u8])>
    ensures read { option_map (λ r. (r.0, r.1.now)) result ≡ place_at bytes.now }
{
    let (file, rest) = read_half(bytes)?;
    let (line, rest) = read_half(rest)?;
    let (first_byte, rest) = read_half(rest)?;
    let (byte_count, rest) = read_half(rest)?;
    let place = DocumentPlace {
        file,
        line,
        first_byte,
        byte_count,
    };
    Some((place, rest))
}
