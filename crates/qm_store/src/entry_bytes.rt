//! Entries of a dictionary as bytes.

ghost use Rattle.std.specs.Prelude.{◌≡◌, ◌≤◌, ◌+◌, ◌++◌, All, IfErr, IfOk, OnOk, drop, length, take};
ghost use Rattle.qm_postings.specs.LentRow.{lent_row};
ghost use Rattle.qm_store.specs.Pieces.{IsInFile, IsMakeRefusal};
ghost use Rattle.qm_store.specs.RowBytes.{IsSomeRow, postings_part, row_bytes};
ghost use Rattle.qm_store.specs.Stored.{AreShortEnough, IsStorable, apart, digests_bytes, entry_bytes, here_bytes, parts_apart, parts_bytes, there_bytes};

use crate::named_piece::push_named;
use crate::numbers::push_number;
use crate::piece::Piece;
use crate::row_bytes::{push_counted, push_positions};
use crate::store_error::StoreError;
use crate::term_bytes::push_term;
use crate::words::push_word;
use qm_postings::TermRowRef;
use std::alloc::AllocError;

/// How many bytes a row has at most that stands in the dictionary itself.
const SHORT_ROW: usize = 64;

// Adds the entry of a row to a block, and the row itself to the file where it is too long to stand there. The room of the
// row's bytes is lent, so that not each row takes its own.
pub(crate) fn push_entry(
    out: &mut Vec<u8>,
    block: &mut Vec<u8>,
    room: &mut Vec<u8>,
    row: &TermRowRef<'_>,
    key: u64,
) -> Result<(), StoreError>
    requires { IsSomeRow (lent_row row.now) }
    ensures out { OnOk result (out.new.items ≡ out.old.items ++ apart (lent_row row.now)) }
    ensures block { OnOk result (block.new.items ≡ block.old.items ++ entry_bytes key (length out.old.items) (lent_row row.now)) }
    ensures storable { OnOk result (IsStorable (lent_row row.now)) }
    ensures refused { IfErr result (IsMakeRefusal (length out.old.items + length (apart (lent_row row.now)))) }
{
    let postings = write_parts(room, row)?;
    push_term(block, row.term())?;
    push_parts(out, block, room, postings, key)?;
    Ok(())
}

// Writes the bytes of a row, in place of others, and says how many its postings have.
fn write_parts(room: &mut Vec<u8>, row: &TermRowRef<'_>) -> Result<usize, AllocError>
    requires { IsSomeRow (lent_row row.now) }
    ensures row { OnOk result (room.new.items ≡ row_bytes (lent_row row.now)) }
    ensures postings { IfOk result (λ n. n ≡ length (postings_part (lent_row row.now))) }
    ensures small { OnOk result (All (λ f. f ≤ u32.MAX) (lent_row row.now).frequencies) }
{
    room.clear();
    push_counted(room, row)?;
    let postings = room.len();
    push_positions(room, row)?;
    Ok(postings)
}

// Adds where the two parts of a row stand, whose bytes are these.
fn push_parts(
    out: &mut Vec<u8>,
    block: &mut Vec<u8>,
    row: &[u8],
    postings: usize,
    key: u64,
) -> Result<(), StoreError>
    requires { postings ≤ length row.now }
    ensures out { OnOk result (out.new.items ≡ out.old.items ++ parts_apart (take postings row.now) (drop postings row.now)) }
    ensures block { OnOk result (block.new.items ≡ block.old.items ++ parts_bytes key (length out.old.items) (take postings row.now) (drop postings row.now)) }
    ensures few { OnOk result (AreShortEnough (take postings row.now) (drop postings row.now)) }
    ensures refused { IfErr result (IsMakeRefusal (length out.old.items + length (parts_apart (take postings row.now) (drop postings row.now)))) }
{
    let (first, second) = row.split_at(postings);
    if row.len() <= SHORT_ROW {
        push_here(block, first, second)?;
        return Ok(());
    }
    let first = push_named(out, key, first)?;
    let second = push_named(out, key, second)?;
    push_there(block, &first, &second)?;
    Ok(())
}

// Adds a row that stands in the dictionary.
fn push_here(block: &mut Vec<u8>, postings: &[u8], places: &[u8]) -> Result<(), AllocError>
    requires few { length postings.now + length places.now ≤ 64 }
    ensures { OnOk result (block.new.items ≡ block.old.items ++ here_bytes postings.now places.now) }
{
    push_number(block, 2 * postings.len() as u64 + 1)?;
    push_number(block, places.len() as u64)?;
    block.extend_from_slice(postings)?;
    block.extend_from_slice(places)?;
    Ok(())
}

// Adds where a row stands that is elsewhere.
fn push_there(block: &mut Vec<u8>, postings: &Piece, places: &Piece) -> Result<(), AllocError>
    requires postings { IsInFile postings.now }
    requires places { IsInFile places.now }
    ensures { OnOk result (block.new.items ≡ block.old.items ++ there_bytes postings.now places.now) }
{
    push_number(block, 2 * postings.len)?;
    push_number(block, places.len)?;
    push_number(block, postings.at)?;
    push_digests(block, postings, places)?;
    Ok(())
}

fn push_digests(block: &mut Vec<u8>, first: &Piece, second: &Piece) -> Result<(), AllocError>
    ensures { OnOk result (block.new.items ≡ block.old.items ++ digests_bytes first.now second.now) }
{
    push_word(block, first.digest)?;
    push_word(block, second.digest)?;
    Ok(())
}
