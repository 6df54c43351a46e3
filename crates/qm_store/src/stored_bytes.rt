//! A segment as bytes.

ghost use Rattle.std.specs.Prelude.{◌≡◌, ◌≤◌, ◌<◌, ◌+◌, ◌-◌, ◌++◌, [], All, IfErr, IfOk, OnOk, drop, length, take};
ghost use Rattle.std.specs.Io.KnownBytes.{Appends};
ghost use Rattle.std.specs.List.{AllWithin, flat_map};
ghost use Rattle.qm_postings.specs.Reading.{IsOfRows};
ghost use Rattle.qm_postings.specs.Rows.{columns_of};
ghost use Rattle.qm_store.specs.Stored.{IsStored, IsStorable, all_apart, block_named, ending_bytes, entries_bytes, group_bytes, index_bytes, last_bytes, rows_bytes, start_bytes, stored, stored_blocks};
ghost use Rattle.qm_store.specs.Pieces.{IsInFile, IsMakeRefusal, IsWriteRefusal};

use crate::ending::KIND;
use crate::entry_bytes::push_entry;
use crate::head::push_head;
use crate::named_piece::push_named;
use crate::numbers::push_number;
use crate::piece::{Piece, push_piece};
use crate::store_error::StoreError;
use crate::term_bytes::push_term;
use crate::words::push_word;
use crate::written_bytes::write_bytes;
use qm_postings::SegmentReader;
use qm_schema::Field;
use std::alloc::{AllocError, Global};
use std::io::Write;

/// How many terms a block of the dictionary has; the last may have fewer.
const BLOCK_TERMS: usize = 128;

/// The bytes of a segment, but for which documents are deleted. The key is that of no other segment: a time in
/// nanoseconds does. Costs a step for each posting, each position, and each document; all bytes are in memory.
///
/// Refused for want of memory; or with [`StoreError::Failed`] where they were more than 2^60.
pub fn segment_bytes(
    alloc: Global,
    segment: &SegmentReader,
    key: u64,
) -> Result<Vec<u8>, StoreError>
    ensures stored { IfOk result (λ bytes. bytes.items ≡ stored key segment.now) }
    ensures storable { OnOk result (IsStored key segment.now) }
    ensures refused { IfErr result (IsMakeRefusal (length (stored key segment.now))) }
{
    let mut out = Vec::new(alloc);
    let mut index = Vec::new(alloc);
    push_dictionary(alloc, &mut out, &mut index, segment, key)?;
    let index = push_named(&mut out, key, &index)?;
    let lengths = lengths_bytes(alloc, segment)?;
    let lengths = push_named(&mut out, key, &lengths)?;
    let ending = ending_bytes(alloc, segment, key, &index, &lengths)?;
    let ending = push_named(&mut out, key, &ending)?;
    push_last(&mut out, &ending)?;
    Ok(out)
}

// Adds the last bytes of a file, which name its ending.
fn push_last(out: &mut Vec<u8>, ending: &Piece) -> Result<(), AllocError>
    ensures { OnOk result (out.new.items ≡ out.old.items ++ last_bytes ending.now) }
{
    push_word(out, ending.at)?;
    push_word(out, ending.len)?;
    push_word(out, ending.digest)?;
    Ok(())
}

// What the ending tells.
fn ending_bytes(
    alloc: Global,
    segment: &SegmentReader,
    key: u64,
    index: &Piece,
    lengths: &Piece,
) -> Result<Vec<u8>, AllocError>
    requires index { IsInFile index.now }
    requires lengths { IsInFile lengths.now }
    ensures { IfOk result (λ bytes. bytes.items ≡ ending_bytes key segment.now.segment index.now lengths.now) }
{
    let mut out = Vec::new(alloc);
    push_word(&mut out, key)?;
    push_number(&mut out, u64::from(segment.block_len()))?;
    push_number(&mut out, u64::from(segment.max_doc()))?;
    push_piece(&mut out, index)?;
    push_piece(&mut out, lengths)?;
    Ok(out)
}

// The length ids of all fields, field by field.
fn lengths_bytes(alloc: Global, segment: &SegmentReader) -> Result<Vec<u8>, AllocError>
    ensures { IfOk result (λ bytes. bytes.items ≡ flat_map (λ c. c) (columns_of segment.now.segment)) }
{
    let mut out = Vec::new(alloc);
    // those of the fields before it are there
    for id in 0..segment.schema().field_count() {
        out.extend_from_slice(segment.length_ids(Field::from_field_id(id)))?;
    }
    Ok(out)
}

// Adds the first bytes of a file, and then all rows and the dictionary; and what tells of its blocks to the index.
fn push_dictionary(
    alloc: Global,
    out: &mut Vec<u8>,
    index: &mut Vec<u8>,
    segment: &SegmentReader,
    key: u64,
) -> Result<(), StoreError>
    requires empty { out.old.items ≡ [] }
    requires no_blocks { index.old.items ≡ [] }
    ensures out { OnOk result (out.new.items ≡ rows_bytes key segment.now.rows) }
    ensures index { OnOk result (index.new.items ≡ index_bytes (stored_blocks key segment.now.rows)) }
    ensures storable { OnOk result (All IsStorable segment.now.rows) }
    ensures rows { OnOk result (IsOfRows segment.now) }
    ensures refused { IfErr result (IsMakeRefusal (length (rows_bytes key segment.now.rows))) }
{
    push_head(out, KIND)?;
    let count = segment.row_count();
    let blocks = count.div_ceil(BLOCK_TERMS);
    push_number(index, blocks as u64)?;
    // the groups before it are there, and the index tells of their blocks
    for number in 0..blocks {
        let start = number * BLOCK_TERMS;
        let end = start + BLOCK_TERMS.min(count - start);
        push_group(alloc, out, index, segment, key, start, end)?;
    }
    Ok(())
}

// Adds the rows from one place up to another that stand apart, and then their block; and what tells of it to the index.
fn push_group(
    alloc: Global,
    out: &mut Vec<u8>,
    index: &mut Vec<u8>,
    segment: &SegmentReader,
    key: u64,
    start: usize,
    end: usize,
) -> Result<(), StoreError>
    requires order { start < end }
    requires few { end ≤ start + 128 }
    requires rows { IsOfRows segment.now }
    requires within { end ≤ length segment.now.rows }
    ensures out { OnOk result (out.new.items ≡ out.old.items ++ group_bytes key (length out.old.items) (take (end - start) (drop start segment.now.rows))) }
    ensures index { OnOk result (index.new.items ≡ index.old.items ++ start_bytes (block_named key (length out.old.items) (take (end - start) (drop start segment.now.rows)))) }
    ensures storable { OnOk result (AllWithin IsStorable segment.now.rows start end) }
    ensures refused { IfErr result (IsMakeRefusal (length out.old.items + length (group_bytes key (length out.old.items) (take (end - start) (drop start segment.now.rows))))) }
{
    let mut block = Vec::new(alloc);
    push_number(&mut block, (end - start) as u64)?;
    push_entries(alloc, out, &mut block, segment, key, start, end)?;
    let piece = push_named(out, key, &block)?;
    push_term(index, segment.row(start).term())?;
    push_piece(index, &piece)?;
    Ok(())
}

// Adds the entries of the rows from one place up to another to a block, and those that stand apart to the file.
fn push_entries(
    alloc: Global,
    out: &mut Vec<u8>,
    block: &mut Vec<u8>,
    segment: &SegmentReader,
    key: u64,
    start: usize,
    end: usize,
) -> Result<(), StoreError>
    requires order { start ≤ end }
    requires rows { IsOfRows segment.now }
    requires within { end ≤ length segment.now.rows }
    ensures out { OnOk result (out.new.items ≡ out.old.items ++ all_apart (take (end - start) (drop start segment.now.rows))) }
    ensures block { OnOk result (block.new.items ≡ block.old.items ++ entries_bytes key (length out.old.items) (take (end - start) (drop start segment.now.rows))) }
    ensures storable { OnOk result (AllWithin IsStorable segment.now.rows start end) }
    ensures refused { IfErr result (IsMakeRefusal (length out.old.items + length (all_apart (take (end - start) (drop start segment.now.rows))))) }
{
    let mut room = Vec::new(alloc);
    // those before it are there
    for place in start..end {
        push_entry(out, block, &mut room, &segment.row(place), key)?;
    }
    Ok(())
}

/// Writes the bytes of a segment, as [`segment_bytes`] makes them.
///
/// Refused as that is, before anything is written; and with [`StoreError::Failed`] where the writer refuses, when any
/// of them may have been written.
pub fn write_segment<W: Write>(
    alloc: Global,
    segment: &SegmentReader,
    key: u64,
    out: &mut W,
) -> Result<(), StoreError>
    ensures written { OnOk result (Appends (W.contents out.old) (W.contents out.new) (stored key segment.now)) }
    ensures storable { OnOk result (IsStored key segment.now) }
    ensures refused { IfErr result (IsWriteRefusal out.old out.new) }
{
    let bytes = segment_bytes(alloc, segment, key)?;
    write_bytes(&bytes, out)?;
    Ok(())
}
