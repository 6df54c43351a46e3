//! Rows as bytes.

ghost use Rattle.std.specs.Prelude.{◌≡◌, ◌<◌, ◌≤◌, ◌^◌, ◌++◌, All, OnOk, IfOk, IfSome, length, option_map};
ghost use Rattle.qm_postings.specs.LentRow.{lent_row};
ghost use Rattle.qm_postings.specs.Rows.{ArePlaces};
ghost use Rattle.qm_postings.specs.RowsSoFar.{pushed_row};
ghost use Rattle.qm_postings.specs.Segment.{AscendFrom};
ghost use Rattle.qm_schema.specs.Term.{TermKey};
ghost use Rattle.qm_store.specs.RowBytes.{IsSomeRow, gaps_at, places_at, places_bytes, places_part, posting_at, posting_bytes, postings_at};
ghost use Rattle.qm_store.specs.RowBytes.{postings_bytes, postings_part, row_at, row_bytes};
ghost use Rattle.qm_store.specs.RowsPushed.{AddsPositions, AddsPostings, HaveSamePositions, HaveSamePostings, if_read, with_found};

use crate::gaps::{LIMIT, push_gaps, read_gap};
use crate::numbers::{push_number, read_number};
use qm_postings::{RowsBuilder, TermRow, TermRowRef};
use qm_schema::Term;
use std::alloc::{AllocError, Global};

/// Adds the bytes of a row, without its term: how many postings it has, its postings, then its positions. Costs a step
/// for each posting and each position. A refused call, for want of memory alone, may have added some of them.
pub fn push_row(out: &mut Vec<u8>, row: &TermRowRef<'_>) -> Result<(), AllocError>
    requires { IsSomeRow (lent_row row.now) }
    ensures added { OnOk result (out.new.items ≡ out.old.items ++ row_bytes (lent_row row.now)) }
    ensures small { OnOk result (All (λ f. f ≤ u32.MAX) (lent_row row.now).frequencies) }
{
    push_counted(out, row)?;
    push_positions(out, row)?;
    Ok(())
}

// Adds how many postings a row has, and these.
#[tactic(auto, unfolding(crate::specs::RowBytes::postings_part))]
pub(crate) fn push_counted(out: &mut Vec<u8>, row: &TermRowRef<'_>) -> Result<(), AllocError>
    requires { IsSomeRow (lent_row row.now) }
    ensures added { OnOk result (out.new.items ≡ out.old.items ++ postings_part (lent_row row.now)) }
    ensures small { OnOk result (All (λ f. f ≤ u32.MAX) (lent_row row.now).frequencies) }
{
    push_number(out, row.documents().len() as u64)?;
    push_postings(out, row)?;
    Ok(())
}

// Adds the positions of a row, if its field keeps them.
#[tactic(auto, unfolding(crate::specs::RowBytes::places_part))]
pub(crate) fn push_positions(out: &mut Vec<u8>, row: &TermRowRef<'_>) -> Result<(), AllocError>
    requires { IsSomeRow (lent_row row.now) }
    ensures { OnOk result (out.new.items ≡ out.old.items ++ places_part (lent_row row.now)) }
{
    if !row.positions().is_empty() {
        push_places(out, row)?;
    }
    Ok(())
}

// Adds the postings of a row.
fn push_postings(out: &mut Vec<u8>, row: &TermRowRef<'_>) -> Result<(), AllocError>
    requires ascending { AscendFrom 0 (lent_row row.now).documents }
    requires paired { length (lent_row row.now).frequencies ≡ length (lent_row row.now).documents }
    ensures added { OnOk result (out.new.items ≡ out.old.items ++ postings_bytes 0 (lent_row row.now).documents (lent_row row.now).frequencies) }
    ensures small { OnOk result (All (λ f. f ≤ u32.MAX) (lent_row row.now).frequencies) }
{
    let mut low = 0;
    // those before it are there, and the others are of documents from the low one on
    for place in 0..row.documents().len() {
        let document = row.documents()[place];
        push_posting(out, u64::from(document - low), row.frequency(place))?;
        low = document + 1;
    }
    Ok(())
}

fn push_posting(out: &mut Vec<u8>, gap: u64, frequency: u32) -> Result<(), AllocError>
    requires { gap < 4294967296 }
    ensures { OnOk result (out.new.items ≡ out.old.items ++ posting_bytes gap frequency) }
{
    if frequency == 1 {
        return push_number(out, 2 * gap + 1);
    }
    push_number(out, 2 * gap)?;
    push_number(out, u64::from(frequency))
}

// Adds the positions of each posting of a row.
fn push_places(out: &mut Vec<u8>, row: &TermRowRef<'_>) -> Result<(), AllocError>
    requires paired { length (lent_row row.now).frequencies ≡ length (lent_row row.now).documents }
    requires places { ArePlaces (lent_row row.now).frequencies (lent_row row.now).positions }
    ensures { OnOk result (out.new.items ≡ out.old.items ++ places_bytes (lent_row row.now).frequencies (lent_row row.now).positions) }
{
    let mut start = 0;
    // those of the postings before it are there
    for place in 0..row.documents().len() {
        let end = start + row.frequency(place) as usize;
        push_gaps(out, &row.positions()[start..end])?;
        start = end;
    }
    Ok(())
}

/// The row of a term that some bytes are, in a field that keeps positions or in another; none where they are no row.
/// What is read so ascends, but may be no row of a segment: `SegmentReader::from_rows` says. Costs a step for each
/// posting and each position, and takes no more room than the bytes have postings and positions, which have a byte each.
///
/// Refused for want of memory alone.
pub fn read_row(
    alloc: Global,
    term: Term,
    has_positions: bool,
    bytes: &[u8],
) -> Result<Option<TermRow>, AllocError>
    ensures { IfOk result (λ row. row ≡ row_at term has_positions bytes.now) }
{
    let mut rows = RowsBuilder::new(alloc);
    if push_parts(&mut rows, has_positions, bytes)? {
        Ok(Some(rows.into_row(alloc, term)?))
    } else {
        Ok(None)
    }
}

// Adds the row of a term that some bytes are to those that are put together, and answers whether they are one.
pub(crate) fn read_row_behind(
    rows: &mut RowsBuilder,
    term: Term,
    has_positions: bool,
    bytes: &[u8],
) -> Result<bool, AllocError>
    ensures { IfOk result (λ is. if_read is rows.new.rows ≡ with_found rows.old.rows (row_at term has_positions bytes.now)) }
{
    if !push_parts(rows, has_positions, bytes)? {
        return Ok(false);
    }
    rows.end_row(term)?;
    Ok(true)
}

// Begins a row with the postings and the positions that some bytes are, and answers whether they are a row.
fn push_parts(rows: &mut RowsBuilder, has_positions: bool, bytes: &[u8]) -> Result<bool, AllocError>
    ensures read { IfOk result (λ is. (term : TermKey) → if_read is (pushed_row term rows.new) ≡ row_at term has_positions bytes.now) }
    ensures rows { rows.new.rows ≡ rows.old.rows }
{
    let Some((count, rest)) = read_number(bytes) else {
        return Ok(false);
    };
    if count > rest.len() as u64 {
        return Ok(false);
    }
    let postings = count as usize;
    let positions = if has_positions {
        rest.len() - postings
    } else {
        0
    };
    rows.begin_row(postings, positions)?;
    let Some(rest) = read_postings(rows, rest, count)? else {
        return Ok(false);
    };
    if !has_positions {
        return Ok(rest.is_empty());
    }
    match read_places(rows, rest)? {
        Some(rest) => Ok(rest.is_empty()),
        None => Ok(false),
    }
}

// Adds so many postings that some bytes begin with, and gives the bytes behind them; none where they begin with no such.
fn read_postings<'a>(
    rows: &mut RowsBuilder,
    bytes: &'a [u8],
    count: u64,
) -> Result<Option<&'a [u8]>, AllocError>
    ensures read { IfOk result (λ r. AddsPostings rows.old rows.new r (postings_at count 0 bytes.now)) }
    ensures kept { HaveSamePositions rows.old rows.new }
{
    let mut rest = bytes;
    let mut low: u64 = 0;
    // what is read and what is left make all
    for place in 0..count {
        let Some((gap, frequency, behind)) = read_posting(rest) else {
            return Ok(None);
        };
        let document = low + gap;
        if document >= LIMIT || frequency > LIMIT {
            return Ok(None);
        }
        rows.push_posting(document as u32, frequency as u32)?;
        low = document + 1;
        rest = behind;
    }
    Ok(Some(rest))
}

// The gap before a document, its frequency, and the bytes behind them; none where the bytes begin with no posting.
#[tactic(auto, using(crate::proofs::ShortNumbers::posting_short))]
fn read_posting(bytes: &[u8]) -> Option<(u64, u64, &[u8])>
    ensures read { option_map (λ r. ((r.0, r.1), r.2.now)) result ≡ posting_at bytes.now }
    ensures fits { IfSome result (λ r. r.0 < 128 ^ 9) }
{
    if let [first, second, ..] = bytes {
        // nearly all have one byte, or two, and need no further call
        if *first < 128 && *second < 128 {
            let alone = *first % 2;
            let frequency = if alone == 1 { 1 } else { *second };
            let len = 2 - alone as usize;
            return Some((u64::from(*first / 2), u64::from(frequency), &bytes[len..]));
        }
    }
    let (number, rest) = read_number(bytes)?;
    if number % 2 == 1 {
        return Some((number / 2, 1, rest));
    }
    let (frequency, rest) = read_number(rest)?;
    Some((number / 2, frequency, rest))
}

// Adds the positions of all postings, and gives the bytes behind them; none where the bytes begin with no such positions.
fn read_places<'a>(rows: &mut RowsBuilder, bytes: &'a [u8]) -> Result<Option<&'a [u8]>, AllocError>
    ensures read { IfOk result (λ r. AddsPositions rows.old rows.new r (places_at rows.old.frequencies bytes.now)) }
    ensures kept { HaveSamePostings rows.old rows.new }
{
    let mut rest = bytes;
    // what is read and what is left make all
    for place in 0..rows.posting_count() {
        let frequency = rows.frequency(place);
        match read_positions(rows, rest, frequency)? {
            Some(behind) => rest = behind,
            None => return Ok(None),
        }
    }
    Ok(Some(rest))
}

// Adds so many positions that some bytes begin with, and gives the bytes behind them; none where they begin with no such.
fn read_positions<'a>(
    rows: &mut RowsBuilder,
    bytes: &'a [u8],
    count: u32,
) -> Result<Option<&'a [u8]>, AllocError>
    ensures read { IfOk result (λ r. AddsPositions rows.old rows.new r (gaps_at count 0 bytes.now)) }
    ensures kept { HaveSamePostings rows.old rows.new }
{
    let mut rest = bytes;
    let mut low: u32 = 0;
    // what is read and what is left make all
    for place in 0..count {
        let Some((position, behind)) = read_gap(rest, low) else {
            return Ok(None);
        };
        rows.push_position(position)?;
        low = position + 1;
        rest = behind;
    }
    Ok(Some(rest))
}
