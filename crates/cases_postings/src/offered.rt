//! Rows on postings.

ghost use Rattle.std.specs.Prelude.{◌≡◌, ◌+◌, ◌<◌, ◌≤◌, [], All, IfOk, IsTrue, vec_capacity};
ghost use Rattle.qm_docset.specs.Entry.{head_document, head_positions};
ghost use Rattle.qm_docset.specs.Lists.{IsPlaced};

use crate::spelled::{cut, read_number};
use cases::{Done, Fault, Listing, Memory, end_refusals, read_documents, words_of};
use qm_docset::TERMINATED;
use qm_postings::Postings;
use std::alloc::Global;

// how many positions of a document are read at most
const MOST_POSITIONS: u64 = 1000000;

/// Makes a call of postings, and writes what it answered.
pub fn ask_postings<P: Postings>(
    alloc: Global,
    postings: &mut P,
    call: &str,
    memory: Memory,
    text: &mut Listing,
) -> Done
    requires { IsPlaced P.DocSet postings.old }
    ensures { IsPlaced P.DocSet postings.new }
{
    let (name, rest) = cut(call);
    match name {
        "max_term_freq" => Ok(write!(text, "{}", postings.max_term_freq())),
        "list" => {
            let offset = if rest.is_empty() {
                0
            } else {
                read_number(rest)?
            };
            write_list(alloc, postings, 0, offset, text)
        }
        _ => {
            if postings.doc() >= TERMINATED {
                return Err(Fault::NotAllowed);
            }
            ask_here(alloc, postings, call, memory, text)
        }
    }
}

// The calls that ask for a document.
fn ask_here<P: Postings>(
    alloc: Global,
    postings: &mut P,
    call: &str,
    memory: Memory,
    text: &mut Listing,
) -> Done
    requires placed { IsPlaced P.DocSet postings.old }
    requires here { head_document (P.entries postings.old) < TERMINATED }
    ensures { IsPlaced P.DocSet postings.new }
{
    let (name, rest) = cut(call);
    let numbers = match name {
        "freq" => {
            memory.begin(alloc);
            let frequency = postings.term_freq();
            end_refusals(alloc);
            return Ok(write!(text, "{frequency}"));
        }
        "positions" | "span" => read_positions(alloc, postings, memory)?,
        "positions_with_offset" => read_shifted(alloc, postings, read_number(rest)?, memory)?,
        "append" => {
            let (offset, before) = cut(rest);
            let before = read_documents(alloc, &words_of(alloc, before)?)?;
            read_appended(alloc, postings, read_number(offset)?, &before, memory)?
        }
        _ => return Err(Fault::NotUnderstood),
    };
    if name == "span" {
        Ok(write_span(&numbers, text))
    } else {
        Ok(write_numbers(&numbers, text))
    }
}

/// A list with room for so many numbers, and for what postings may give of a document.
pub fn output_for<P: Postings>(alloc: Global, postings: &P, count: usize) -> Result<Vec<u32>, Fault>
    requires valid { P.valid postings.now }
    ensures room { IfOk result (λ output. count + (P.limits postings.now).room ≤ vec_capacity output) }
    ensures empty { IfOk result (λ output. output.items ≡ []) }
{
    let room = postings.max_term_freq();
    if room > MOST_POSITIONS || count as u64 > MOST_POSITIONS {
        return Err(Fault::NotAllowed);
    }
    Ok(Vec::with_capacity(alloc, count + room as usize)?)
}

/// The positions of a document.
pub fn read_positions<P: Postings>(
    alloc: Global,
    postings: &mut P,
    memory: Memory,
) -> Result<Vec<u32>, Fault>
    requires placed { IsPlaced P.DocSet postings.old }
    requires here { head_document (P.entries postings.old) < TERMINATED }
    ensures positions { IfOk result (λ output. output.items ≡ head_positions (P.entries postings.new)) }
    ensures entries { P.entries postings.new ≡ P.entries postings.old }
    ensures placed { IsPlaced P.DocSet postings.new }
{
    let mut output = output_for(alloc, postings, 0)?;
    memory.begin(alloc);
    postings.positions(&mut output);
    end_refusals(alloc);
    Ok(output)
}

// The positions of a document, each plus an offset.
fn read_shifted<P: Postings>(
    alloc: Global,
    postings: &mut P,
    offset: u32,
    memory: Memory,
) -> Result<Vec<u32>, Fault>
    requires placed { IsPlaced P.DocSet postings.old }
    requires here { head_document (P.entries postings.old) < TERMINATED }
    ensures entries { P.entries postings.new ≡ P.entries postings.old }
    ensures placed { IsPlaced P.DocSet postings.new }
{
    let plain = read_positions(alloc, postings, Memory::Ample)?;
    if !can_shift(&plain, offset) {
        return Err(Fault::NotAllowed);
    }
    let mut output = output_for(alloc, postings, 0)?;
    memory.begin(alloc);
    postings.positions_with_offset(offset, &mut output);
    end_refusals(alloc);
    Ok(output)
}

// What a list holds behind the positions of a document, each plus an offset, that are appended to it.
fn read_appended<P: Postings>(
    alloc: Global,
    postings: &mut P,
    offset: u32,
    before: &[u32],
    memory: Memory,
) -> Result<Vec<u32>, Fault>
    requires placed { IsPlaced P.DocSet postings.old }
    requires here { head_document (P.entries postings.old) < TERMINATED }
    ensures entries { P.entries postings.new ≡ P.entries postings.old }
    ensures placed { IsPlaced P.DocSet postings.new }
{
    let plain = read_positions(alloc, postings, Memory::Ample)?;
    if !can_shift(&plain, offset) {
        return Err(Fault::NotAllowed);
    }
    let mut output = output_for(alloc, postings, before.len())?;
    output.extend_from_slice(before)?;
    memory.begin(alloc);
    postings.append_positions_with_offset(offset, &mut output);
    end_refusals(alloc);
    Ok(output)
}

/// Whether no position goes past 4294967295 by an offset.
pub fn can_shift(positions: &[u32], offset: u32) -> bool
    ensures { IsTrue result → All (λ p. p + offset ≤ 4294967295) positions.now }
{
    positions.iter().all(|position| u64::from(*position) + u64::from(offset) <= 4294967295)
}

/// Writes all documents that are left, each with its frequency and its positions plus an offset:
/// `3:2:1,5 7:1`. They are numbered from `first` on.
pub fn write_list<P: Postings>(
    alloc: Global,
    postings: &mut P,
    first: u64,
    offset: u32,
    text: &mut Listing,
) -> Done
    requires { IsPlaced P.DocSet postings.old }
    ensures { IsPlaced P.DocSet postings.new }
{
    let mut doc = postings.doc();
    // the postings stand on this document
    while doc < TERMINATED {
        text.add(first.saturating_add(u64::from(doc)));
        write!(text, ":{}", postings.term_freq());
        let positions = read_shifted(alloc, postings, offset, Memory::Ample)?;
        if !positions.is_empty() {
            text.word(":");
            write_joined(&positions, text);
        }
        doc = postings.advance();
    }
    Ok(())
}

/// Writes numbers with `,` between two.
pub fn write_joined(numbers: &[u32], text: &mut Listing) {
    // the numbers before this one are written, with `,` between two
    for (place, number) in numbers.iter().enumerate() {
        if place > 0 {
            text.word(",");
        }
        write!(text, "{number}");
    }
}

/// Writes numbers with a space between two.
pub fn write_numbers(numbers: &[u32], text: &mut Listing) {
    // the numbers before this one are written, with a space between two
    for number in numbers {
        text.add(number);
    }
}

// Writes how many numbers there are, and the first and the last.
fn write_span(numbers: &[u32], text: &mut Listing) {
    write!(text, "{}", numbers.len());
    if let (Some(first), Some(last)) = (numbers.first(), numbers.last()) {
        write!(text, " {first} {last}");
    }
}
