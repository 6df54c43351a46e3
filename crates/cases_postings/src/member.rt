//! Postings of the cases' own, as words spell them.

ghost use Rattle.std.specs.Prelude.{◌≤◌, All, IfOk};
ghost use Rattle.qm_docset.specs.Lists.{ArePlaced, IsPlaced};

use crate::own_postings::OwnPostings;
use crate::spelled::{read_number, read_numbers};
use cases::Fault;
use qm_docset::{DocId, DocSet};
use std::alloc::Global;

// the document of postings that are spelled without one
const DOCUMENT: DocId = 6;

/// The postings that `DOCUMENTS:FREQUENCY:POSITIONS` spells. A further number behind `:` is how many
/// positions they say to have at most.
pub fn read_member(alloc: Global, spelled: &str) -> Result<OwnPostings, Fault>
    ensures { IfOk result (IsPlaced ⟦<OwnPostings as DocSet>⟧) }
{
    let (documents, rest) = spelled.split_once(':').ok_or(Fault::NotUnderstood)?;
    let (frequency, rest) = rest.split_once(':').ok_or(Fault::NotUnderstood)?;
    let frequency = if frequency.is_empty() {
        1
    } else {
        read_number(frequency)?
    };
    let (positions, room) = match rest.split_once(':') {
        Some((positions, room)) => (positions, room.parse::<u64>().ok()),
        None => (rest, None),
    };
    let documents = read_numbers(alloc, documents)?;
    let positions = read_numbers(alloc, positions)?;
    let room = room.unwrap_or(positions.len() as u64);
    OwnPostings::new(documents, frequency, positions, room)
}

/// The postings that words spell, one each.
pub fn read_members(alloc: Global, words: &[&str]) -> Result<Vec<OwnPostings>, Fault>
    ensures { IfOk result (λ row. ArePlaced ⟦<OwnPostings as DocSet>⟧ row.items) }
{
    let mut row = Vec::new(alloc);
    // all members so far stand on their first documents
    for spelled in words {
        row.push(read_member(alloc, spelled)?)?;
    }
    Ok(row)
}

/// The postings of the one document at these positions.
pub fn read_places(alloc: Global, spelled: &str) -> Result<OwnPostings, Fault>
    ensures { IfOk result (IsPlaced ⟦<OwnPostings as DocSet>⟧) }
{
    let positions = read_numbers(alloc, spelled)?;
    let mut documents = Vec::new(alloc);
    documents.push(DOCUMENT)?;
    let count = positions.len();
    let frequency = u32::try_from(count).unwrap_or(u32::MAX);
    OwnPostings::new(documents, frequency, positions, count as u64)
}

/// The postings of one document that words `:POSITIONS` spell.
pub fn read_suffixes(alloc: Global, words: &[&str]) -> Result<Vec<OwnPostings>, Fault>
    ensures { IfOk result (λ row. All ⟦<OwnPostings as DocSet>⟧.valid row.items) }
{
    let mut row = Vec::new(alloc);
    // all members so far are cursors
    for spelled in words {
        let places = spelled.strip_prefix(":").ok_or(Fault::NotUnderstood)?;
        row.push(read_places(alloc, places)?)?;
    }
    Ok(row)
}

/// The terms of one document, each with its offset, that words `OFFSET:POSITIONS` spell.
pub fn read_terms(alloc: Global, words: &[&str]) -> Result<Vec<(usize, OwnPostings)>, Fault>
    ensures valid { IfOk result (λ row. All (λ pair. ⟦<OwnPostings as DocSet>⟧.valid pair.1) row.items) }
    ensures offsets { IfOk result (λ row. All (λ pair. pair.0 ≤ 4294967295) row.items) }
{
    let mut row = Vec::new(alloc);
    // all members so far are cursors, at offsets of 32 bits
    for spelled in words {
        let (offset, places) = spelled.split_once(':').ok_or(Fault::NotUnderstood)?;
        let offset = read_number(offset)?;
        row.push((offset as usize, read_places(alloc, places)?))?;
    }
    Ok(row)
}
