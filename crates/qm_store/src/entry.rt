//! What a dictionary says of a term, and where it says that its row stands.

ghost use Rattle.std.specs.Prelude.{◌≡◌, ◌<◌, ◌^◌, option_map};
ghost use Rattle.qm_store.specs.Entries.{entry_at, here_at, lent_entry, lent_part, parts_at, there_at};

use crate::numbers::read_number;
use crate::piece::Piece;
use crate::term_bytes::read_term;
use crate::words::read_word;
use qm_schema::Field;

/// A part of a row: bytes that stand in the dictionary itself, or elsewhere in the file.
#[derive(Clone, Copy)]
pub(crate) enum PartRef<'a> {
    Here(&'a [u8]),
    There(Piece),
}

/// What a dictionary says of a term: its field and its text, and where its postings and its positions stand.
#[derive(Clone, Copy)]
pub(crate) struct EntryRef<'a> {
    pub(crate) field: Field,
    pub(crate) text: &'a [u8],
    pub(crate) parts: (PartRef<'a>, PartRef<'a>),
}

// The entry that some bytes begin with, and the bytes behind it; none where they begin with none.
pub(crate) fn read_entry(bytes: &[u8]) -> Option<(EntryRef<'_>, &[u8])>
    ensures read { option_map (λ r. (lent_entry r.0, r.1.now)) result ≡ entry_at bytes.now }
{
    let Some((field, text, rest)) = read_term(bytes) else {
        return None;
    };
    let Some((postings, places, rest)) = read_parts(rest) else {
        return None;
    };
    let parts = (postings, places);
    Some((EntryRef { field, text, parts }, rest))
}

// Where the postings of a row and its positions stand, which some bytes begin with, and the bytes behind that; none where
// they begin with no such.
fn read_parts(bytes: &[u8]) -> Option<(PartRef<'_>, PartRef<'_>, &[u8])>
    ensures read { option_map (λ r. ((lent_part r.0, lent_part r.1), r.2.now)) result ≡ parts_at bytes.now }
{
    let (marked, rest) = read_number(bytes)?;
    let (places, rest) = read_number(rest)?;
    if marked % 2 == 1 {
        read_here(marked / 2, places, rest)
    } else {
        read_there(marked / 2, places, rest)
    }
}

fn read_here(postings: u64, places: u64, bytes: &[u8]) -> Option<(PartRef<'_>, PartRef<'_>, &[u8])>
    ensures read { option_map (λ r. ((lent_part r.0, lent_part r.1), r.2.now)) result ≡ here_at postings places bytes.now }
{
    let there = bytes.len() as u64;
    if postings > there || places > there - postings {
        return None;
    }
    let (first, rest) = bytes.split_at(postings as usize);
    let (second, rest) = rest.split_at(places as usize);
    Some((PartRef::Here(first), PartRef::Here(second), rest))
}

fn read_there(postings: u64, places: u64, bytes: &[u8]) -> Option<(PartRef<'_>, PartRef<'_>, &[u8])>
    requires { postings < 128 ^ 9 }
    ensures read { option_map (λ r. ((lent_part r.0, lent_part r.1), r.2.now)) result ≡ there_at postings places bytes.now }
{
    let (at, rest) = read_number(bytes)?;
    let (first, rest) = read_word(rest)?;
    let (second, rest) = read_word(rest)?;
    let postings = Piece {
        at,
        len: postings,
        digest: first,
    };
    let places = Piece {
        at: at + postings.len,
        len: places,
        digest: second,
    };
    Some((PartRef::There(postings), PartRef::There(places), rest))
}
