//! What is asked of a stored segment.

use crate::asked_wanted::{ask_wanted, ask_whole, read_wanted};
use crate::spelled::{read_text, write_row};
use cases::{Done, Fault, Listing, Memory, behind, end_refusals, number, word};
use qm_schema::{Field, QueryError, Schema, Term};
use qm_store::{Pieces, StoreError, StoredSegment};
use std::alloc::Global;

/// With what a segment is opened, and which requests for memory are refused in the call that is made.
#[derive(Clone, Copy)]
pub struct Call<'a> {
    pub key: u64,
    pub schema: &'a Schema,
    pub memory: Memory,
}

/// Answers `open`, how many documents a segment has; `row FIELD TEXT`, the row of a term, without positions, or with them
/// where `placed` stands behind it; `wanted FIELD:TEXT ..`, the segment that has these terms alone, and all that begin with
/// one that `*` stands behind; and `whole`, the segment itself.
pub fn ask<P: Pieces + Drop>(
    alloc: Global,
    source: P,
    call: &Call<'_>,
    words: &[&str],
    text: &mut Listing,
) -> Done {
    match word(words, 0) {
        "open" => ask_open(alloc, source, call, text),
        "row" => {
            let asked = Asked::read(alloc, words)?;
            match StoredSegment::open(alloc, source, call.schema, call.key) {
                Ok(segment) => ask_row(alloc, &segment, &asked, call.memory, text),
                Err(error) => write_error(error, text),
            }
        }
        "wanted" => {
            let (terms, beginnings) = read_wanted(alloc, behind(words, 1))?;
            match StoredSegment::open(alloc, source, call.schema, call.key) {
                Ok(segment) => ask_wanted(alloc, &segment, call, terms, beginnings, text),
                Err(error) => write_error(error, text),
            }
        }
        "whole" => match StoredSegment::open(alloc, source, call.schema, call.key) {
            Ok(segment) => ask_whole(alloc, &segment, call, text),
            Err(error) => write_error(error, text),
        },
        _ => Err(Fault::NotUnderstood),
    }
}

fn ask_open<P: Pieces + Drop>(
    alloc: Global,
    source: P,
    call: &Call<'_>,
    text: &mut Listing,
) -> Done {
    call.memory.begin(alloc);
    let opened = StoredSegment::open(alloc, source, call.schema, call.key);
    end_refusals(alloc);
    match opened {
        Ok(segment) => Ok(write!(text, "{} documents", segment.max_doc())),
        Err(error) => write_error(error, text),
    }
}

/// Which row is asked for.
#[derive(Drop)]
pub struct Asked {
    term: Term,
    with_positions: bool,
}

impl Asked {
    /// That of the words `row FIELD TEXT`, or `row FIELD TEXT placed`.
    pub fn read(alloc: Global, words: &[&str]) -> Result<Asked, Fault> {
        let Some(field) = number(words, 1) else {
            return Err(Fault::NotUnderstood);
        };
        let field = Field::from_field_id(field);
        Ok(Asked {
            term: Term::from_field_text(alloc, field, read_text(word(words, 2)))?,
            with_positions: word(words, 3) == "placed",
        })
    }
}

/// Answers the row of a term.
pub fn ask_row<P: Pieces + Drop>(
    alloc: Global,
    segment: &StoredSegment<P>,
    asked: &Asked,
    memory: Memory,
    text: &mut Listing,
) -> Done {
    memory.begin(alloc);
    let found = segment.row(alloc, &asked.term, asked.with_positions);
    end_refusals(alloc);
    match found {
        Ok(Some(row)) => Ok(write_row(&row, text)),
        Ok(None) => Ok(text.word("none")),
        Err(error) => write_error(error, text),
    }
}

/// Writes why a stored segment can't be read or written.
pub fn write_error(error: StoreError, text: &mut Listing) -> Done {
    let spelled = match error {
        StoreError::Memory => return Err(Fault::Refused(QueryError::Memory)),
        StoreError::Failed => "failed",
        StoreError::OtherFile => "another file",
        StoreError::OtherVersion => "another version",
        StoreError::Damaged => "damaged",
    };
    Ok(text.word(spelled))
}
