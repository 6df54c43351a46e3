//! What is wanted of a stored segment, in any order, and the segments that are read of it.

use crate::asked_segment::{Call, write_error};
use crate::merged::write_rows;
use crate::spelled::read_text;
use cases::{Asker, Done, Fault, Listing, Memory, behind, end_refusals, word, words_of};
use qm_postings::SegmentReader;
use qm_schema::{Field, Schema, Term};
use qm_store::{Pieces, StoreError, StoredSegment, Wanted, wanted_of};
use std::alloc::Global;

/// The terms of the words `FIELD:TEXT`, and the beginnings of the words `FIELD:TEXT*`.
pub fn read_wanted(alloc: Global, words: &[&str]) -> Result<(Vec<Term>, Vec<Term>), Fault> {
    let mut terms = Vec::new(alloc);
    let mut beginnings = Vec::new(alloc);
    // the terms and the beginnings of the words before this one are there
    for word in words {
        match word.strip_suffix('*') {
            Some(front) => beginnings.push(read_term(alloc, front)?)?,
            None => terms.push(read_term(alloc, word)?)?,
        }
    }
    Ok((terms, beginnings))
}

fn read_term(alloc: Global, word: &str) -> Result<Term, Fault> {
    let Some((field, text)) = word.split_once(':') else {
        return Err(Fault::NotUnderstood);
    };
    let Ok(field) = field.parse::<u32>() else {
        return Err(Fault::NotUnderstood);
    };
    let field = Field::from_field_id(field);
    Ok(Term::from_field_text(alloc, field, read_text(text))?)
}

/// Answers how many documents the segment of what is wanted has, and all its rows.
pub fn ask_wanted<P: Pieces + Drop>(
    alloc: Global,
    segment: &StoredSegment<P>,
    call: &Call<'_>,
    terms: Vec<Term>,
    beginnings: Vec<Term>,
    text: &mut Listing,
) -> Done {
    call.memory.begin(alloc);
    let made = segment_of(alloc, segment, call.schema, terms, beginnings);
    end_refusals(alloc);
    write_made(alloc, made, text)
}

fn segment_of<P: Pieces + Drop>(
    alloc: Global,
    segment: &StoredSegment<P>,
    schema: &Schema,
    terms: Vec<Term>,
    beginnings: Vec<Term>,
) -> Result<SegmentReader, StoreError> {
    let wanted = wanted_of(alloc, terms, beginnings)?;
    segment.with_wanted(alloc, schema, &wanted)
}

/// Answers how many documents the whole segment has, and all its rows.
pub fn ask_whole<P: Pieces + Drop>(
    alloc: Global,
    segment: &StoredSegment<P>,
    call: &Call<'_>,
    text: &mut Listing,
) -> Done {
    call.memory.begin(alloc);
    let made = segment.whole(alloc, call.schema);
    end_refusals(alloc);
    write_made(alloc, made, text)
}

fn write_made(alloc: Global, made: Result<SegmentReader, StoreError>, text: &mut Listing) -> Done {
    match made {
        Ok(made) => {
            write!(text, "{}", made.max_doc());
            write_rows(alloc, &made, text)
        }
        Err(error) => write_error(error, text),
    }
}

/// Rows `list FIELD:TEXT ..`, each answered with the list that is made of these words, or `-` where it is empty.
#[derive(Drop)]
pub struct WantedLists;

impl Asker for WantedLists {
    fn ask(&mut self, alloc: Global, call: &str, memory: Memory, text: &mut Listing) -> Done {
        let words = words_of(alloc, call)?;
        if word(&words, 0) != "list" {
            return Err(Fault::NotUnderstood);
        }
        let (terms, beginnings) = read_wanted(alloc, behind(&words, 1))?;
        memory.begin(alloc);
        let made = wanted_of(alloc, terms, beginnings);
        end_refusals(alloc);
        match made {
            Ok(wanted) => Ok(write_list(&wanted, text)),
            Err(error) => write_error(error, text),
        }
    }
}

fn write_list(wanted: &[Wanted], text: &mut Listing) {
    if wanted.is_empty() {
        text.word("-");
    }
    // the terms and the beginnings before this one are written
    for one in wanted {
        text.add(one.term.field().field_id());
        text.word(":");
        text.bytes(one.term.serialized_value_bytes());
        if one.is_beginning {
            text.word("*");
        }
    }
}
