//! Two segments, and what is made of them.

use crate::given_part::GivenPart;
use crate::spelled::write_numbers;
use cases::{Asker, Done, Fault, Listing, Memory, behind, end_refusals, number, word, words_of};
use qm_merge::{MergeError, leave_out_deleted, merge};
use qm_postings::{SegmentReader, TermRowRef};
use qm_schema::{Field, QueryError};
use std::alloc::Global;

/// Two segments that are given by their rows, and the one that was made last.
#[derive(Drop)]
pub struct Merged {
    first: GivenPart,
    second: GivenPart,
    made: Option<SegmentReader>,
}

impl Merged {
    /// Two segments that are given nothing yet.
    pub fn new(alloc: Global) -> Merged {
        Merged {
            first: GivenPart::new(alloc),
            second: GivenPart::new(alloc),
            made: None,
        }
    }

    // Merges both.
    fn merge(&mut self, alloc: Global, memory: Memory, text: &mut Listing) -> Done {
        let first = self.first.segment(alloc)?;
        let second = self.second.segment(alloc)?;
        memory.begin(alloc);
        let merged = merge(alloc, &first, &second);
        end_refusals(alloc);
        self.made = told(merged, text)?;
        Ok(())
    }

    // Leaves out the deleted documents of what was made last, or of the first where nothing was.
    fn leave_out(&mut self, alloc: Global, memory: Memory, text: &mut Listing) -> Done {
        let segment = match self.made.take() {
            Some(made) => made,
            None => self.first.segment(alloc)?,
        };
        memory.begin(alloc);
        let left = leave_out_deleted(alloc, &segment);
        end_refusals(alloc);
        match left {
            Ok(left) => {
                self.made = Some(left);
                Ok(text.word("made"))
            }
            Err(error) => {
                self.made = Some(segment);
                Err(Fault::Refused(error))
            }
        }
    }
}

impl Asker for Merged {
    fn ask(&mut self, alloc: Global, call: &str, memory: Memory, text: &mut Listing) -> Done {
        let words = words_of(alloc, call)?;
        match word(&words, 0) {
            "first" => self.first.take(alloc, behind(&words, 1)),
            "second" => self.second.take(alloc, behind(&words, 1)),
            "both" => {
                self.first.take(alloc, behind(&words, 1))?;
                self.second.take(alloc, behind(&words, 1))
            }
            "merge" => self.merge(alloc, memory, text),
            "leave_out" => self.leave_out(alloc, memory, text),
            _ => match &self.made {
                Some(made) => ask_made(alloc, made, &words, text),
                None => Err(Fault::NotAllowed),
            },
        }
    }
}

// Writes what a merge answered, and gives the segment that it made.
fn told(
    merged: Result<SegmentReader, MergeError>,
    text: &mut Listing,
) -> Result<Option<SegmentReader>, Fault> {
    match merged {
        Ok(segment) => {
            text.word("made");
            Ok(Some(segment))
        }
        Err(MergeError::Unlike) => {
            text.word("unlike");
            Ok(None)
        }
        Err(MergeError::TooMany) => {
            text.word("too many");
            Ok(None)
        }
        Err(MergeError::Memory) => Err(Fault::Refused(QueryError::Memory)),
    }
}

// `rows`, `columns FIELD`, `alive` and `shape` of a segment.
fn ask_made(alloc: Global, made: &SegmentReader, words: &[&str], text: &mut Listing) -> Done {
    match word(words, 0) {
        "rows" => write_rows(alloc, made, text),
        "columns" => match number(words, 1) {
            Some(field) => Ok(write_column(made, Field::from_field_id(field), text)),
            None => Err(Fault::NotUnderstood),
        },
        "alive" => Ok(write_alive(made, text)),
        "shape" => {
            text.add(made.block_len());
            text.add(made.schema().field_count());
            Ok(text.add(made.max_doc()))
        }
        _ => Err(Fault::NotUnderstood),
    }
}

/// Writes all rows: the field's number, the term's text, the documents, the frequencies and the positions of each.
pub fn write_rows(alloc: Global, made: &SegmentReader, text: &mut Listing) -> Done {
    // the rows at the places before this one are written
    for place in 0..made.row_count() {
        text.space();
        write_row(alloc, made.row(place), text)?;
    }
    Ok(())
}

fn write_row(alloc: Global, row: TermRowRef<'_>, text: &mut Listing) -> Done {
    write!(text, "{}:", row.term().field().field_id());
    text.bytes(row.term().serialized_value_bytes());
    text.word(":");
    write_numbers(row.documents(), text);
    text.word(":");
    write_numbers(&row.copy(alloc)?.frequencies, text);
    text.word(":");
    Ok(write_numbers(row.positions(), text))
}

// The length ids of a field.
fn write_column(made: &SegmentReader, field: Field, text: &mut Listing) {
    // the length ids before this one are written
    for id in made.length_ids(field) {
        text.add(id);
    }
}

// The documents that were not deleted.
fn write_alive(made: &SegmentReader, text: &mut Listing) {
    // of the documents before this one those that were not deleted are written
    for doc in 0..made.max_doc() {
        let is_alive = match made.alive_bitset() {
            Some(alive) => alive.is_alive(doc),
            None => true,
        };
        if is_alive {
            text.add(doc);
        }
    }
}
