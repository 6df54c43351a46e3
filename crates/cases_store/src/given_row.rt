//! A row that is given by hand.

use crate::spelled::{keeps_positions, read_numbers, write_bytes, write_read};
use cases::{Asker, Done, Fault, Listing, Memory, end_refusals, word};
use qm_postings::{SegmentReader, TermRow};
use qm_schema::{Field, IndexRecordOption, QueryError, Schema, Term};
use qm_store::{push_row, read_row};
use std::alloc::{AllocError, Global};

const BLOCK_LEN: u32 = 128;

/// A segment that has one row, in a field that keeps positions or in another.
#[derive(Drop)]
pub struct GivenRow {
    segment: SegmentReader,
    has_positions: bool,
}

impl GivenRow {
    /// The row of the words `row KEEPS DOCUMENTS FREQUENCIES POSITIONS`.
    pub fn make(alloc: Global, words: &[&str]) -> Result<GivenRow, Fault> {
        let has_positions = keeps_positions(word(words, 1))?;
        let documents = read_numbers(alloc, word(words, 2))?;
        let max_doc = match documents.last() {
            Some(last) => last.saturating_add(1),
            None => 0,
        };
        let mut rows = Vec::new(alloc);
        rows.push(TermRow {
            term: Term::from_field_text(alloc, Field::from_field_id(0), "")?,
            documents,
            frequencies: read_numbers(alloc, word(words, 3))?,
            positions: read_numbers(alloc, word(words, 4))?,
        })?;
        let mut lengths = Vec::new(alloc);
        lengths.push(Vec::new(alloc))?;
        let schema = schema_of(alloc, has_positions)?;
        match SegmentReader::from_rows(alloc, &schema, BLOCK_LEN, max_doc, lengths, rows) {
            Ok(segment) => Ok(GivenRow {
                segment,
                has_positions,
            }),
            Err(_) => Err(Fault::NotAllowed),
        }
    }

    // Its bytes, behind a byte that stands there before.
    fn bytes(&self, alloc: Global, memory: Memory) -> Result<Vec<u8>, Fault> {
        let mut bytes = Vec::new(alloc);
        bytes.push(255)?;
        memory.begin(alloc);
        let pushed = push_first(&self.segment, &mut bytes);
        end_refusals(alloc);
        match pushed {
            Ok(()) => Ok(bytes),
            Err(_) => Err(Fault::Refused(QueryError::Memory)),
        }
    }
}

// Adds the bytes of a segment's first row, where it has one.
fn push_first(segment: &SegmentReader, bytes: &mut Vec<u8>) -> Result<(), AllocError> {
    if segment.row_count() == 0 {
        return Ok(());
    }
    push_row(bytes, &segment.row(0))
}

fn schema_of(alloc: Global, has_positions: bool) -> Result<Schema, QueryError> {
    let kept = if has_positions {
        IndexRecordOption::WithFreqsAndPositions
    } else {
        IndexRecordOption::WithFreqs
    };
    let mut builder = Schema::builder(alloc);
    builder.add_text_field("body", Some(kept), false)?;
    Ok(builder.build())
}

impl Asker for GivenRow {
    // `bytes`, those of the row behind one of 255, and `again`, the row that they are.
    fn ask(&mut self, alloc: Global, call: &str, memory: Memory, text: &mut Listing) -> Done {
        let bytes = self.bytes(alloc, memory)?;
        match call {
            "bytes" => Ok(write_bytes(&bytes, text)),
            "again" => {
                let term = Term::from_field_text(alloc, Field::from_field_id(0), "")?;
                let read = read_row(
                    alloc,
                    term,
                    self.has_positions,
                    &bytes[1.min(bytes.len())..],
                );
                write_read(read, text)
            }
            _ => Err(Fault::NotUnderstood),
        }
    }
}
