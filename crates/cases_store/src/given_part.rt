//! A segment that is given by its rows.

use crate::spelled::read_numbers;
use cases::{Done, Fault, word};
use qm_postings::{SegmentReader, TermRow};
use qm_schema::{Field, IndexRecordOption, Schema, Term};
use std::alloc::{AllocError, Global};

// how many fields a segment has at most
const MOST_FIELDS: u32 = 1000;

/// What a segment is made of: its fields, its rows and columns, and which documents are deleted.
#[derive(Drop)]
pub struct GivenPart {
    fields: Vec<GivenField>,
    block_len: u32,
    max_doc: u32,
    rows: Vec<TermRow>,
    deleted: Vec<u32>,
}

/// A field: what it keeps, and its column of length ids.
#[derive(Drop)]
struct GivenField {
    kept: Option<IndexRecordOption>,
    has_lengths: bool,
    ids: Vec<u8>,
}

impl GivenPart {
    /// A segment with neither a field nor a document.
    pub fn new(alloc: Global) -> GivenPart {
        GivenPart {
            fields: Vec::new(alloc),
            block_len: 128,
            max_doc: 0,
            rows: Vec::new(alloc),
            deleted: Vec::new(alloc),
        }
    }

    /// Takes what words say: `field KEPT`, `field KEPT IDS`, `blocks N`, `documents N`, `row FIELD TEXT DOCUMENTS
    /// FREQUENCIES POSITIONS` and `deleted DOCUMENTS`.
    pub fn take(&mut self, alloc: Global, words: &[&str]) -> Done {
        match word(words, 0) {
            "field" => self.add_field(alloc, words),
            "blocks" => {
                self.block_len = read_number(word(words, 1))?;
                Ok(())
            }
            "documents" => {
                self.max_doc = read_number(word(words, 1))?;
                Ok(())
            }
            "row" => self.add_row(alloc, words),
            "deleted" => {
                self.deleted = read_numbers(alloc, word(words, 1))?;
                Ok(())
            }
            _ => Err(Fault::NotUnderstood),
        }
    }

    fn add_field(&mut self, alloc: Global, words: &[&str]) -> Done {
        let spelled = word(words, 2);
        let mut ids = Vec::new(alloc);
        // the length ids before this one are there
        for id in read_numbers(alloc, if spelled.is_empty() { "-" } else { spelled })? {
            ids.push(u8::try_from(id).map_err(|_| Fault::NotUnderstood)?)?;
        }
        self.fields.push(GivenField {
            kept: read_kept(word(words, 1))?,
            has_lengths: !spelled.is_empty(),
            ids,
        })?;
        Ok(())
    }

    fn add_row(&mut self, alloc: Global, words: &[&str]) -> Done {
        let field = Field::from_field_id(read_number(word(words, 1))?);
        self.rows.push(TermRow {
            term: Term::from_field_text(alloc, field, word(words, 2))?,
            documents: read_numbers(alloc, word(words, 3))?,
            frequencies: read_numbers(alloc, word(words, 4))?,
            positions: read_numbers(alloc, word(words, 5))?,
        })?;
        Ok(())
    }

    /// The segment, made anew.
    pub fn segment(&self, alloc: Global) -> Result<SegmentReader, Fault> {
        let schema = self.schema(alloc)?;
        let lengths = self.columns(alloc)?;
        let rows = self.copied_rows(alloc)?;
        let made = SegmentReader::from_rows(
            alloc,
            &schema,
            self.block_len,
            self.max_doc,
            lengths,
            rows,
        );
        match made {
            Ok(segment) => self.without_deleted(alloc, segment),
            Err(_) => Err(Fault::NotAllowed),
        }
    }

    // The segment of which the given documents are deleted.
    fn without_deleted(
        &self,
        alloc: Global,
        segment: SegmentReader,
    ) -> Result<SegmentReader, Fault> {
        let mut segment = segment;
        // the documents before this one are in the segment, and deleted
        for doc in &self.deleted {
            if *doc >= segment.max_doc() {
                return Err(Fault::NotAllowed);
            }
            segment.delete(alloc, *doc)?;
        }
        Ok(segment)
    }

    fn schema(&self, alloc: Global) -> Result<Schema, Fault> {
        let mut builder = Schema::builder(alloc);
        let mut count: u32 = 0;
        // it has so many fields
        for field in &self.fields {
            if count >= MOST_FIELDS {
                return Err(Fault::NotUnderstood);
            }
            builder.add_text_field("", field.kept, field.has_lengths)?;
            count += 1;
        }
        Ok(builder.build())
    }

    fn columns(&self, alloc: Global) -> Result<Vec<Vec<u8>>, AllocError> {
        let mut columns = Vec::new(alloc);
        // the columns of the fields before this one are copied
        for field in &self.fields {
            let mut column = Vec::with_capacity(alloc, field.ids.len())?;
            column.extend_from_slice(&field.ids)?;
            columns.push(column)?;
        }
        Ok(columns)
    }

    fn copied_rows(&self, alloc: Global) -> Result<Vec<TermRow>, Fault> {
        let mut rows = Vec::new(alloc);
        // the rows before this one are copied
        for row in &self.rows {
            rows.push(copy_of(alloc, row)?)?;
        }
        Ok(rows)
    }
}

fn copy_of(alloc: Global, row: &TermRow) -> Result<TermRow, Fault> {
    let mut documents = Vec::new(alloc);
    documents.extend_from_slice(&row.documents)?;
    let mut frequencies = Vec::new(alloc);
    frequencies.extend_from_slice(&row.frequencies)?;
    let mut positions = Vec::new(alloc);
    positions.extend_from_slice(&row.positions)?;
    Ok(TermRow {
        term: row.term.clone(alloc)?,
        documents,
        frequencies,
        positions,
    })
}

// What a field of this word keeps of its terms.
fn read_kept(kept: &str) -> Result<Option<IndexRecordOption>, Fault> {
    match kept {
        "nothing" => Ok(None),
        "basic" => Ok(Some(IndexRecordOption::Basic)),
        "freqs" => Ok(Some(IndexRecordOption::WithFreqs)),
        "positions" => Ok(Some(IndexRecordOption::WithFreqsAndPositions)),
        _ => Err(Fault::NotUnderstood),
    }
}

fn read_number(spelled: &str) -> Result<u32, Fault> {
    spelled.parse().map_err(|_| Fault::NotUnderstood)
}
