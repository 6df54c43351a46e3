//! A segment that is given by its rows.

use crate::asked_segment::Call;
use crate::given_segment::read_key;
use crate::kept::read_schema;
use crate::spelled::{read_numbers, read_text};
use crate::written_segment::ask_segment;
use cases::{Asker, Done, Fault, Listing, Memory, number, word, words_of};
use qm_postings::{RowsError, SegmentReader, TermRow};
use qm_schema::{Field, Schema, Term};
use std::alloc::Global;

/// Rows and length ids, the segment that was made of them, and the key by which it is written.
#[derive(Drop)]
pub struct GivenRows {
    key: u64,
    schema: Schema,
    block_len: u32,
    max_doc: u32,
    lengths: Vec<Vec<u8>>,
    rows: Vec<TermRow>,
    made: Option<SegmentReader>,
}

impl GivenRows {
    /// None so far, of the words `written KEY FIELDS BLOCK_LEN MAX_DOC`.
    pub fn make(alloc: Global, words: &[&str]) -> Result<GivenRows, Fault> {
        let (Some(block_len), Some(max_doc)) = (number(words, 3), number(words, 4)) else {
            return Err(Fault::NotUnderstood);
        };
        let schema = read_schema(alloc, word(words, 2))?;
        let mut lengths = Vec::new(alloc);
        // as many fields have an empty column as there were turns
        for _ in 0..schema.field_count() {
            lengths.push(Vec::new(alloc))?;
        }
        Ok(GivenRows {
            key: read_key(word(words, 1))?,
            schema,
            block_len,
            max_doc,
            lengths,
            rows: Vec::new(alloc),
            made: None,
        })
    }

    // The length ids of a field, by the words `column FIELD NUMBERS`.
    fn set_column(&mut self, alloc: Global, words: &[&str]) -> Done {
        let mut ids = Vec::new(alloc);
        // the length ids before this one are there
        for id in read_numbers(alloc, word(words, 2))? {
            let Ok(id) = u8::try_from(id) else {
                return Err(Fault::NotUnderstood);
            };
            ids.push(id)?;
        }
        let Some(field) = number(words, 1) else {
            return Err(Fault::NotUnderstood);
        };
        match self.lengths.get_mut(field as usize) {
            Some(column) => {
                *column = ids;
                Ok(())
            }
            None => Err(Fault::NotUnderstood),
        }
    }

    // A row, by the words `add FIELD TEXT DOCUMENTS FREQUENCIES POSITIONS`.
    fn add(&mut self, alloc: Global, words: &[&str]) -> Done {
        let Some(field) = number(words, 1) else {
            return Err(Fault::NotUnderstood);
        };
        let field = Field::from_field_id(field);
        self.rows.push(TermRow {
            term: Term::from_field_text(alloc, field, read_text(word(words, 2)))?,
            documents: read_numbers(alloc, word(words, 3))?,
            frequencies: read_numbers(alloc, word(words, 4))?,
            positions: read_numbers(alloc, word(words, 5))?,
        })?;
        Ok(())
    }

    // Makes the segment of the rows and length ids, of which none are left.
    fn make_segment(&mut self, alloc: Global, text: &mut Listing) -> Done {
        let rows = std::mem::replace(&mut self.rows, Vec::new(alloc));
        let lengths = std::mem::replace(&mut self.lengths, Vec::new(alloc));
        let made = SegmentReader::from_rows(
            alloc,
            &self.schema,
            self.block_len,
            self.max_doc,
            lengths,
            rows,
        );
        match made {
            Ok(segment) => {
                self.made = Some(segment);
                Ok(text.word("made"))
            }
            Err(RowsError::NotRows) => Ok(text.word("not rows")),
            Err(RowsError::Memory) => Err(Fault::Memory),
        }
    }
}

impl Asker for GivenRows {
    // `column` and `add`, which give the segment, `make`, `delete DOCUMENT`, and what is asked of the bytes that are
    // written.
    fn ask(&mut self, alloc: Global, call: &str, memory: Memory, text: &mut Listing) -> Done {
        let words = words_of(alloc, call)?;
        match word(&words, 0) {
            "column" => self.set_column(alloc, &words),
            "add" => self.add(alloc, &words),
            "make" => self.make_segment(alloc, text),
            first => {
                let Some(segment) = &mut self.made else {
                    return Err(Fault::NotAllowed);
                };
                if first == "delete" {
                    return delete(alloc, segment, &words);
                }
                let call = Call {
                    key: self.key,
                    schema: &self.schema,
                    memory,
                };
                ask_segment(alloc, segment, &call, &words, text)
            }
        }
    }
}

fn delete(alloc: Global, segment: &mut SegmentReader, words: &[&str]) -> Done {
    let Some(document) = number(words, 1) else {
        return Err(Fault::NotUnderstood);
    };
    if document >= segment.max_doc() {
        return Err(Fault::NotAllowed);
    }
    Ok(segment.delete(alloc, document)?)
}
