//! Rows of terms that are given by hand, and those of a segment.

use crate::bench::Bench;
use crate::built_rows::{built_again, row_again};
use crate::given::alive_of;
use crate::offered::write_joined;
use crate::spelled::{cut, read_field, read_number, read_numbers, read_term, write_bytes};
use cases::{
    Asker, Block, Done, Fault, Listing, Memory, Report, end_refusals, play_asked, word, words_of,
};
use qm_postings::{RowsError, SegmentReader, TermRow, TermRowRef};
use qm_schema::{Field, QueryError, Schema};
use std::alloc::{AllocError, Global};

/// Rows and columns of length ids, and the segment that was made of them last.
#[derive(Drop)]
struct StoredMaker<'s> {
    schema: &'s Schema,
    block_len: u32,
    max_doc: u32,
    lengths: Vec<Vec<u8>>,
    rows: Vec<TermRow>,
    made: Option<SegmentReader>,
}

/// Plays a block `stored N MAX_DOC`: the segment that its rows make is the given one behind it.
pub fn play_stored(
    alloc: Global,
    bench: &mut Bench,
    block: Block<'_>,
    report: &mut Report,
) -> Done {
    let mut maker = StoredMaker {
        schema: &bench.schema,
        block_len: read_number(word(block.words, 1))?,
        max_doc: read_number(word(block.words, 2))?,
        lengths: empty_columns(alloc, bench.schema.field_count())?,
        rows: Vec::new(alloc),
        made: None,
    };
    play_asked(alloc, &mut maker, block.rows, report)?;
    let StoredMaker { made, .. } = maker;
    if let Some(segment) = made {
        bench.alive = alive_of(alloc, &segment)?;
        bench.segment = segment;
    }
    Ok(())
}

fn empty_columns(alloc: Global, count: u32) -> Result<Vec<Vec<u8>>, AllocError> {
    let mut columns = Vec::new(alloc);
    // there are as many empty columns as there were turns
    for _ in 0..count {
        columns.push(Vec::new(alloc))?;
    }
    Ok(columns)
}

impl<'s> StoredMaker<'s> {
    // A column of length ids: `FIELD NUMBERS`, or `more` for one that no field has.
    fn set_column(&mut self, alloc: Global, spelled: &str) -> Done {
        let (name, numbers) = cut(spelled);
        let mut ids = Vec::new(alloc);
        // the numbers before this one are there, as length ids
        for number in read_numbers(alloc, numbers)? {
            let Ok(id) = u8::try_from(number) else {
                return Err(Fault::NotUnderstood);
            };
            ids.push(id)?;
        }
        if name == "more" {
            return Ok(self.lengths.push(ids)?);
        }
        let field = read_field(self.schema, name)?;
        match self.lengths.get_mut(field.field_id() as usize) {
            Some(column) => *column = ids,
            None => return Err(Fault::NotUnderstood),
        }
        Ok(())
    }

    // A row: `FIELD W DOCUMENTS FREQUENCIES POSITIONS`, of each none where `-` stands.
    fn add_row(&mut self, alloc: Global, spelled: &str) -> Done {
        let words = words_of(alloc, spelled)?;
        let field = read_field(self.schema, word(&words, 0))?;
        self.rows.push(TermRow {
            term: read_term(alloc, field, word(&words, 1))?,
            documents: read_column(alloc, word(&words, 2))?,
            frequencies: read_column(alloc, word(&words, 3))?,
            positions: read_column(alloc, word(&words, 4))?,
        })?;
        Ok(())
    }

    // Makes a segment of copies of the rows.
    fn make(&mut self, alloc: Global, memory: Memory, text: &mut Listing) -> Done {
        let mut rows = Vec::new(alloc);
        // the rows before this one are copied
        for row in &self.rows {
            rows.push(copy_row(alloc, row)?)?;
        }
        let lengths = copy_columns(alloc, &self.lengths)?;
        memory.begin(alloc);
        let made = SegmentReader::from_rows(
            alloc,
            self.schema,
            self.block_len,
            self.max_doc,
            lengths,
            rows,
        );
        end_refusals(alloc);
        self.made = tell(made, text)?;
        Ok(())
    }
}

impl<'s> Asker for StoredMaker<'s> {
    fn ask(&mut self, alloc: Global, call: &str, memory: Memory, text: &mut Listing) -> Done {
        let (name, rest) = cut(call);
        match name {
            "column" => self.set_column(alloc, rest),
            "row" => self.add_row(alloc, rest),
            "no_rows" => {
                self.rows.clear();
                Ok(())
            }
            "make" => self.make(alloc, memory, text),
            _ => Err(Fault::NotUnderstood),
        }
    }
}

fn read_column(alloc: Global, spelled: &str) -> Result<Vec<u32>, Fault> {
    read_numbers(alloc, if spelled == "-" { "" } else { spelled })
}

fn copy_row(alloc: Global, row: &TermRow) -> Result<TermRow, Fault> {
    Ok(TermRow {
        term: row.term.clone(alloc)?,
        documents: copy_of(alloc, &row.documents)?,
        frequencies: copy_of(alloc, &row.frequencies)?,
        positions: copy_of(alloc, &row.positions)?,
    })
}

fn copy_of(alloc: Global, numbers: &[u32]) -> Result<Vec<u32>, AllocError> {
    let mut copy = Vec::with_capacity(alloc, numbers.len())?;
    copy.extend_from_slice(numbers)?;
    Ok(copy)
}

fn copy_columns(alloc: Global, columns: &[Vec<u8>]) -> Result<Vec<Vec<u8>>, AllocError> {
    let mut copies = Vec::with_capacity(alloc, columns.len())?;
    // the columns before this one are copied
    for column in columns {
        let mut copy = Vec::with_capacity(alloc, column.len())?;
        copy.extend_from_slice(column)?;
        copies.push(copy)?;
    }
    Ok(copies)
}

// Writes whether rows made a segment, and gives that.
fn tell(
    made: Result<SegmentReader, RowsError>,
    text: &mut Listing,
) -> Result<Option<SegmentReader>, Fault> {
    match made {
        Ok(segment) => {
            text.word("made");
            Ok(Some(segment))
        }
        Err(RowsError::NotRows) => {
            text.word("not rows");
            Ok(None)
        }
        Err(RowsError::Memory) => Err(Fault::Refused(QueryError::Memory)),
    }
}

/// Rows on a segment's rows: `rows`, `columns FIELD`, `shape`, `copies`, `pieces`, `again` and `built`.
pub fn ask_rows(
    alloc: Global,
    bench: &mut Bench,
    words: &[&str],
    memory: Memory,
    text: &mut Listing,
) -> Done {
    match word(words, 0) {
        "rows" => write_rows(alloc, &bench.segment, memory, text),
        "columns" => {
            let field = read_field(&bench.schema, word(words, 1))?;
            write_column(alloc, &bench.segment, field, memory, text)
        }
        "shape" => write_shape(alloc, &bench.segment, memory, text),
        "pieces" => Ok(write!(text, "{}", pieces(alloc, &bench.segment, memory)?)),
        "built" => make_built(alloc, bench, memory, text),
        "copies" => Ok(write!(text, "{}", copies(alloc, &bench.segment, memory)?.len())),
        _ => make_again(alloc, bench, memory, text),
    }
}

// All rows: the field's number, the term's bytes, the documents, the frequencies and the positions of each.
fn write_rows(alloc: Global, segment: &SegmentReader, memory: Memory, text: &mut Listing) -> Done {
    // the rows at the places before this one are written
    for place in 0..segment.row_count() {
        memory.begin(alloc);
        let row = segment.row(place);
        end_refusals(alloc);
        text.space();
        write_row(alloc, row, text)?;
    }
    Ok(())
}

fn write_row(alloc: Global, row: TermRowRef<'_>, text: &mut Listing) -> Done {
    write!(text, "{}:", row.term().field().field_id());
    write_bytes(row.term().serialized_value_bytes(), text);
    text.word(":");
    write_joined(row.documents(), text);
    text.word(":");
    write_joined(row.copy(alloc)?.frequencies.as_slice(), text);
    text.word(":");
    Ok(write_joined(row.positions(), text))
}

// The length ids of a field.
fn write_column(
    alloc: Global,
    segment: &SegmentReader,
    field: Field,
    memory: Memory,
    text: &mut Listing,
) -> Done {
    memory.begin(alloc);
    let ids = segment.length_ids(field);
    end_refusals(alloc);
    // the length ids before this one are written
    for id in ids {
        text.add(id);
    }
    Ok(())
}

// The length of a block, and how many fields there are.
fn write_shape(alloc: Global, segment: &SegmentReader, memory: Memory, text: &mut Listing) -> Done {
    memory.begin(alloc);
    let (block_len, fields) = (segment.block_len(), segment.schema().field_count());
    end_refusals(alloc);
    Ok(write!(text, "{block_len} {fields}"))
}

// Copies of all rows. Where requests for memory are refused, they are those of these copies.
fn copies(alloc: Global, segment: &SegmentReader, memory: Memory) -> Result<Vec<TermRow>, Fault> {
    let mut rows = Vec::with_capacity(alloc, segment.row_count())?;
    memory.begin(alloc);
    let copied = push_copies(alloc, segment, &mut rows);
    end_refusals(alloc);
    copied?;
    Ok(rows)
}

fn push_copies(
    alloc: Global,
    segment: &SegmentReader,
    rows: &mut Vec<TermRow>,
) -> Result<(), QueryError> {
    // the rows at the places before this one are copied
    for place in 0..segment.row_count() {
        rows.push(segment.row(place).copy(alloc)?)?;
    }
    Ok(())
}

// The segment made anew of copies of its rows and columns: it stands for the given one from then on.
fn make_again(alloc: Global, bench: &mut Bench, memory: Memory, text: &mut Listing) -> Done {
    let rows = copies(alloc, &bench.segment, Memory::Ample)?;
    let lengths = all_columns(alloc, &bench.segment)?;
    memory.begin(alloc);
    let made = SegmentReader::from_rows(
        alloc,
        bench.segment.schema(),
        bench.segment.block_len(),
        bench.segment.max_doc(),
        lengths,
        rows,
    );
    end_refusals(alloc);
    set_made(alloc, bench, made, text)
}

// The same, of rows that are put together posting by posting.
fn make_built(alloc: Global, bench: &mut Bench, memory: Memory, text: &mut Listing) -> Done {
    let lengths = all_columns(alloc, &bench.segment)?;
    memory.begin(alloc);
    let made = built_again(alloc, &bench.segment, lengths);
    end_refusals(alloc);
    set_made(alloc, bench, made, text)
}

// Tells whether rows made a segment, which stands for the given one from then on.
fn set_made(
    alloc: Global,
    bench: &mut Bench,
    made: Result<SegmentReader, RowsError>,
    text: &mut Listing,
) -> Done {
    if let Some(segment) = tell(made, text)? {
        bench.alive = alive_of(alloc, &segment)?;
        bench.segment = segment;
    }
    Ok(())
}

// How many postings all rows have, each put together anew. Where requests for memory are refused, they are those of these.
fn pieces(alloc: Global, segment: &SegmentReader, memory: Memory) -> Result<usize, Fault> {
    let mut count: usize = 0;
    // the rows at the places before this one are put together anew, and have `count` postings
    for place in 0..segment.row_count() {
        memory.begin(alloc);
        let row = row_again(alloc, &segment.row(place));
        end_refusals(alloc);
        count = count.saturating_add(row?.frequencies.len());
    }
    Ok(count)
}

fn all_columns(alloc: Global, segment: &SegmentReader) -> Result<Vec<Vec<u8>>, AllocError> {
    let mut columns = Vec::new(alloc);
    // the columns of the fields before this one are copied
    for field in 0..segment.schema().field_count() {
        let ids = segment.length_ids(Field::from_field_id(field));
        let mut column = Vec::with_capacity(alloc, ids.len())?;
        column.extend_from_slice(ids)?;
        columns.push(column)?;
    }
    Ok(columns)
}
