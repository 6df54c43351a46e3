//! The making of the index.

use crate::files::{Contents, Source, Text, read_text};
use crate::index::{Fields, Index, Tally, schema};
use crate::left_out::LeftOut;
use crate::lengths::length_id;
use crate::reading::Reading;
use crate::walk::{Found, find_files, own_name};
use birch_text::{
    Accents, FIELD_END, Form, Passages, Place, Row, WordReader, add_named_words, add_passages,
    column_in,
};
use qm_postings::{PlainDoc, SegmentBuilder, SegmentReader};
use qm_schema::{QueryError, Schema};
use qm_store::DocumentPlace;
use std::alloc::{AllocError, Global};
use std::mem;

/// How many bytes of words a segment takes in at most and, where as many are to come, at least.
const MOST_BYTES: usize = 128 << 20;

const LEAST_BYTES: usize = 3 << 19;

/// How many postings stand in a block that a search passes over as one.
pub const BLOCK_LEN: u32 = 128;

// A document whose words are cut.
#[derive(Clone, Copy)]
struct Cut {
    place: DocumentPlace,
    // the first byte of its words, among the words of all
    first: usize,
    // how many bytes these have
    len: usize,
    // the first byte of those that have a field's name before them, and how many bytes these have
    first_named: usize,
    named_len: usize,
    // how many words it has
    count: u32,
}

/// Takes in documents, and makes a segment of those that have come whenever they are many.
#[derive(Drop)]
pub struct Indexer {
    alloc: Global,
    schema: Schema,
    fields: Fields,
    files: Vec<Source>,
    // the words of the documents that aren't in a segment yet, folded, each with a space behind it
    words: String,
    // the same of those that have a field's name before them
    named: String,
    reader: WordReader,
    cuts: Vec<Cut>,
    // how many bytes of files are still to come
    left: u64,
    // how many bytes of words make a segment
    segment_bytes: usize,
    segments: Vec<SegmentReader>,
    places: Vec<Vec<DocumentPlace>>,
    tally: Tally,
    // how many rows of a file were left out, and the line of the first
    left_out: u32,
    first_left_out: u32,
    // what came of the documents so far: once one was refused, none is taken in any more
    taken: Result<(), QueryError>,
}

impl Passages for Indexer {
    fn add(&mut self, text: &str, place: Place) {
        if self.taken.is_ok() {
            self.taken = self.take(text, place);
        }
    }

    fn add_row(&mut self, row: &Row, place: Place) {
        if self.taken.is_ok() {
            self.taken = self.take_row(row, place);
        }
    }

    fn leave_out(&mut self, line: u32) {
        if self.left_out == 0 {
            self.first_left_out = line;
        }
        self.left_out = self.left_out.saturating_add(1);
    }
}

impl Indexer {
    /// With no document yet; accents count in its words or don't.
    pub fn new(alloc: Global, accents: Accents) -> Result<Indexer, QueryError> {
        let (schema, fields) = schema(alloc)?;
        Ok(Indexer {
            alloc,
            schema,
            fields,
            files: Vec::new(alloc),
            words: String::new(alloc),
            named: String::new(alloc),
            reader: WordReader::new(alloc, accents),
            cuts: Vec::new(alloc),
            left: 0,
            segment_bytes: MOST_BYTES,
            segments: Vec::new(alloc),
            places: Vec::new(alloc),
            tally: Tally {
                documents: 0,
                words: 0,
                bytes: 0,
            },
            left_out: 0,
            first_left_out: 0,
            taken: Ok(()),
        })
    }

    /// Hears how many bytes of files are still to come.
    pub fn expect_bytes(&mut self, left: u64) {
        self.left = left;
        if self.words.is_empty() {
            self.begin_segment();
        }
    }

    // Where the words of the next document begin, and those with a field's name.
    fn start(&self) -> (usize, usize) {
        (self.words.len(), self.named.len())
    }

    // Takes in a document.
    fn take(&mut self, text: &str, place: Place) -> Result<(), QueryError> {
        let start = self.start();
        let count = self.reader.add_words(&mut self.words, text)?;
        self.add_cut(place, start, count)
    }

    // Takes in a document of several fields.
    fn take_row(&mut self, row: &Row, place: Place) -> Result<(), QueryError> {
        let start = self.start();
        let mut count: u32 = 0;
        // the fields before this one are added, with so many words
        for field in &row.fields {
            let text = row.text.get(field.start..field.end).unwrap_or("");
            count = count.saturating_add(self.add_field(field.name.as_str(), text)?);
        }
        self.add_cut(place, start, count)
    }

    // Adds the words of a field, where it has some, and answers how many.
    fn add_field(&mut self, name: &str, text: &str) -> Result<u32, AllocError> {
        let first = self.words.len();
        let count = self.reader.add_words(&mut self.words, text)?;
        if count > 0 {
            let words = self.words.get(first..).unwrap_or("");
            add_named_words(&mut self.named, name, words)?;
            self.words.push_str(FIELD_END)?;
        }
        Ok(count)
    }

    // Adds a document of so many words, which begin there, where it has some.
    fn add_cut(
        &mut self,
        place: Place,
        start: (usize, usize),
        count: u32,
    ) -> Result<(), QueryError> {
        if count == 0 {
            return Ok(());
        }
        let place = self.document_place(place);
        let (first, first_named) = start;
        self.cuts.push(Cut {
            place,
            first,
            len: self.words.len().saturating_sub(first),
            first_named,
            named_len: self.named.len().saturating_sub(first_named),
            count,
        })?;
        self.tally.documents = self.tally.documents.saturating_add(1);
        self.tally.words = self.tally.words.saturating_add(u64::from(count));
        if self.words.len().saturating_add(self.named.len()) >= self.segment_bytes {
            return self.end_segment();
        }
        Ok(())
    }

    // A segment takes in half of what is left, so that the making of the last ones, beside all that stands,
    // takes little room; and the first a little less, so that its own takes no more than all in the end.
    fn begin_segment(&mut self) {
        let part = if self.segments.is_empty() {
            self.left / 20 * 9
        } else {
            self.left / 2
        };
        let part = usize::try_from(part).unwrap_or(MOST_BYTES);
        self.segment_bytes = part.clamp(LEAST_BYTES, MOST_BYTES);
    }

    // Where a document of the last file stands.
    fn document_place(&self, place: Place) -> DocumentPlace {
        let file = self.files.len().saturating_sub(1);
        DocumentPlace {
            file: u32::try_from(file).unwrap_or(u32::MAX),
            line: place.line,
            first_byte: u32::try_from(place.start).unwrap_or(u32::MAX),
            byte_count: u32::try_from(place.len).unwrap_or(u32::MAX),
        }
    }

    /// Takes in the text of a file. What couldn't be taken is noted.
    pub fn add_file(
        &mut self,
        rt: &HostRuntime,
        reading: &Reading<'_>,
        path: String,
        text: Text,
    ) -> Result<Gain, QueryError> {
        let alloc = self.alloc;
        let Text {
            text,
            is_converted,
            stamp,
        } = text;
        let Some(column) = column_of(alloc, reading.form, text.as_str())? else {
            return Ok(left_out(rt, reading, path.as_str(), LeftOut::NoColumn));
        };
        let before = self.tally;
        self.tally.bytes = self.tally.bytes.saturating_add(text.len() as u64);
        let mut name_words = String::new(alloc);
        self.reader
            .add_words(&mut name_words, own_name(path.as_str()))?;
        self.files.push(Source {
            path,
            name_words,
            kept: None,
            column,
            is_converted,
            stamp,
        })?;
        self.left_out = 0;
        add_passages(alloc, reading.form, column, text.as_str(), self)?;
        self.taken?;
        let left_out = self.note_left_out(rt, reading);
        if stamp.is_none() {
            self.keep(text);
        }
        Ok(Gain {
            is_taken: true,
            documents: self.tally.documents.saturating_sub(before.documents),
            words: self.tally.words.saturating_sub(before.words),
            column,
            is_converted,
            left_out,
        })
    }

    // Keeps the text of the last file.
    fn keep(&mut self, text: String) {
        if let Some(file) = self.files.last_mut() {
            file.kept = Some(text);
        }
    }

    // Notes which rows of the last file are no documents.
    fn note_left_out(&self, rt: &HostRuntime, reading: &Reading<'_>) -> Option<LeftOut> {
        if self.left_out == 0 {
            return None;
        }
        let rows = LeftOut::Rows {
            line: self.first_left_out,
            count: self.left_out,
        };
        if let Some(file) = self.files.last() {
            reading.notes.add(rt, file.path.as_str(), rows);
        }
        Some(rows)
    }

    // Makes a segment of the documents that have come, the shortest first, so that a search passes over
    // most of them.
    fn end_segment(&mut self) -> Result<(), QueryError> {
        if self.cuts.is_empty() {
            return Ok(());
        }
        self.cuts.sort_by_key(|cut| cut.count)?;
        let words = mem::replace(&mut self.words, String::new(self.alloc));
        let named = mem::replace(&mut self.named, String::new(self.alloc));
        let cuts = mem::replace(&mut self.cuts, Vec::new(self.alloc));
        let (segment, places) = self.build_segment(words, named, cuts)?;
        self.segments.push(segment)?;
        self.places.push(places)?;
        self.begin_segment();
        Ok(())
    }

    // The segment of the documents with these words, and where each stands.
    fn build_segment(
        &self,
        words: String,
        named: String,
        cuts: Vec<Cut>,
    ) -> Result<(SegmentReader, Vec<DocumentPlace>), QueryError> {
        let mut builder = SegmentBuilder::new(self.alloc, &self.schema, BLOCK_LEN)?;
        let mut places = Vec::with_capacity(self.alloc, cuts.len())?;
        // the documents before this one are in the segment, and their places beside it
        for cut in &cuts {
            builder.add_document(self.document(words.as_str(), named.as_str(), cut)?)?;
            places.push(cut.place)?;
        }
        // the building takes most room of all
        drop(words);
        drop(named);
        drop(cuts);
        Ok((builder.build(self.alloc)?, places))
    }

    // A document with its words, those of its fields, and those of its file's name.
    fn document(&self, words: &str, named: &str, cut: &Cut) -> Result<PlainDoc, QueryError> {
        let mut document = PlainDoc::new(self.alloc);
        let end = cut.first.saturating_add(cut.len);
        let own = words.get(cut.first..end).unwrap_or("");
        document.add_text(self.fields.text, own)?;
        document.set_length(self.fields.text, length_id(cut.count))?;
        if cut.named_len > 0 {
            let end = cut.first_named.saturating_add(cut.named_len);
            let own = named.get(cut.first_named..end).unwrap_or("");
            document.add_text(self.fields.named, own)?;
            document.set_length(self.fields.named, length_id(cut.count))?;
        }
        if let Some(file) = self.files.get(cut.place.file as usize) {
            document.add_text(self.fields.name, file.name_words.as_str())?;
        }
        Ok(document)
    }

    /// What was read.
    pub fn finish(self) -> Result<Readings, QueryError> {
        let mut indexer = self;
        indexer.end_segment()?;
        let Indexer {
            files,
            segments,
            places,
            tally,
            ..
        } = indexer;
        Ok(Readings {
            segments,
            places,
            files,
            tally,
        })
    }
}

/// What a file gave when it was read.
#[derive(Clone, Copy)]
pub struct Gain {
    /// Whether it was taken in, and not left out.
    pub is_taken: bool,
    /// How many documents.
    pub documents: u64,
    /// How many words these have.
    pub words: u64,
    /// Which column of a table was read.
    pub column: usize,
    /// Whether its text is its bytes written in another way.
    pub is_converted: bool,
    /// Why it, or some of its rows, were left out.
    pub left_out: Option<LeftOut>,
}

/// What was read of files.
#[derive(Drop)]
pub struct Readings {
    /// The segments of their documents.
    pub segments: Vec<SegmentReader>,
    /// Where the documents of each segment stand.
    pub places: Vec<Vec<DocumentPlace>>,
    /// The files that were taken in.
    pub files: Vec<Source>,
    /// How much was read.
    pub tally: Tally,
}

impl Readings {
    /// The index of what was read.
    pub fn into_index(self, alloc: Global) -> Result<Index, QueryError> {
        let Readings {
            segments,
            places,
            files,
            tally,
        } = self;
        Index::new(alloc, segments, places, files, tally)
    }
}

// Which column of a table is read, and of another file the first; none where its first row has no such column.
fn column_of(alloc: Global, form: Form<'_>, text: &str) -> Result<Option<usize>, AllocError> {
    match form {
        Form::Csv(name) => column_in(alloc, text, name),
        _ => Ok(Some(0)),
    }
}

// What a file gives that is left out, which is noted.
fn left_out(rt: &HostRuntime, reading: &Reading<'_>, path: &str, why: LeftOut) -> Gain {
    reading.notes.add(rt, path, why);
    Gain {
        is_taken: false,
        documents: 0,
        words: 0,
        column: 0,
        is_converted: false,
        left_out: Some(why),
    }
}

/// Reads all files of the paths.
pub fn read_all(rt: &HostRuntime, reading: &Reading<'_>) -> Result<Index, QueryError> {
    let files = find_files(rt, reading, &reading.paths)?;
    let mut indexer = Indexer::new(rt.alloc(), reading.accents)?;
    read_files(rt, reading, &mut indexer, files)?;
    indexer.finish()?.into_index(rt.alloc())
}

/// Takes in these files, and gives what each of them gave; none where it can't be read, which is noted.
pub fn read_files(
    rt: &HostRuntime,
    reading: &Reading<'_>,
    indexer: &mut Indexer,
    files: Vec<Found>,
) -> Result<Vec<Option<Gain>>, QueryError> {
    let mut gains = Vec::with_capacity(rt.alloc(), files.len())?;
    let mut left: u64 = files
        .iter()
        .fold(0, |sum, file| file.stamp.size.saturating_add(sum));
    let mut told: u64 = 0;
    // the files before this one are read, and `left` bytes are of this one and those behind it
    for file in files {
        indexer.expect_bytes(left);
        left = left.saturating_sub(file.stamp.size);
        gains.push(read_file(rt, reading, indexer, file)?)?;
        if reading.has_progress {
            told = tell(rt, indexer, told, left);
        }
    }
    Ok(gains)
}

// Takes in one file.
fn read_file(
    rt: &HostRuntime,
    reading: &Reading<'_>,
    indexer: &mut Indexer,
    file: Found,
) -> Result<Option<Gain>, QueryError> {
    let gain = match read_text(rt, reading, file.path.as_str())? {
        Contents::Text(text) => indexer.add_file(rt, reading, file.path, text)?,
        Contents::LeftOut(why) => left_out(rt, reading, file.path.as_str(), why),
        Contents::Unread => return Ok(None),
    };
    Ok(Some(gain))
}

// Tells how far the reading is, at each further ten megabytes.
fn tell(rt: &HostRuntime, indexer: &Indexer, told: u64, left: u64) -> u64 {
    let megabytes = indexer.tally.bytes / 1_000_000;
    if megabytes < told.saturating_add(10) {
        return told;
    }
    let documents = indexer.tally.documents;
    let to_come = left / 1_000_000;
    let _ = eprintln!(rt; "birch: {megabytes} MB read, {documents} documents, {to_come} MB left");
    megabytes
}
