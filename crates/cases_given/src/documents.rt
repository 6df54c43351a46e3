//! The documents of `given`.

ghost use Rattle.std.specs.Prelude.{◌<◌, IfOk, length};

use crate::given::{first_word, row_of};
use crate::terms::read_field;
use crate::weight_calls::read_number;
use cases::{Done, Fault, Listing, Report, Row, behind, number, word, words_of};
use qm_docset::DocId;
use qm_postings::{PlainDoc, SegmentBuilder, SegmentReader};
use qm_schema::{Field, Schema};
use std::alloc::Global;

// how many postings a block has where nothing else is said
const BLOCK_LEN: u32 = 2;

/// The segments of rows, of which a row `segment` ends one; the last is the open one.
pub fn read_segments(
    alloc: Global,
    schema: &Schema,
    rows: &[Row<'_>],
    report: &mut Report,
) -> Result<Vec<SegmentReader>, Fault> {
    let block_len = read_block_len(alloc, rows)?;
    let mut segments = Vec::new(alloc);
    // the segments of the parts before this one are there
    for part in rows.split(|row| row.call == "segment") {
        segments.push(read_segment(alloc, schema, block_len, part, report)?)?;
    }
    Ok(segments)
}

fn read_block_len(alloc: Global, rows: &[Row<'_>]) -> Result<u32, Fault> {
    let words = row_of(alloc, rows, "blocks")?;
    if words.is_empty() {
        return Ok(BLOCK_LEN);
    }
    number(&words, 1).ok_or(Fault::NotUnderstood)
}

fn read_segment(
    alloc: Global,
    schema: &Schema,
    block_len: u32,
    rows: &[Row<'_>],
    report: &mut Report,
) -> Result<SegmentReader, Fault> {
    let mut segment = SegmentBuilder::new(alloc, schema, block_len)?;
    fill_segment(alloc, schema, &mut segment, rows)?;
    let segment = segment.build(alloc)?;
    check_deletions(alloc, segment.max_doc(), rows, report)?;
    Ok(segment)
}

// Adds the documents of rows.
fn fill_segment(
    alloc: Global,
    schema: &Schema,
    segment: &mut SegmentBuilder,
    rows: &[Row<'_>],
) -> Done {
    // the segment has the documents of the rows before this one
    for row in rows {
        match first_word(row.call) {
            "doc" => add_row(alloc, schema, segment, row, rows)?,
            "docs" => add_documents(alloc, segment, row, rows)?,
            _ => {}
        }
    }
    Ok(())
}

// Adds the document of `doc WORDS`.
fn add_row(
    alloc: Global,
    schema: &Schema,
    segment: &mut SegmentBuilder,
    row: &Row<'_>,
    rows: &[Row<'_>],
) -> Done {
    let words = words_of(alloc, row.call)?;
    let document = read_document(alloc, schema, behind(&words, 1))?;
    add_document(alloc, segment, document, rows)
}

// Reports rows `delete N` of documents that there are not.
fn check_deletions(alloc: Global, max_doc: DocId, rows: &[Row<'_>], report: &mut Report) -> Done {
    // the rows before this one that delete a document that is not there are reported
    for row in rows {
        if first_word(row.call) == "delete" {
            let words = words_of(alloc, row.call)?;
            let is_there = match number(&words, 1) {
                Some(doc) => doc < max_doc,
                None => false,
            };
            if !is_there {
                report.wrong(row.line, "no such document");
            }
        }
    }
    Ok(())
}

// Adds a document, which is deleted where a row says so.
fn add_document(
    alloc: Global,
    segment: &mut SegmentBuilder,
    document: PlainDoc,
    rows: &[Row<'_>],
) -> Done {
    let doc = put_document(segment, document)?;
    if is_deleted(alloc, doc, rows)? {
        segment.delete(doc)?;
    }
    Ok(())
}

fn put_document(segment: &mut SegmentBuilder, document: PlainDoc) -> Result<DocId, Fault>
    ensures { IfOk result (λ doc. doc < length segment.new.documents) }
{
    Ok(segment.add_document(document)?)
}

fn is_deleted(alloc: Global, doc: DocId, rows: &[Row<'_>]) -> Result<bool, Fault> {
    let name = format!(in alloc; "delete {doc}")?;
    // no row before this one deletes the document
    for row in rows {
        if row.call == name.as_str() {
            return Ok(true);
        }
    }
    Ok(false)
}

// The document of `WORDS`, or of `NAME: WORDS ; NAME: WORDS`.
fn read_document(alloc: Global, schema: &Schema, words: &[&str]) -> Result<PlainDoc, Fault> {
    if !word(words, 0).ends_with(':') {
        return read_text(alloc, Field::from_field_id(0), words);
    }
    let mut document = PlainDoc::new(alloc);
    add_texts(alloc, schema, &mut document, words)?;
    Ok(document)
}

// The document of one text.
fn read_text(alloc: Global, field: Field, words: &[&str]) -> Result<PlainDoc, Fault> {
    let mut document = PlainDoc::new(alloc);
    add_text(alloc, &mut document, field, words)?;
    Ok(document)
}

// Adds the texts of `NAME: WORDS ; NAME: WORDS`.
fn add_texts(alloc: Global, schema: &Schema, document: &mut PlainDoc, words: &[&str]) -> Done {
    // the document has the texts of the parts before this one
    for part in words.split(|word| *word == ";") {
        let Some(name) = word(part, 0).strip_suffix(':') else {
            return Err(Fault::NotUnderstood);
        };
        let field = read_field(schema, name)?;
        add_text(alloc, document, field, behind(part, 1))?;
    }
    Ok(())
}

fn add_text(alloc: Global, document: &mut PlainDoc, field: Field, words: &[&str]) -> Done {
    let mut text = Listing::new(alloc);
    // the text has the words before this one, with a space behind each
    for word in words {
        write!(text, "{word} ");
    }
    Ok(document.add_text(field, text.into_string()?.as_str())?)
}

// Adds the documents of `docs N WORDS`, where a word `W/K` stands in those alone whose number is a
// multiple of K.
fn add_documents(
    alloc: Global,
    segment: &mut SegmentBuilder,
    row: &Row<'_>,
    rows: &[Row<'_>],
) -> Done {
    let words = words_of(alloc, row.call)?;
    let Some(count) = number(&words, 1) else {
        return Err(Fault::NotUnderstood);
    };
    // the documents of the numbers before this one are in the segment
    for doc in 0..count {
        let document = document_at(alloc, behind(&words, 2), doc)?;
        add_document(alloc, segment, document, rows)?;
    }
    Ok(())
}

// The document of this number, of words some of which stand in few documents.
fn document_at(alloc: Global, words: &[&str], doc: DocId) -> Result<PlainDoc, Fault> {
    let chosen = words_at(alloc, words, doc)?;
    read_text(alloc, Field::from_field_id(0), chosen.as_slice())
}

fn words_at<'a>(alloc: Global, words: &[&'a str], doc: DocId) -> Result<Vec<&'a str>, Fault> {
    let mut chosen = Vec::new(alloc);
    // of the words before this one those that stand in the document are chosen
    for word in words {
        match word.split_once('/') {
            None => chosen.push(*word)?,
            Some((text, step)) => {
                if doc.checked_rem(read_number(step)?) == Some(0) {
                    chosen.push(text)?;
                }
            }
        }
    }
    Ok(chosen)
}
