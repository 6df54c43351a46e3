//! The texts that are given, and what is made of them.

use crate::stopped::Stopped;
use qm_postings::{PlainDoc, SegmentBuilder, SegmentReader};
use qm_schema::{Field, IndexRecordOption, QueryError, Schema};
use std::alloc::Global;

/// How many postings a block has.
pub const BLOCK_LEN: u32 = 128;

/// The one field that a document has.
pub const BODY: u32 = 0;

/// What of a posting a segment keeps.
pub const KEPT: IndexRecordOption = IndexRecordOption::WithFreqsAndPositions;

/// The fields: one that keeps lengths, and so much of its postings.
pub fn schema(alloc: Global, kept: IndexRecordOption) -> Result<Schema, QueryError> {
    let mut schema = Schema::builder(alloc);
    schema.add_text_field("body", Some(kept), true)?;
    Ok(schema.build())
}

/// The norm of each length id: a document is as long as it has words.
pub fn norms() -> [u32; 256] {
    let mut norms = [0; 256];
    // those before it are set
    for (id, norm) in norms.iter_mut().enumerate() {
        *norm = id as u32;
    }
    norms
}

/// The segment of a text, of which each line is a document.
pub fn segment_of(alloc: Global, text: &str) -> Result<SegmentReader, Stopped> {
    let mut builder = SegmentBuilder::new(alloc, &schema(alloc, KEPT)?, BLOCK_LEN)?;
    // the lines before it are added
    for line in text.lines() {
        add_line(alloc, &mut builder, line)?;
    }
    Ok(builder.build(alloc)?)
}

fn add_line(alloc: Global, builder: &mut SegmentBuilder, line: &str) -> Result<(), Stopped> {
    let mut document = PlainDoc::new(alloc);
    document.add_text(Field::from_field_id(BODY), line)?;
    builder.add_document(document)?;
    Ok(())
}
