//! What blocks stand on.

use crate::bench::Bench;
use crate::kept::make_schema;
use crate::maker::Maker;
use crate::spelled::{cut, read_number};
use cases::{Block, Fault, Memory, Report, Row, play_asked};
use qm_docset::{AliveBitSet, BitSet, DocId};
use qm_postings::{PlainDoc, SegmentBuilder, SegmentReader};
use qm_schema::Schema;
use std::alloc::{AllocError, Global};

const BLOCK_LEN: u32 = 2;

/// Makes what the rows of a block `given` say. Where requests for memory are refused, they are those of
/// the call that makes the segment of its documents; the rows are played once none is.
pub fn make_given(alloc: Global, block: Block<'_>, report: &mut Report) -> Result<Bench, Fault> {
    if block.memory != Memory::Ample {
        let mut unseen = Report::new(alloc);
        make(alloc, block.rows, block.memory, &mut unseen)?;
    }
    make(alloc, block.rows, Memory::Ample, report)
}

fn make(
    alloc: Global,
    rows: &[Row<'_>],
    memory: Memory,
    report: &mut Report,
) -> Result<Bench, Fault> {
    let schema = make_schema(alloc, rows)?;
    let segment = make_segment(alloc, &schema, rows, memory, report)?;
    let alive = alive_of(alloc, &segment)?;
    Ok(Bench {
        schema,
        segment,
        alive,
    })
}

fn make_segment(
    alloc: Global,
    schema: &Schema,
    rows: &[Row<'_>],
    memory: Memory,
    report: &mut Report,
) -> Result<SegmentReader, Fault> {
    let mut maker = Maker::new(alloc, schema, block_len(rows)?, Memory::Ample)?;
    play_asked(alloc, &mut maker, rows, report)?;
    maker.finish(alloc, memory)
}

// The length of a block, by the row `blocks N`.
fn block_len(rows: &[Row<'_>]) -> Result<u32, Fault> {
    // no row before this one says how long a block is
    for row in rows {
        let (name, rest) = cut(row.call);
        if name == "blocks" {
            return read_number(rest);
        }
    }
    Ok(BLOCK_LEN)
}

/// The documents of a segment that are alive.
pub fn alive_of(alloc: Global, segment: &SegmentReader) -> Result<AliveBitSet, AllocError> {
    let max_doc = segment.max_doc();
    let mut set = BitSet::with_max_value(alloc, max_doc)?;
    // the set has room for all documents
    for doc in 0..max_doc {
        if is_alive(segment, doc) {
            set.insert(doc);
        }
    }
    Ok(AliveBitSet::from(set))
}

/// Whether a document is in a segment and not deleted.
pub fn is_alive(segment: &SegmentReader, doc: DocId) -> bool {
    match segment.alive_bitset() {
        Some(alive) => alive.is_alive(doc),
        None => doc < segment.max_doc(),
    }
}

/// A segment of so many documents that hold nothing.
pub fn empty_documents(alloc: Global, schema: &Schema, count: u32) -> Result<SegmentReader, Fault> {
    let mut builder = SegmentBuilder::new(alloc, schema, BLOCK_LEN)?;
    // as many documents that hold nothing are added as there were turns
    for _ in 0..count {
        builder.add_document(PlainDoc::new(alloc))?;
    }
    Ok(builder.build(alloc)?)
}
