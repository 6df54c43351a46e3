//! A segment of rows that are known to make one.

ghost use Rattle.std.specs.Prelude.{◌≡◌, IfOk, IsOkUnless, map};
ghost use Rattle.qm_postings.specs.Reading.{reader_of_rows};
ghost use Rattle.qm_postings.specs.Rows.{MakeSegment};

use qm_docset::DocId;
use qm_postings::{RowsError, SegmentReader, TermRow};
use qm_schema::{QueryError, Schema};
use std::alloc::Global;

// The segment of these rows and columns.
pub(crate) fn made_of_rows(
    alloc: Global,
    schema: &Schema,
    block_len: u32,
    max_doc: DocId,
    lengths: Vec<Vec<u8>>,
    rows: Vec<TermRow>,
) -> Result<SegmentReader, QueryError>
    requires { MakeSegment schema.now block_len max_doc (map (λ c. c.items) lengths.items) rows.items }
    ensures reader { IfOk result (λ it. it ≡ reader_of_rows schema.now block_len rows.items (map (λ c. c.items) lengths.items) max_doc) }
    ensures refused { IsOkUnless result QueryError.Memory }
{
    match SegmentReader::from_rows(alloc, schema, block_len, max_doc, lengths, rows) {
        Ok(segment) => Ok(segment),
        Err(RowsError::Memory) => Err(QueryError::Memory),
        // they make one
        Err(RowsError::NotRows) => unreachable!(),
    }
}
