//! The rows of a segment's terms, to be kept elsewhere, and a segment out of such rows.

ghost use Rattle.std.specs.Prelude.{◌≡◌, ◌↔◌, ◌+◌, ◌<◌, ◌≤◌, All, IfOk, IsErrOf, IsOkUnless, length, map, slice_index, slice_index_or, []};
ghost use Rattle.qm_postings.specs.LentRow.{lent_row};
ghost use Rattle.qm_postings.specs.Reading.{IsOfRows, reader_of_rows};
ghost use Rattle.qm_postings.specs.Rows.{MakeSegment, columns_of, no_row, row_in};
ghost use Rattle.qm_postings.specs.RowsSoFar.{IsLaid};

use crate::frequencies::{Frequencies, FrequencyPart};
use crate::rows_builder::RowsBuilder;
use crate::rows_builder::checks::make_segment;
use crate::segment_builder::term_blocks::column_of;
use crate::segment_reader::{SegmentReader, TermEntry};
use qm_docset::DocId;
use qm_schema::{Field, QueryError, Schema, Term};
use std::alloc::{AllocError, Global};
use std::marker::Model;
use thiserror::Error;

/// The postings of a term: the documents that hold it, ascending; how often it stands in each; and, where its
/// field keeps positions, those in each, end to end.
///
/// Contracts see these four.
#[derive(Debug, Drop)]
pub struct TermRow {
    /// The term.
    pub term: Term,
    /// The documents that hold it.
    pub documents: Vec<DocId>,
    /// How often it stands in each.
    pub frequencies: Vec<u32>,
    /// Where it stands in the first of them, then in the second, and so on.
    pub positions: Vec<u32>,
}

impl Model for TermRow {
    ghost use Rattle.qm_postings.specs.Rows.{Row, row_code};

    ghost Value = { Row };

    ghost coded = { row_code };

    ghost view = { λ r. record {
      term = r.term;
      documents = r.documents.items;
      frequencies = r.frequencies.items;
      positions = r.positions.items;
    } };
}

impl TermRow {
    // The row, lent.
    pub(crate) fn lent(&self) -> TermRowRef<'_>
        ensures { lent_row result ≡ self.now }
    {
        TermRowRef {
            term: &self.term,
            documents: &self.documents,
            frequencies: FrequencyPart {
                small: &[],
                large: &self.frequencies,
            },
            positions: &self.positions,
        }
    }
}

/// Why rows make no segment.
#[derive(Clone, Copy, Debug, PartialEq, Eq, Error)]
pub enum RowsError {
    /// They are not what a segment of these documents keeps.
    #[error("the rows are not those of a segment")]
    NotRows,
    /// There was no memory left for the segment.
    #[error("out of memory")]
    Memory,
}

impl From<AllocError> for RowsError {
    ghost use Rattle.qm_postings.specs.declared.term_row.RowsError.TheVariants.{Memory};

    ghost from_gives = { λ _ e. e ≡ Memory };

    fn from(_error: AllocError) -> RowsError {
        RowsError::Memory
    }
}

/// A row as a segment keeps it, lent by the segment. Copying it takes no memory.
#[derive(Clone, Copy, Debug)]
pub struct TermRowRef<'a> {
    pub(crate) term: &'a Term,
    pub(crate) documents: &'a [DocId],
    pub(crate) frequencies: FrequencyPart<'a>,
    pub(crate) positions: &'a [u32],
}

impl<'a> TermRowRef<'a> {
    /// The term.
    pub fn term(&self) -> &'a Term
        ensures { result.now ≡ (lent_row self.now).term }
    {
        self.term
    }

    /// The documents that hold it, ascending.
    pub fn documents(&self) -> &'a [DocId]
        ensures { result.now ≡ (lent_row self.now).documents }
    {
        self.documents
    }

    /// How often it stands in the document at a place. Constant time.
    pub fn frequency(&self, place: usize) -> u32
        requires { place < length (lent_row self.now).frequencies }
        ensures { result ≡ slice_index (lent_row self.now).frequencies place }
    {
        self.frequencies.at(place)
    }

    /// Its positions in all of them, end to end; none where its field keeps none.
    pub fn positions(&self) -> &'a [u32]
        ensures { result.now ≡ (lent_row self.now).positions }
    {
        self.positions
    }

    /// The same row in memory of its own.
    ///
    /// Refused with [`QueryError::Memory`] alone.
    pub fn copy(&self, alloc: Global) -> Result<TermRow, QueryError>
        ensures row { IfOk result (λ row. row ≡ lent_row self.now) }
        ensures refused { IsOkUnless result QueryError.Memory }
    {
        let mut documents = Vec::with_capacity(alloc, self.documents.len())?;
        documents.extend_from_slice(self.documents)?;
        let mut positions = Vec::with_capacity(alloc, self.positions.len())?;
        positions.extend_from_slice(self.positions)?;
        Ok(TermRow {
            term: self.term.clone(alloc)?,
            documents,
            frequencies: self.frequencies.copy(alloc)?,
            positions,
        })
    }
}

impl SegmentReader {
    /// The segment of these rows, of `max_doc` documents, none of them deleted, with a column of length ids for
    /// each field of the schema, of which it keeps a copy. Costs a step for each posting and each position, and
    /// for each term.
    ///
    /// Refused with [`RowsError::NotRows`] exactly where no segment keeps them: where `block_len` is not from 1
    /// to 128; there are more than [`TERMINATED`](qm_docset::TERMINATED) documents; a column has not one length id
    /// for each document where the field keeps lengths, or has one where it keeps none; terms do not ascend; or a
    /// row has no posting, is of a field that is not indexed, or has documents that do not ascend below `max_doc`,
    /// not a frequency above 0 for each, or not as many ascending positions as that for each where the field keeps
    /// them, or any where it doesn't. Else with [`RowsError::Memory`] alone. Rows that are put together by a
    /// [`RowsBuilder`](crate::RowsBuilder) are not copied.
    pub fn from_rows(
        alloc: Global,
        schema: &Schema,
        block_len: u32,
        max_doc: DocId,
        lengths: Vec<Vec<u8>>,
        rows: Vec<TermRow>,
    ) -> Result<SegmentReader, RowsError>
        ensures reader { IfOk result (λ it. it ≡ reader_of_rows schema.now block_len rows.items (map (λ c. c.items) lengths.items) max_doc) }
        ensures not_rows { IsErrOf result RowsError.NotRows ↔ ¬ MakeSegment schema.now block_len max_doc (map (λ c. c.items) lengths.items) rows.items }
    {
        if !make_segment(schema, block_len, max_doc, &lengths, &rows) {
            return Err(RowsError::NotRows);
        }
        match segment_of_rows(alloc, schema, block_len, max_doc, lengths, rows) {
            Ok(segment) => Ok(segment),
            Err(_) => Err(RowsError::Memory),
        }
    }

    /// How many terms it has postings for, and so rows. Constant time.
    pub fn row_count(&self) -> usize
        ensures count { result ≡ length self.now.rows }
        ensures whole { IsOfRows self.now }
    {
        self.terms.len()
    }

    /// The row of the term at a place of their order. Constant time, and no memory.
    pub fn row(&self, place: usize) -> TermRowRef<'_>
        requires { place < length self.now.rows }
        ensures { lent_row result ≡ slice_index_or self.now.rows place no_row }
    {
        row_of(
            &self.terms[place],
            &self.documents,
            &self.frequencies,
            &self.positions,
        )
    }

    /// The length ids of a field in all documents, and none where it keeps none, or isn't in the schema. Constant
    /// time, and no memory.
    pub fn length_ids(&self, field: Field) -> &[u8]
        ensures { result.now ≡ slice_index_or (columns_of self.now.segment) field [] }
    {
        column_of(&self.lengths, field.field_id())
    }

    /// How many postings a block has; the last block of a term may have fewer.
    pub fn block_len(&self) -> u32
        ensures { result ≡ self.now.segment.block_len }
    {
        self.block_len
    }

    /// The fields that its documents may have.
    pub fn schema(&self) -> &Schema
        ensures { result.now ≡ self.now.segment.schema }
    {
        &self.schema
    }
}

// The segment of rows that make one.
fn segment_of_rows(
    alloc: Global,
    schema: &Schema,
    block_len: u32,
    max_doc: DocId,
    lengths: Vec<Vec<u8>>,
    rows: Vec<TermRow>,
) -> Result<SegmentReader, QueryError>
    requires { MakeSegment schema.now block_len max_doc (map (λ c. c.items) lengths.items) rows.items }
    ensures reader { IfOk result (λ it. it ≡ reader_of_rows schema.now block_len rows.items (map (λ c. c.items) lengths.items) max_doc) }
    ensures refused { IsOkUnless result QueryError.Memory }
{
    let built = built_of(alloc, rows)?;
    built.into_segment(alloc, schema, block_len, max_doc, lengths)
}

// The rows, put together.
fn built_of(alloc: Global, rows: Vec<TermRow>) -> Result<RowsBuilder, AllocError>
    requires laid { All IsLaid rows.items }
    ensures { IfOk result (λ it. it.rows ≡ rows.items) }
{
    let mut built = RowsBuilder::new(alloc);
    // those before it are there
    for row in rows {
        built.push_row(row)?;
    }
    Ok(built)
}

// The row of a term that has these ranges of the arrays.
pub(crate) fn row_of<'a>(
    entry: &'a TermEntry,
    documents: &'a [DocId],
    frequencies: &'a Frequencies,
    positions: &'a [u32],
) -> TermRowRef<'a>
    requires documents { entry.now.start + entry.now.count ≤ length documents.now }
    requires frequencies { entry.now.start + entry.now.count ≤ length frequencies.now }
    requires positions { entry.now.positions_start + entry.now.positions_count ≤ length positions.now }
    ensures { lent_row result ≡ row_in documents.now frequencies.now positions.now entry.now }
{
    let count = entry.doc_freq as usize;
    let positions_end = entry.positions_start + entry.positions_count;
    TermRowRef {
        term: &entry.term,
        documents: &documents[entry.start..entry.start + count],
        frequencies: frequencies.part(entry.start, count),
        positions: &positions[entry.positions_start..positions_end],
    }
}
