//! Rows that are put together posting by posting, and the segment of them.

ghost use Rattle.std.specs.Prelude.{◌≡◌, ◌⊎◌, ◌<◌, ◌≤◌, ◌↔◌, ◌++◌, [], ◌∷◌, IfOk, IsErrOf, IsOk, OnErr, OnOk, IsOkUnless, length, map, slice_index};
ghost use Rattle.qm_postings.specs.Reading.{reader_of_rows};
ghost use Rattle.qm_postings.specs.Rows.{MakeSegment};
ghost use Rattle.qm_postings.specs.RowsSoFar.{IsLaid, begun, pushed_row, with_position, with_posting};

use crate::index_arrays::IndexArrays;
use crate::segment_reader::{SegmentReader, TermEntry};
use crate::term_head::text_head;
use crate::term_row::{RowsError, TermRow, TermRowRef, row_of};
use checks::make_segment;
use lent_rows::LentRows;
use qm_docset::DocId;
use qm_schema::{QueryError, Schema, Term};
use std::alloc::{AllocError, Global};
use std::marker::Model;

pub(crate) mod checks;
pub(crate) mod lent_rows;

/// Puts the rows of a segment together, one behind the other, in the arrays that the segment keeps: no row is copied.
/// Of each row the postings are pushed, and then its positions, and then it is ended with its term.
///
/// Contracts see the rows that were ended, and what was pushed since.
#[derive(Drop)]
pub struct RowsBuilder {
    arrays: IndexArrays,
    // where what was pushed since begins
    start: usize,
    positions_start: usize,
}

impl Model for RowsBuilder {
    ghost use Rattle.qm_postings.specs.Rows.{rows_in};
    ghost use Rattle.qm_postings.specs.RowsSoFar.{AreSoFar, RowsSoFar, shown_so_far, so_far_code};

    ghost Value = { RowsSoFar };

    ghost coded = { so_far_code };

    ghost view = { λ b. shown_so_far b.arrays.terms.items b.arrays.documents.items b.arrays.frequencies b.arrays.positions.items b.start b.positions_start };

    ghost invariant = { λ b.
        AreSoFar (rows_in b.arrays.terms.items b.arrays.documents.items b.arrays.frequencies b.arrays.positions.items)
        b.arrays.terms.items b.arrays.documents.items b.arrays.frequencies b.arrays.positions.items b.start b.positions_start };
}

impl RowsBuilder {
    /// A builder with no row yet.
    pub fn new(alloc: Global) -> RowsBuilder
        ensures { result ≡ begun [] }
    {
        RowsBuilder {
            arrays: IndexArrays::empty(alloc),
            start: 0,
            positions_start: 0,
        }
    }

    /// Begins a row, with room for so many postings and positions: what was pushed since the last one was ended is gone.
    /// Constant time but for the room, amortized.
    ///
    /// Refused for want of memory alone.
    pub fn begin_row(&mut self, postings: usize, positions: usize) -> Result<(), AllocError>
        ensures { self.new ≡ begun self.old.rows }
    {
        self.leave_out_open();
        self.arrays.reserve(postings, positions)?;
        Ok(())
    }

    // Leaves out what was pushed since the last row was ended.
    fn leave_out_open(&mut self)
        ensures { self.new ≡ begun self.old.rows }
    {
        self.arrays.documents.truncate(self.start);
        self.arrays.frequencies.truncate(self.start);
        self.arrays.positions.truncate(self.positions_start);
    }

    /// Adds a posting to the row that was begun: a document that holds its term, and how often. Constant time, amortized.
    ///
    /// Refused for want of memory alone, and then nothing was added.
    #[inline]
    pub fn push_posting(&mut self, document: DocId, frequency: u32) -> Result<(), AllocError>
        ensures added { OnOk result (self.new ≡ with_posting self.old document frequency) }
        ensures unchanged { OnErr result (self.new ≡ self.old) }
    {
        self.arrays.push_posting(document, frequency)?;
        Ok(())
    }

    /// How many postings the row has that was begun. Constant time.
    pub fn posting_count(&self) -> usize
        ensures { result ≡ length self.now.frequencies }
    {
        self.arrays.frequencies.len() - self.start
    }

    /// How often the term stands in the document at a place of the row that was begun. Constant time.
    #[inline]
    pub fn frequency(&self, place: usize) -> u32
        requires { place < length self.now.frequencies }
        ensures { result ≡ slice_index self.now.frequencies place }
    {
        // the sum is no more than there are
        let _count = self.arrays.frequencies.len();
        self.arrays.frequencies.at(self.start + place)
    }

    /// Adds a position to the row that was begun: those in its first document come first, then those in its second, and
    /// so on. Constant time, amortized.
    ///
    /// Refused for want of memory alone, and then nothing was added.
    #[inline]
    pub fn push_position(&mut self, position: u32) -> Result<(), AllocError>
        ensures added { OnOk result (self.new ≡ with_position self.old position) }
        ensures unchanged { OnErr result (self.new ≡ self.old) }
    {
        self.arrays.positions.push(position)?;
        Ok(())
    }

    /// Ends the row that was begun: it is the row of this term. Costs a step for each of its postings.
    ///
    /// Refused for want of memory alone, and then nothing changed.
    pub fn end_row(&mut self, term: Term) -> Result<(), AllocError>
        requires laid { IsLaid (pushed_row term self.old) }
        ensures ended { OnOk result (self.new ≡ begun (self.old.rows ++ pushed_row term self.old ∷ [])) }
        ensures unchanged { OnErr result (self.new ≡ self.old) }
    {
        let count = self.arrays.documents.len() - self.start;
        let head = text_head(term.serialized_value_bytes());
        let frequencies = self.arrays.frequencies.part(self.start, count);
        self.arrays.terms.push(TermEntry {
            term,
            head,
            start: self.start,
            doc_freq: count as u32,
            max_term_freq: frequencies.greatest(),
            positions_start: self.positions_start,
            positions_count: self.arrays.positions.len() - self.positions_start,
        })?;
        self.start = self.arrays.documents.len();
        self.positions_start = self.arrays.positions.len();
        Ok(())
    }

    // Adds a row, which is copied. Refused for want of memory alone, and then the rows are as they were.
    pub(crate) fn push_row(&mut self, row: TermRow) -> Result<(), AllocError>
        requires { IsLaid row }
        ensures added { OnOk result (self.new ≡ begun (self.old.rows ++ row ∷ [])) }
        ensures refused { OnErr result (self.new.rows ≡ self.old.rows) }
    {
        self.begin_row(row.documents.len(), row.positions.len())?;
        self.extend(&row)?;
        self.end_row(row.term)
    }

    // Adds the postings and the positions of a row to the one that was begun.
    fn extend(&mut self, row: &TermRow) -> Result<(), AllocError>
        requires begun { self.old ≡ begun self.old.rows }
        ensures added { OnOk result (pushed_row row.now.term self.new ≡ row.now) }
        ensures rows { self.new.rows ≡ self.old.rows }
    {
        self.arrays.extend(row)?;
        Ok(())
    }

    /// What was pushed, as the row of a term, where no row was ended before it. Costs a step for each posting.
    ///
    /// Refused for want of memory alone.
    pub fn into_row(self, alloc: Global, term: Term) -> Result<TermRow, AllocError>
        requires { self.rows ≡ [] }
        ensures { IfOk result (λ row. row ≡ pushed_row term self) }
    {
        let count = self.posting_count();
        let frequencies = self.arrays.frequencies.part(self.start, count).copy(alloc)?;
        Ok(TermRow {
            term,
            documents: self.arrays.documents,
            frequencies,
            positions: self.arrays.positions,
        })
    }

    /// The segment of the rows that were ended, of `max_doc` documents, none of them deleted, with a column of length ids
    /// for each field of the schema, of which it keeps a copy. Costs a step for each posting, and for each term.
    ///
    /// Refused with [`RowsError::NotRows`] exactly where no segment keeps them, for what
    /// [`SegmentReader::from_rows`] names; else with [`RowsError::Memory`] alone.
    pub fn finish(
        self,
        alloc: Global,
        schema: &Schema,
        block_len: u32,
        max_doc: DocId,
        lengths: Vec<Vec<u8>>,
    ) -> Result<SegmentReader, RowsError>
        ensures reader { IfOk result (λ it. it ≡ reader_of_rows schema.now block_len self.rows (map (λ c. c.items) lengths.items) max_doc) }
        ensures not_rows { IsErrOf result RowsError.NotRows ↔ ¬ MakeSegment schema.now block_len max_doc (map (λ c. c.items) lengths.items) self.rows }
        ensures rows { IsOk result → MakeSegment schema.now block_len max_doc (map (λ c. c.items) lengths.items) self.rows }
    {
        if !make_segment(schema, block_len, max_doc, &lengths, &self) {
            return Err(RowsError::NotRows);
        }
        match self.into_segment(alloc, schema, block_len, max_doc, lengths) {
            Ok(segment) => Ok(segment),
            Err(_) => Err(RowsError::Memory),
        }
    }

    // The segment of the rows that were ended, which make one.
    pub(crate) fn into_segment(
        self,
        alloc: Global,
        schema: &Schema,
        block_len: u32,
        max_doc: DocId,
        lengths: Vec<Vec<u8>>,
    ) -> Result<SegmentReader, QueryError>
        requires make { MakeSegment schema.now block_len max_doc (map (λ c. c.items) lengths.items) self.rows }
        ensures reader { IfOk result (λ it. it ≡ reader_of_rows schema.now block_len self.rows (map (λ c. c.items) lengths.items) max_doc) }
        ensures refused { IsOkUnless result QueryError.Memory }
    {
        let schema = schema.clone(alloc)?;
        let mut rows = self;
        rows.leave_out_open();
        let RowsBuilder { arrays, .. } = rows;
        arrays.into_segment(alloc, schema, block_len, lengths, None, max_doc)
    }
}

impl LentRows for RowsBuilder {
    ghost rows = { λ b. b.rows };

    fn row_count(&self) -> usize {
        self.arrays.terms.len()
    }

    fn row_at(&self, place: usize) -> TermRowRef<'_> {
        row_of(
            &self.arrays.terms[place],
            &self.arrays.documents,
            &self.arrays.frequencies,
            &self.arrays.positions,
        )
    }

    // each of them was when it was ended
    fn is_laid_at(&self, place: usize) -> bool {
        place < self.arrays.terms.len()
    }
}
