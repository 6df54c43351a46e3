//! The making of a segment.
//!
//! A document is checked, and room is made for it, before anything changes. So a refused one leaves nothing behind.

ghost use Rattle.std.specs.Prelude.{◌≡◌, ◌≤◌, ◌<◌, ◌↔◌, ◌⊎◌, [], length, IfOk, OnOk, OnErr, IsErrOf, IsOkUnless};
ghost use Rattle.std.specs.List.Sorted.{IsStrictlySortedBy};
ghost use Rattle.qm_schema.specs.Term.{term_cmp};
ghost use Rattle.qm_postings.specs.Segment.{IsGood, document_of, empty_segment, with_deleted, with_document};

use crate::document::PlainDoc;
use crate::segment_reader::SegmentReader;
use qm_docset::{DocId, TERMINATED};
use qm_schema::{QueryError, Schema};
use std::alloc::Global;
use std::marker::Model;

pub(crate) mod checks;
pub(crate) mod columns;
mod deletions;
mod entering;
mod grouping;
mod position_rows;
mod posting;
mod short_terms;
pub(crate) mod term_blocks;
mod term_numbers;

use posting::Posting;
use term_numbers::TermNumbers;

/// Makes a segment, document by document.
///
/// Contracts see it as the segment so far.
#[derive(Debug, Drop)]
pub struct SegmentBuilder {
    schema: Schema,
    block_len: u32,
    terms: TermNumbers,
    postings: Vec<Posting>,
    positions: Vec<u32>,
    lengths: Vec<Vec<u8>>,
    deleted: Vec<bool>,
    max_doc: DocId,
}

impl Model for SegmentBuilder {
    ghost use Rattle.std.specs.Prelude.{◌≡◌, ◌≤◌, ◌<◌, All, length, map};
    ghost use Rattle.qm_docset.specs.declared.numbers.TheConstants.{TERMINATED};
    ghost use Rattle.qm_postings.specs.Building.{kept_count, posted_by};
    ghost use Rattle.qm_postings.specs.Deletions.{AreFlags, flagged};
    ghost use Rattle.qm_postings.specs.Grouping.{AreNumbered};
    ghost use Rattle.qm_postings.specs.Kept.{AreColumns, ArePosted, segment_from};
    ghost use Rattle.qm_postings.specs.Kept.{IsCounted};
    ghost use Rattle.qm_postings.specs.Segment.{Segment, segment_code, without};

    ghost Value = { Segment };

    ghost coded = { segment_code };

    ghost view = { λ b. without (flagged b.deleted.items b.max_doc) (segment_from b.schema b.block_len (posted_by b.terms b.positions.items 0 b.postings.items) (map (λ c. c.items) b.lengths.items) b.max_doc) };

    ghost invariant = { λ b. (b.max_doc ≤ TERMINATED)
        × (length b.schema ≤ 4294967295)
        × AreNumbered b.terms b.postings.items
        × ArePosted b.max_doc (posted_by b.terms b.positions.items 0 b.postings.items)
        × AreColumns b.schema b.max_doc (map (λ c. c.items) b.lengths.items)
        × (length b.positions.items ≡ kept_count b.postings.items)
        × All (IsCounted b.schema) (posted_by b.terms b.positions.items 0 b.postings.items)
        × (0 < b.block_len)
        × (b.block_len ≤ 128)
        × AreFlags b.max_doc b.deleted.items };
}

impl SegmentBuilder {
    /// A builder of a segment with this schema, of which it keeps a copy, and with no document yet.
    /// Postings are to be cut into blocks of `block_len`.
    ///
    /// Refused with [`QueryError::BadBlockLength`] where `block_len` is not from 1 to 128, and else
    /// with [`QueryError::Memory`] alone.
    pub fn new(alloc: Global, schema: &Schema, block_len: u32) -> Result<SegmentBuilder, QueryError>
        ensures empty { IfOk result (λ builder. builder ≡ empty_segment schema.now block_len) }
        ensures block_len { IsErrOf result QueryError.BadBlockLength ↔ ((block_len ≡ 0) ⊎ (128 < block_len)) }
        ensures refused { (0 < block_len) → block_len ≤ 128 → IsOkUnless result QueryError.Memory }
    {
        if block_len == 0 || block_len > 128 {
            return Err(QueryError::BadBlockLength);
        }
        let schema = schema.clone(alloc)?;
        let lengths = columns::empty(alloc, &schema)?;
        Ok(SegmentBuilder {
            schema,
            block_len,
            terms: TermNumbers::new(alloc),
            postings: Vec::new(alloc),
            positions: Vec::new(alloc),
            lengths,
            deleted: Vec::new(alloc),
            max_doc: 0,
        })
    }

    /// Adds a document, and answers its number, which is the number of documents so far. A refused
    /// one adds nothing: the next gets the number that it would have had. Costs the number of its
    /// terms times the logarithm of that of the segment's, and the number of the schema's fields times
    /// that of the lengths that it was given.
    ///
    /// Refused with [`QueryError::TooManyDocuments`] exactly where there are 2147483647 documents
    /// already; with [`QueryError::BadDocument`] where a field isn't in the schema, a term has no
    /// positions, or its positions don't ascend strictly or hold 4294967295, or a term is given
    /// twice; and else with [`QueryError::Memory`] alone.
    pub fn add_document(&mut self, document: PlainDoc) -> Result<DocId, QueryError>
        ensures number { IfOk result (λ doc. doc ≡ length self.old.documents) }
        ensures added { OnOk result (self.new ≡ with_document self.old (document_of self.old.schema document)) }
        ensures good { OnOk result (IsGood self.old.schema document) }
        ensures unchanged { OnErr result (self.new ≡ self.old) }
        ensures full { IsErrOf result QueryError.TooManyDocuments ↔ (length self.old.documents ≡ TERMINATED) }
        ensures bad { IsErrOf result QueryError.BadDocument ↔ ((length self.old.documents < TERMINATED) × ¬ IsGood self.old.schema document) }
        ensures refused { length self.old.documents < TERMINATED → IsGood self.old.schema document → IsOkUnless result QueryError.Memory }
    {
        if self.max_doc == TERMINATED {
            return Err(QueryError::TooManyDocuments);
        }
        let mut document = document;
        if !checks::is_good(&self.schema, &mut document) {
            return Err(QueryError::BadDocument);
        }
        columns::reserve(&self.schema, &mut self.lengths)?;
        let doc = self.max_doc;
        let PlainDoc { terms, lengths } = document;
        entering::push_postings(
            &self.schema,
            &mut self.terms,
            &mut self.postings,
            &mut self.positions,
            terms,
            doc,
        )?;
        columns::push(&self.schema, &mut self.lengths, lengths.as_slice());
        self.max_doc += 1;
        Ok(doc)
    }

    /// Deletes a document, which was added before. It keeps its number, as all others do, and its
    /// postings; to delete it again changes nothing more. Constant time, amortized, and at most a byte
    /// for each document up to it.
    ///
    /// Refused with [`QueryError::Memory`] alone, and then nothing was deleted.
    pub fn delete(&mut self, doc: DocId) -> Result<(), QueryError>
        requires added { doc < length self.old.documents }
        ensures deleted { OnOk result (self.new ≡ with_deleted self.old doc) }
        ensures unchanged { OnErr result (self.new ≡ self.old) }
        ensures refused { IsOkUnless result QueryError.Memory }
    {
        deletions::set_flag(&mut self.deleted, doc)?;
        Ok(())
    }

    /// The segment of the documents that were added; the terms that it has postings for ascend. Costs
    /// the number of postings, and the number of terms.
    ///
    /// Refused with [`QueryError::Memory`] alone.
    pub fn build(self, alloc: Global) -> Result<SegmentReader, QueryError>
        ensures segment { IfOk result (λ reader. reader.segment ≡ self) }
        ensures ascending { IfOk result (λ reader. IsStrictlySortedBy term_cmp reader.terms) }
        ensures refused { IsOkUnless result QueryError.Memory }
    {
        grouping::group(alloc, self)
    }
}
