//! A segment, to be read.
//!
//! Deletions are one set beside the rows, of which no proof about postings knows.

ghost use Rattle.std.specs.Prelude.{◌≡◌, ◌<◌, ◌≤◌, ℕ, [], None, false, IsTrue, IsOkUnless, IsSome, IfOk, IfSome, OnErr, OnOk, ◌↔◌, length, map};
ghost use Rattle.std.specs.List.{range_with_len};
ghost use Rattle.std.specs.Option.{IsNone};
ghost use Rattle.qm_docset.specs.AliveBitSet.{alive_docs};
ghost use Rattle.qm_docset.specs.BitSet.{set_has};
ghost use Rattle.qm_postings.specs.Deletions.{HasSameAlive, IsAliveSet};
ghost use Rattle.qm_postings.specs.Reading.{deleting};
ghost use Rattle.qm_postings.specs.Segment.{alive_documents, deleted_documents, is_alive, keeps_lengths, length_id};

use crate::fieldnorm::FieldNormReader;
use crate::frequencies::Frequencies;
use crate::inverted_index::InvertedIndex;
use crate::term_arrays::BlockInfo;
use crate::term_guesses::TermGuesses;
use qm_docset::{AliveBitSet, BitSet, DocId, TERMINATED};
use qm_schema::{Field, QueryError, Schema, Term};
use std::alloc::Global;
use std::marker::Model;

/// A term of an index, the head of its text, the range of its postings in the arrays of all postings,
/// and that of its positions in the array of all positions.
#[derive(Debug, Drop)]
pub(crate) struct TermEntry {
    pub(crate) term: Term,
    pub(crate) head: u64,
    pub(crate) start: usize,
    pub(crate) doc_freq: u32,
    pub(crate) max_term_freq: u32,
    pub(crate) positions_start: usize,
    pub(crate) positions_count: usize,
}

impl Model for TermEntry {
    ghost use Rattle.qm_postings.specs.Kept.{PostingsRange, range_code};
    ghost use Rattle.qm_postings.specs.TermHead.{IsHeadOf};

    ghost Value = { PostingsRange };

    ghost coded = { range_code };

    ghost view = { λ e. record {
      term = e.term;
      start = e.start;
      count = e.doc_freq;
      most = e.max_term_freq;
      positions_start = e.positions_start;
      positions_count = e.positions_count;
    } };

    ghost invariant = { λ e. IsHeadOf e.term.bytes e.head };
}

/// A segment, to be read: a list of documents, numbered from 0 up.
///
/// It keeps its terms in their order, and for each a range of two arrays of all postings, one of
/// documents and one of frequencies: 5 bytes a posting, or up to 8 where some frequency is over 255. Where a field
/// keeps positions, its terms have a range of an array of positions too, 4 bytes a position. The postings of a term are cut into blocks
/// of `block_len`, and each has 24 bytes more: where it ends, what bounds its postings, and where its
/// positions begin. Where documents were deleted it keeps a bit for each document.
///
/// Contracts see it as its documents, its schema, the numbers of those that were deleted, the terms
/// that it has postings for, and the rows of these.
#[derive(Debug, Drop)]
pub struct SegmentReader {
    pub(crate) schema: Schema,
    pub(crate) block_len: u32,
    pub(crate) terms: Vec<TermEntry>,
    pub(crate) guesses: TermGuesses,
    pub(crate) documents: Vec<DocId>,
    pub(crate) frequencies: Frequencies,
    pub(crate) positions: Vec<u32>,
    pub(crate) block_starts: Vec<usize>,
    pub(crate) blocks: Vec<BlockInfo>,
    pub(crate) lengths: Vec<Vec<u8>>,
    pub(crate) alive: Option<AliveBitSet>,
    pub(crate) max_doc: DocId,
}

impl Model for SegmentReader {
    ghost use Rattle.std.specs.Prelude.{map};
    ghost use Rattle.qm_postings.specs.Deletions.{IsAliveSet};
    ghost use Rattle.qm_postings.specs.Kept.{IsKept};
    ghost use Rattle.qm_postings.specs.Reading.{Reader, reader_code, reader_of_arrays};

    ghost Value = { Reader };

    ghost coded = { reader_code };

    ghost view = { λ r. reader_of_arrays r.schema r.block_len r.terms.items r.documents.items r.frequencies r.positions.items (map (λ c. c.items) r.lengths.items) r.alive r.max_doc };

    ghost invariant = { λ r.
        IsKept r.schema r.block_len r.max_doc r.terms.items r.documents.items r.frequencies r.positions.items (map (λ c. c.items) r.lengths.items) r.block_starts.items r.blocks.items
        × IsAliveSet r.max_doc r.alive };
}

impl SegmentReader {
    ghost use Rattle.qm_postings.specs.FieldIndex.{shown};
    ghost use Rattle.qm_postings.specs.FieldNorms.{is_made_constant, norm_ids};

    /// The number of documents, deleted ones too: one more than the last document's number.
    pub fn max_doc(&self) -> DocId
        ensures number { result ≡ length self.now.segment.documents }
        ensures room { result ≤ TERMINATED }
    {
        self.max_doc
    }

    /// The number of documents that weren't deleted. Constant time, and no memory.
    pub fn num_docs(&self) -> u32
        ensures { result ≡ length (alive_documents self.now.segment) }
    {
        match &self.alive {
            Some(alive) => alive.num_alive_docs() as u32,
            None => self.max_doc,
        }
    }

    /// Whether a document was deleted. Constant time, and no memory.
    pub fn has_deletes(&self) -> bool
        ensures { (result ≡ false) ↔ (self.now.segment.deleted ≡ []) }
    {
        self.alive.is_some()
    }

    /// Deletes a document of the segment, as [`SegmentBuilder::delete`](crate::SegmentBuilder::delete)
    /// does before it is built: the document keeps its number, as all others do, and its postings; to
    /// delete it again changes nothing more. The first deletion costs a step and a bit for each document
    /// of the segment, any other constant time and no memory.
    ///
    /// Refused with [`QueryError::Memory`] alone, and then nothing was deleted.
    pub fn delete(&mut self, alloc: Global, doc: DocId) -> Result<(), QueryError>
        requires exists { doc < length self.old.segment.documents }
        ensures deleted { OnOk result (self.new ≡ deleting self.old doc) }
        ensures unchanged { OnErr result (self.new ≡ self.old) }
        ensures refused { IsOkUnless result QueryError.Memory }
    {
        let mut alive = alive_or_all(alloc, self.alive.take(), self.max_doc)?;
        alive.remove(doc);
        self.alive = Some(alive);
        Ok(())
    }

    /// The documents that weren't deleted, and `None` where none was. Constant time, and no memory.
    pub fn alive_bitset(&self) -> Option<&AliveBitSet>
        ensures none { IsNone result ↔ (self.now.segment.deleted ≡ []) }
        ensures alive { IfSome result (λ alive. (d : ℕ) → set_has (alive_docs alive.now) d ≡ is_alive self.now.segment d) }
        ensures ascending { self.now.segment.deleted ≡ deleted_documents self.now.segment }
    {
        self.alive.as_ref()
    }

    /// The inverted index of a field, which is empty where the schema doesn't know the field.
    /// Constant time, and no memory.
    pub fn inverted_index(&self, field: Field) -> InvertedIndex<'_>
        ensures { shown result ≡ record { reader = self.now; field = field } }
    {
        InvertedIndex::new(self, field)
    }

    /// The length ids of a field, and `None` where the field keeps no lengths, or isn't in the
    /// schema. Constant time, and no memory.
    pub fn fieldnorms(&self, field: Field) -> Option<FieldNormReader<'_>>
        ensures kept { IsSome result ↔ IsTrue (keeps_lengths self.now.segment.schema field) }
        ensures ids { IfSome result (λ reader. norm_ids reader ≡ map (length_id self.now.segment field) (range_with_len 0 (length self.now.segment.documents))) }
        ensures each { IfSome result (λ reader. is_made_constant reader ≡ false) }
    {
        let entry = self.schema.get_field_entry(field)?;
        if !entry.has_fieldnorms() {
            return None;
        }
        let ids = &self.lengths[field.field_id() as usize];
        Some(FieldNormReader::new(ids.as_slice()))
    }
}

// The alive ones of so many documents, by the set of them, and all where there is none. Takes memory and
// a step for each document only then.
fn alive_or_all(
    alloc: Global,
    alive: Option<AliveBitSet>,
    count: DocId,
) -> Result<AliveBitSet, QueryError>
    requires set { IsAliveSet count alive }
    ensures same { IfOk result (HasSameAlive count alive) }
    ensures unset { OnErr result (alive ≡ None) }
    ensures refused { IsOkUnless result QueryError.Memory }
{
    if let Some(alive) = alive {
        return Ok(alive);
    }
    let mut documents = BitSet::with_max_value(alloc, count)?;
    // those before it are there
    for doc in 0..count {
        documents.insert(doc);
    }
    Ok(AliveBitSet::from(documents))
}
