//! The arrays of a segment's postings, term by term, and the segment that they make.

ghost use Rattle.std.specs.Prelude.{◌≡◌, ◌<◌, ◌≤◌, ◌∷◌, [], ℕ, List, IfOk, IsOkUnless, OnErr, OnOk, map};
ghost use Rattle.qm_docset.specs.declared.numbers.TheConstants.{TERMINATED};
ghost use Rattle.qm_postings.specs.Deletions.{IsAliveSet};
ghost use Rattle.qm_postings.specs.Kept.{AreColumns};
ghost use Rattle.qm_postings.specs.Laying.{AreIndex, ArePositioned, HaveMore, HaveSameItems, reader_of};

use crate::frequencies::Frequencies;
use crate::segment_builder::term_blocks::cut_into_blocks;
use crate::segment_reader::{SegmentReader, TermEntry};
use crate::term_guesses::TermGuesses;
use crate::term_row::TermRow;
use qm_docset::{AliveBitSet, DocId};
use qm_schema::{QueryError, Schema};
use std::alloc::{AllocError, Global};

/// The ranges of the terms, in their order, and the arrays of all postings and of all positions.
#[derive(Drop)]
pub(crate) struct IndexArrays {
    pub(crate) terms: Vec<TermEntry>,
    pub(crate) documents: Vec<DocId>,
    pub(crate) frequencies: Frequencies,
    pub(crate) positions: Vec<u32>,
}

impl IndexArrays {
    // None yet.
    pub(crate) fn empty(alloc: Global) -> IndexArrays
        ensures terms { result.terms.items ≡ [] }
        ensures documents { result.documents.items ≡ [] }
        ensures frequencies { result.frequencies ≡ [] }
        ensures positions { result.positions.items ≡ [] }
    {
        IndexArrays {
            terms: Vec::new(alloc),
            documents: Vec::new(alloc),
            frequencies: Frequencies::empty(alloc),
            positions: Vec::new(alloc),
        }
    }

    // Makes room for so many postings and positions more.
    pub(crate) fn reserve(&mut self, postings: usize, positions: usize) -> Result<(), AllocError>
        ensures { HaveSameItems self.old self.new }
    {
        self.documents.reserve(postings)?;
        self.frequencies.reserve(postings)?;
        self.positions.reserve(positions)?;
        Ok(())
    }

    // Adds a posting behind the others.
    #[inline]
    pub(crate) fn push_posting(&mut self, document: DocId, frequency: u32) -> Result<(), AllocError>
        ensures added { OnOk result (HaveMore (document ∷ []) (frequency ∷ []) [] self.old self.new) }
        ensures unchanged { OnErr result (HaveSameItems self.old self.new) }
    {
        self.documents.reserve(1)?;
        self.frequencies.push(frequency)?;
        self.documents.push(document).unwrap();
        Ok(())
    }

    // Adds the postings and the positions of a row behind the others, or some of them where memory runs out.
    pub(crate) fn extend(&mut self, row: &TermRow) -> Result<(), AllocError>
        ensures added { OnOk result (HaveMore row.now.documents row.now.frequencies row.now.positions self.old self.new) }
        ensures grown { (xs : List ℕ) × (ys : List ℕ) × (zs : List ℕ) × HaveMore xs ys zs self.old self.new }
    {
        self.documents.extend_from_slice(&row.documents)?;
        self.frequencies.extend_from_slice(&row.frequencies)?;
        self.positions.extend_from_slice(&row.positions)?;
        Ok(())
    }

    // The segment of these postings, with these columns of length ids, of which the set says what is alive.
    // One step for each posting and each term.
    pub(crate) fn into_segment(
        self,
        alloc: Global,
        schema: Schema,
        block_len: u32,
        lengths: Vec<Vec<u8>>,
        alive: Option<AliveBitSet>,
        max_doc: DocId,
    ) -> Result<SegmentReader, QueryError>
        requires index { AreIndex max_doc self }
        requires positions { ArePositioned schema self }
        requires lengths { AreColumns schema max_doc (map (λ c. c.items) lengths.items) }
        requires few { max_doc ≤ TERMINATED }
        requires cut { 0 < block_len }
        requires short { block_len ≤ 128 }
        requires alive { IsAliveSet max_doc alive }
        ensures reader { IfOk result (λ reader. reader ≡ reader_of schema block_len self (map (λ c. c.items) lengths.items) alive max_doc) }
        ensures refused { IsOkUnless result QueryError.Memory }
    {
        let blocks = cut_into_blocks(
            alloc,
            &self.terms,
            &self.documents,
            &self.frequencies,
            &lengths,
            block_len,
        )?;
        let guesses = TermGuesses::new(alloc, &self.terms)?;
        Ok(SegmentReader {
            schema,
            block_len,
            terms: self.terms,
            guesses,
            documents: self.documents,
            frequencies: self.frequencies,
            positions: self.positions,
            block_starts: blocks.starts,
            blocks: blocks.infos,
            lengths,
            alive,
            max_doc,
        })
    }
}
