//! A stored segment, of which is read what is wanted.

ghost use Rattle.std.specs.Prelude.{◌≡◌, IfOk, IsOkUnless};
ghost use Rattle.qm_store.specs.Entries.{lent_part, lent_parts};
ghost use Rattle.qm_store.specs.Pieces.{AddsFound, Gives, GivesSome, WhereKnown};
ghost use Rattle.qm_store.specs.StoredSegment.{looked_up, opened, opened_of, part_in, row_bytes_in};

use crate::dictionary_block::find_row;
use crate::dictionary_index::{DictionaryIndex, read_index};
use crate::ending::{check_head, read_ending};
use crate::entry::PartRef;
use crate::length_columns::read_columns;
use crate::piece::read_piece;
use crate::pieces::Pieces;
use crate::row_bytes::read_row;
use crate::store_error::StoreError;
use qm_docset::DocId;
use qm_postings::TermRow;
use qm_schema::{Schema, Term};
use std::alloc::Global;

/// A segment that is kept as bytes: which blocks its dictionary has, and its length ids. Rows are read as they are asked
/// for.
#[derive(Drop)]
pub struct StoredSegment<P> {
    pub(crate) source: P,
    pub(crate) key: u64,
    pub(crate) block_len: u32,
    pub(crate) documents: u32,
    pub(crate) index: DictionaryIndex,
    pub(crate) columns: Vec<Vec<u8>>,
}

impl<P: Pieces + Drop> StoredSegment<P> {
    /// Opens the segment of a key: reads where its parts stand, what tells of its dictionary, and its length ids.
    pub fn open(
        alloc: Global,
        source: P,
        schema: &Schema,
        key: u64,
    ) -> Result<StoredSegment<P>, StoreError>
        ensures opened { WhereKnown (P.bytes source) (λ file. Gives opened_of result (opened schema.now key file)) }
        ensures of { IfOk result (λ s. (s.source ≡ source) × (s.key ≡ key)) }
    {
        check_head(alloc, &source)?;
        let ending = read_ending(alloc, &source, key)?;
        let mut bytes = Vec::new(alloc);
        read_piece(&source, key, &ending.index, &mut bytes)?;
        let Some(index) = read_index(alloc, &bytes)? else {
            return Err(StoreError::Damaged);
        };
        bytes.clear();
        read_piece(&source, key, &ending.lengths, &mut bytes)?;
        let Some(columns) = read_columns(alloc, schema, ending.documents, &bytes)? else {
            return Err(StoreError::Damaged);
        };
        Ok(StoredSegment {
            source,
            key,
            block_len: ending.block_len,
            documents: ending.documents,
            index,
            columns,
        })
    }

    /// How many documents it has. Constant time.
    pub fn max_doc(&self) -> DocId
        ensures { result ≡ (opened_of self.now).documents }
    {
        self.documents
    }

    /// The row of a term, and none where no document holds it, with its positions or without.
    pub fn row(
        &self,
        alloc: Global,
        term: &Term,
        with_positions: bool,
    ) -> Result<Option<TermRow>, StoreError>
        ensures { WhereKnown (P.bytes self.now.source) (λ file. GivesSome (λ row. row) result (looked_up self.now.key file with_positions term.now (opened_of self.now).blocks)) }
    {
        let Some(block) = self.index.block_of(term) else {
            return Ok(None);
        };
        let mut bytes = Vec::new(alloc);
        read_piece(&self.source, self.key, &block, &mut bytes)?;
        let Some(found) = find_row(term, &bytes) else {
            return Err(StoreError::Damaged);
        };
        let Some(parts) = found else {
            return Ok(None);
        };
        let term = copied(alloc, term)?;
        let mut room = Vec::new(alloc);
        self.read_bytes(&parts, with_positions, &mut room)?;
        match read_row(alloc, term, with_positions, &room)? {
            Some(row) => Ok(Some(row)),
            None => Err(StoreError::Damaged),
        }
    }

    // Puts the bytes of a row whose parts stand there into room that is lent for many rows.
    pub(crate) fn read_bytes(
        &self,
        parts: &(PartRef<'_>, PartRef<'_>),
        with_positions: bool,
        room: &mut Vec<u8>,
    ) -> Result<(), StoreError>
        ensures { WhereKnown (P.bytes self.now.source) (λ file. GivesSome (λ _. room.new.items) result
            (row_bytes_in self.now.key file with_positions (lent_parts parts.now))) }
    {
        room.clear();
        self.read_part(&parts.0, room)?;
        if with_positions {
            self.read_part(&parts.1, room)?;
        }
        Ok(())
    }

    // Adds the bytes of a part to others.
    fn read_part(&self, part: &PartRef<'_>, into: &mut Vec<u8>) -> Result<(), StoreError>
        ensures { WhereKnown (P.bytes self.now.source) (λ file. AddsFound into.old.items into.new.items result (part_in self.now.key file (lent_part part.now))) }
    {
        match part {
            PartRef::Here(bytes) => Ok(into.extend_from_slice(bytes)?),
            PartRef::There(piece) => read_piece(&self.source, self.key, piece, into),
        }
    }
}

// A term in memory of its own.
fn copied(alloc: Global, term: &Term) -> Result<Term, StoreError>
    ensures copy { IfOk result (λ copy. copy ≡ term.now) }
    ensures refused { IsOkUnless result StoreError.Memory }
{
    match term.clone(alloc) {
        Ok(copy) => Ok(copy),
        Err(_) => Err(StoreError::Memory),
    }
}
