//! What several terms of a stored segment are read as: an ordinary one.

ghost use Rattle.std.specs.Prelude.{◌≡◌, [], Some, IfOk, IsOkUnless, map};
ghost use Rattle.qm_postings.specs.Reading.{reader_of_rows};
ghost use Rattle.qm_postings.specs.Segment.{keeps_positions};
ghost use Rattle.qm_store.specs.Entries.{lent_entry};
ghost use Rattle.qm_store.specs.Pieces.{AddsFound, GivesSome, WhereKnown};
ghost use Rattle.qm_store.specs.StoredSegment.{GivesReader, all_rows, chosen_in_block, chosen_in_blocks, chosen_in_entry, opened_of, wanted_rows};
ghost use Rattle.qm_store.specs.Wanted.{AreApart, is_chosen, lent_choice};

use crate::dictionary_index::BlockStart;
use crate::entry::{EntryRef, read_entry};
use crate::numbers::read_number;
use crate::piece::read_piece;
use crate::pieces::Pieces;
use crate::row_bytes::read_row_behind;
use crate::store_error::StoreError;
use crate::stored_segment::StoredSegment;
use crate::wanted::Wanted;
use qm_postings::{RowsBuilder, RowsError, SegmentReader};
use qm_schema::{Field, Schema, Term};
use std::alloc::{AllocError, Global};

impl<P: Pieces + Drop> StoredSegment<P> {
    /// The segment of the same documents in which they hold the wanted terms alone, none of them deleted: an ordinary one,
    /// in memory. The schema may keep less than the one that the segment was written by, such as no positions; those are
    /// not read then. Of each that is wanted the blocks are read that may have such terms, which is one where a single
    /// term is wanted, and the rows of these terms. Costs these, and a copy of the length ids.
    ///
    /// Asks that the wanted ones ascend, and that none is meant by one before it, as [`wanted_of`](crate::wanted_of) makes
    /// them. Refused with [`StoreError::Damaged`] where what is read is damaged or makes no segment, with
    /// [`StoreError::Failed`] where it can't be read, and else for want of memory.
    pub fn with_wanted(
        &self,
        alloc: Global,
        schema: &Schema,
        wanted: &[Wanted],
    ) -> Result<SegmentReader, StoreError>
        requires apart { AreApart wanted.now }
        ensures given { WhereKnown (P.bytes self.now.source) (λ file. GivesReader schema.now (opened_of self.now) result (wanted_rows self.now file schema.now wanted.now)) }
        ensures none_deleted { IfOk result (λ r. r.segment.deleted ≡ []) }
    {
        let rows = self.read_wanted(alloc, schema, wanted)?;
        self.made_of(alloc, schema, rows)
    }

    /// The whole segment, none of its documents deleted: an ordinary one, in memory. The schema may keep less than the one
    /// that the segment was written by, such as no positions; those are not read then. Costs all blocks and all rows, and
    /// a copy of the length ids.
    ///
    /// Refused with [`StoreError::Damaged`] where what is read is damaged or makes no segment, with
    /// [`StoreError::Failed`] where it can't be read, and else for want of memory.
    pub fn whole(&self, alloc: Global, schema: &Schema) -> Result<SegmentReader, StoreError>
        ensures given { WhereKnown (P.bytes self.now.source) (λ file. GivesReader schema.now (opened_of self.now) result (all_rows self.now file schema.now)) }
        ensures none_deleted { IfOk result (λ r. r.segment.deleted ≡ []) }
    {
        let rows = self.read_all(alloc, schema)?;
        self.made_of(alloc, schema, rows)
    }

    // The segment of the same documents that has these rows.
    fn made_of(
        &self,
        alloc: Global,
        schema: &Schema,
        rows: RowsBuilder,
    ) -> Result<SegmentReader, StoreError>
        ensures given { GivesReader schema.now (opened_of self.now) result (Some rows.rows) }
        ensures none_deleted { IfOk result (λ r. r.segment.deleted ≡ []) }
    {
        let columns = copied_columns(alloc, &self.columns)?;
        match rows.finish(alloc, schema, self.block_len, self.documents, columns) {
            Ok(segment) => Ok(segment),
            Err(RowsError::NotRows) => Err(StoreError::Damaged),
            Err(RowsError::Memory) => Err(StoreError::Memory),
        }
    }

    // All rows.
    fn read_all(&self, alloc: Global, schema: &Schema) -> Result<RowsBuilder, StoreError>
        ensures { WhereKnown (P.bytes self.now.source) (λ file. GivesSome (λ v. v.rows) result (all_rows self.now file schema.now)) }
    {
        let mut rows = RowsBuilder::new(alloc);
        self.push_rows(alloc, schema, None, &self.index.starts, &mut rows)?;
        Ok(rows)
    }

    // The rows of what is wanted.
    fn read_wanted(
        &self,
        alloc: Global,
        schema: &Schema,
        wanted: &[Wanted],
    ) -> Result<RowsBuilder, StoreError>
        ensures { WhereKnown (P.bytes self.now.source) (λ file. GivesSome (λ v. v.rows) result (wanted_rows self.now file schema.now wanted.now)) }
    {
        let mut rows = RowsBuilder::new(alloc);
        // what is read and what is left make all
        for one in wanted {
            self.push_rows(
                alloc,
                schema,
                Some(one),
                self.index.blocks_of(one),
                &mut rows,
            )?;
        }
        Ok(rows)
    }

    // Adds the rows of the chosen terms of some blocks.
    fn push_rows(
        &self,
        alloc: Global,
        schema: &Schema,
        chosen: Option<&Wanted>,
        blocks: &[BlockStart],
        rows: &mut RowsBuilder,
    ) -> Result<(), StoreError>
        ensures { WhereKnown (P.bytes self.now.source) (λ file. AddsFound rows.old.rows rows.new.rows result (chosen_in_blocks self.now file schema.now chosen.entry blocks.now)) }
    {
        let mut bytes = Vec::new(alloc);
        let mut room = Vec::new(alloc);
        // what is read and what is left make all
        for block in blocks {
            bytes.clear();
            read_piece(&self.source, self.key, &block.piece, &mut bytes)?;
            self.push_rows_of(alloc, schema, chosen, &bytes, &mut room, rows)?;
        }
        Ok(())
    }

    // Adds those of a block.
    fn push_rows_of(
        &self,
        alloc: Global,
        schema: &Schema,
        chosen: Option<&Wanted>,
        block: &[u8],
        room: &mut Vec<u8>,
        rows: &mut RowsBuilder,
    ) -> Result<(), StoreError>
        ensures { WhereKnown (P.bytes self.now.source) (λ file. AddsFound rows.old.rows rows.new.rows result (chosen_in_block self.now file schema.now chosen.entry block.now)) }
    {
        let Some((count, mut rest)) = read_number(block) else {
            return Err(StoreError::Damaged);
        };
        // what is read and what is left make all
        for _ in 0..count {
            let Some((entry, behind)) = read_entry(rest) else {
                return Err(StoreError::Damaged);
            };
            self.push_chosen(alloc, schema, chosen, &entry, room, rows)?;
            rest = behind;
        }
        if rest.is_empty() {
            Ok(())
        } else {
            Err(StoreError::Damaged)
        }
    }

    // Adds the row of an entry, if its term is chosen.
    #[tactic(auto, using(crate::proofs::RowsThen::one_found))]
    fn push_chosen(
        &self,
        alloc: Global,
        schema: &Schema,
        chosen: Option<&Wanted>,
        entry: &EntryRef<'_>,
        room: &mut Vec<u8>,
        rows: &mut RowsBuilder,
    ) -> Result<(), StoreError>
        ensures { WhereKnown (P.bytes self.now.source) (λ file. AddsFound rows.old.rows rows.new.rows result (chosen_in_entry self.now file schema.now chosen.entry entry.now)) }
    {
        if !is_chosen(chosen, entry) {
            return Ok(());
        }
        let term = made_term(alloc, entry.field, entry.text)?;
        let has_positions = keeps_positions(schema, entry.field);
        self.read_bytes(&entry.parts, has_positions, room)?;
        if read_row_behind(rows, term, has_positions, room)? {
            Ok(())
        } else {
            Err(StoreError::Damaged)
        }
    }
}

// The term that is this text of a field.
fn made_term(alloc: Global, field: Field, text: &[u8]) -> Result<Term, StoreError>
    ensures made { IfOk result (λ term. term ≡ record { field = field; bytes = text.now }) }
    ensures refused { IsOkUnless result StoreError.Memory }
{
    match Term::from_field_bytes(alloc, field, text) {
        Ok(term) => Ok(term),
        Err(_) => Err(StoreError::Memory),
    }
}

// Whether the term of an entry is chosen: each is, or those that are meant.
fn is_chosen(chosen: Option<&Wanted>, entry: &EntryRef<'_>) -> bool
    ensures { result ≡ is_chosen (lent_choice chosen.entry) (lent_entry entry.now).term }
{
    match chosen {
        None => true,
        Some(wanted) => wanted.means(entry.field, entry.text),
    }
}

// Columns of length ids in memory of their own.
fn copied_columns(alloc: Global, columns: &[Vec<u8>]) -> Result<Vec<Vec<u8>>, AllocError>
    ensures { IfOk result (λ copy. map (λ c. c.items) copy.items ≡ map (λ c. c.items) columns.now) }
{
    let mut copy = Vec::with_capacity(alloc, columns.len())?;
    // those before it are copied
    for column in columns {
        copy.push(Vec::from_slice(alloc, column)?)?;
    }
    Ok(copy)
}

// Whether a field keeps the positions of its terms.
fn keeps_positions(schema: &Schema, field: Field) -> bool
    ensures { result ≡ keeps_positions schema.now field }
{
    match schema.get_field_entry(field) {
        Some(entry) => match entry.index_record_option() {
            Some(kept) => kept.has_positions(),
            None => false,
        },
        None => false,
    }
}
