//! Segments that are searched, of which the last takes documents.
//!
//! Why it is so:
//! - What documents of the open segment were given is kept, since a built segment takes no documents; that of ended ones
//!   is dropped.
//! - The open segment is searched in parts, each at least twice as long as the next, so that a refresh builds few
//!   documents again.
//! - `searcher` asks for a refresh in place of making one: what it hands out is borrowed, and takes no memory.

ghost use Rattle.std.specs.Prelude.{◌≡◌, ◌<◌, ◌≤◌, ◌≤ℤ◌, ◌↔◌, ◌*◌, ◌+◌, ◌⊎◌, All, IfErr, IfOk, IsErrOf, IsOkUnless, None, OnErr, OnOk};
ghost use Rattle.std.specs.Prelude.{[], drop, length, map, nat_abs, pos, take, true, vec_len};
ghost use Rattle.std.specs.FinMap.{empty};
ghost use Rattle.std.specs.List.Sorted.{IsNonDecreasing};
ghost use Rattle.std.specs.Option.{ForSome};
ghost use Rattle.qm_docset.specs.declared.numbers.TheConstants.{TERMINATED};
ghost use Rattle.qm_postings.specs.Segment.{IsGood};
ghost use Rattle.qm_postings.specs.Statistics.{with_norms, with_segments, with_weight};
ghost use Rattle.qm_index.specs.Numbers.{AreOf, count_of, deleted_among, document_count, ends_from};
ghost use Rattle.qm_index.specs.OpenDocuments.{IsBadDraft, IsDocumentRefusal, segment_of, undeleted};
ghost use Rattle.qm_index.specs.Parts.{cut, segments_of};
ghost use Rattle.qm_index.specs.Texts.{texts_draft};

use crate::addresses::{address_among, address_by_ends, count_documents, ends_of};
use crate::given_document::GivenDocument;
use crate::open_document::{OpenDocument, add_given, add_good, delete_marked};
use crate::saved_files::SavedFiles;
use qm_docset::{DocId, Score, TERMINATED};
use qm_postings::{Searcher, SegmentBuilder, SegmentReader};
use qm_schema::{Field, QueryError, Schema, Term};
use std::alloc::Global;

mod joining;
mod opening;
mod parts;
mod saving;

/// How many segments a searcher takes.
const MAX_SEGMENTS: usize = 4294967295;

/// Documents that are added one at a time, deleted, and searched at any moment. They stand in segments,
/// of which the last is open and takes documents; they are numbered over all of them, from 0 up.
///
/// The open segment is searched in parts, each a segment of its own: [`Index::refresh`] makes the
/// documents that came since the last one a new part, and the parts before it that have fewer than twice
/// its documents are built into it. So there are no more parts than the logarithm of the number of
/// documents, and a document is built into a part no more often than that.
#[derive(Drop)]
pub struct Index {
    // what words weigh, and the segments: those that were ended, and behind them the parts of the open one
    searcher: Searcher,
    block_len: u32,
    ended: usize,
    // how many documents the ended segments have
    ended_documents: u64,
    // the number behind the last document of each of them
    ends: Vec<u64>,
    // those of the open segment, of which its parts have the first `built`
    documents: Vec<OpenDocument>,
    built: usize,
    // a builder that has the documents behind these, none of them deleted, as long as there is one
    builder: Option<SegmentBuilder>,
    // which files the first of the ended segments have
    saved: SavedFiles,
    ghost block: { (0 < block_len) × (block_len ≤ 128) },
    ghost within: { ended ≤ length searcher.segments },
    // so the open segment has room for one part
    ghost room: { ended < 4294967295 },
    ghost some_built: { built ≤ vec_len documents },
    ghost few: { vec_len documents ≤ TERMINATED },
    ghost counted: { ended_documents ≡ document_count (take ended searcher.segments) },
    ghost ends_known: { ends.items ≡ ends_from 0 (take ended searcher.segments) },
    ghost small: { ended_documents ≤ ended * TERMINATED },
    ghost alike: { AreOf searcher.schema (take ended searcher.segments) },
    ghost some_saved: { vec_len saved.segments ≤ ended },
    ghost built_parts: { document_count (drop ended searcher.segments) ≡ built },
    ghost parts: { segments_of (drop ended searcher.segments) ≡ cut searcher.schema block_len (drop ended searcher.segments) documents.items },
    ghost building: { ForSome builder (λ b. b ≡ undeleted searcher.schema block_len (drop built documents.items)) },
    // so a segment takes each of them again
    ghost good: { All (λ d. ¬ IsBadDraft searcher.schema d.given) documents.items },
}

impl Index {
    ghost use Rattle.qm_folder.specs.Disk.{Contents};
    ghost use Rattle.qm_index.specs.Saving.{IsKeptIn};
    ghost use Rattle.qm_index.specs.Indexed.{AreMerged, AreSearched, Deletes, IsAsBuilt, IsIndexRefusal, IsMerged, IsFull, IsRefreshed, IsSegmentsRefusal, IsUnsaved, all_segments, empty_index, index_of_segments, indexed, open_parts};
    ghost use Rattle.qm_index.specs.Indexed.{statistics, with_document_of, with_open_deleted, with_segment_ended};

    /// One open segment without documents. A term weighs `default_weight`, in whole scores, as long as it is
    /// given no other; `norms` has the norm of each length id, in words; postings are cut into blocks of
    /// `block_len`.
    ///
    /// Asks that the weight is not below 0. Refused with [`QueryError::BadBlockLength`] exactly where
    /// `block_len` is not from 1 to 128; else with [`QueryError::Memory`], or with
    /// [`QueryError::BadNorms`] where a norm is less than the one before it.
    pub fn new(
        alloc: Global,
        schema: Schema,
        default_weight: Score,
        norms: [u32; 256],
        block_len: u32,
    ) -> Result<Index, QueryError>
        requires default_weight { pos 0 ≤ℤ default_weight }
        ensures empty { IfOk result (λ i. indexed i ≡ empty_index schema block_len) }
        ensures weights { IfOk result (λ i. (statistics i).weights ≡ empty) }
        ensures default_weight { IfOk result (λ i. pos (statistics i).default_weight ≡ default_weight) }
        ensures norms { IfOk result (λ i. (statistics i).norms ≡ norms) }
        ensures block_len { IsErrOf result QueryError.BadBlockLength ↔ ((block_len ≡ 0) ⊎ (128 < block_len)) }
        ensures bad_norms { IsErrOf result QueryError.BadNorms → ¬ IsNonDecreasing norms }
        ensures good { IfOk result (λ _. IsNonDecreasing norms) }
        ensures refreshed { IfOk result IsRefreshed }
        ensures merged { IfOk result IsMerged }
        ensures unsaved { IfOk result IsUnsaved }
        ensures refused { IfErr result IsIndexRefusal }
    {
        if !is_block_len(block_len) {
            return Err(QueryError::BadBlockLength);
        }
        let searcher = Searcher::new(
            alloc,
            schema,
            Vec::new(alloc),
            Vec::new(alloc),
            default_weight,
            norms,
        )?;
        let index = Index::of_searcher(alloc, searcher, block_len)?;
        Ok(index)
    }

    /// An index whose ended segments are those that a searcher has, in order, by which terms weigh what they do by it;
    /// one open segment without documents behind them. Postings of that are cut into blocks of `block_len`. Costs a step
    /// for each segment.
    ///
    /// Asks that each segment has the fields that the searcher has.
    /// Refused with [`QueryError::BadBlockLength`] exactly where `block_len` is not from 1 to 128; else with
    /// [`QueryError::TooManySegments`] exactly where there are 4294967295 segments; else with [`QueryError::Memory`]
    /// alone.
    pub fn of_searcher(
        alloc: Global,
        searcher: Searcher,
        block_len: u32,
    ) -> Result<Index, QueryError>
        requires alike { AreOf searcher.schema searcher.segments }
        ensures segments { IfOk result (λ i. indexed i ≡ index_of_segments searcher block_len) }
        ensures statistics { IfOk result (λ i. statistics i ≡ with_segments searcher []) }
        ensures block_len { IsErrOf result QueryError.BadBlockLength ↔ ((block_len ≡ 0) ⊎ (128 < block_len)) }
        ensures many { IsErrOf result QueryError.TooManySegments ↔ IsFull block_len searcher.segments }
        ensures refreshed { IfOk result IsRefreshed }
        ensures merged { IfOk result IsMerged }
        ensures unsaved { IfOk result IsUnsaved }
        ensures refused { IfErr result IsSegmentsRefusal }
    {
        if !is_block_len(block_len) {
            return Err(QueryError::BadBlockLength);
        }
        let readers = searcher.segment_readers();
        let ended = readers.len();
        if ended >= MAX_SEGMENTS {
            return Err(QueryError::TooManySegments);
        }
        let ended_documents = count_documents(readers);
        let ends = ends_of(alloc, readers)?;
        Ok(Index {
            searcher,
            block_len,
            ended,
            ended_documents,
            ends,
            documents: Vec::new(alloc),
            built: 0,
            builder: None,
            saved: SavedFiles::none(alloc),
        })
    }

    /// The segments that were ended, in order. Constant time.
    pub fn ended_segments(&self) -> &[SegmentReader]
        ensures segments { segments_of result.now ≡ (indexed self.now).ended }
        ensures alike { AreOf (indexed self.now).current.schema result.now }
    {
        &self.searcher.segment_readers()[..self.ended]
    }

    /// Adds a document to the open segment, whose fields have these texts, as [`Index::add_given`] does. Costs what
    /// [`SegmentBuilder::add_document`] does, and keeps the texts.
    ///
    /// Refused with [`QueryError::TooManyDocuments`] exactly where the open segment has 2147483647
    /// documents; else with [`QueryError::BadDocument`] exactly where a field isn't in the schema, or two
    /// texts of one field have a word in common, or a text has more than 4294967295 words, want of memory
    /// aside; and else with [`QueryError::Memory`] alone. Then nothing is added, and what could be searched
    /// still can.
    pub fn add_document(
        &mut self,
        alloc: Global,
        texts: Vec<(Field, String)>,
    ) -> Result<(), QueryError>
        ensures added { OnOk result (indexed self.new ≡ with_document_of (indexed self.old) (texts_draft texts.items)) }
        ensures good { OnOk result (IsGood (indexed self.old).current.schema (texts_draft texts.items)) }
        ensures unchanged { OnErr result (indexed self.new ≡ indexed self.old) }
        ensures statistics { statistics self.new ≡ statistics self.old }
        ensures saved { self.new.saved ≡ self.old.saved }
        ensures refreshed { OnErr result (IsRefreshed self.old → IsRefreshed self.new) }
        ensures merged { IsMerged self.old → IsMerged self.new }
        ensures many { IsErrOf result QueryError.TooManyDocuments ↔ (length (indexed self.old).current.documents ≡ TERMINATED) }
        ensures refused { IfErr result (IsDocumentRefusal (indexed self.old).current (texts_draft texts.items)) }
    {
        self.add_given(alloc, GivenDocument::of_texts(alloc, texts))
    }

    /// Adds a document to the open segment: texts of its fields, terms with positions, and length ids, as they were
    /// given. Costs what [`SegmentBuilder::add_document`] does, and a copy of the terms and positions; what was given is
    /// kept until the segment has ended.
    ///
    /// Refused with [`QueryError::TooManyDocuments`] exactly where the open segment has 2147483647 documents; else with
    /// [`QueryError::BadDocument`] exactly where the field of a term or of a length id isn't in the schema, or a term
    /// has no positions, or some that don't ascend strictly or aren't below 4294967295, or was given twice, be it by a
    /// text, want of memory aside; and else with [`QueryError::Memory`] alone. Then nothing is added, and what could be
    /// searched still can.
    pub fn add_given(&mut self, alloc: Global, document: GivenDocument) -> Result<(), QueryError>
        ensures added { OnOk result (indexed self.new ≡ with_document_of (indexed self.old) document) }
        ensures good { OnOk result (IsGood (indexed self.old).current.schema document) }
        ensures unchanged { OnErr result (indexed self.new ≡ indexed self.old) }
        ensures statistics { statistics self.new ≡ statistics self.old }
        ensures saved { self.new.saved ≡ self.old.saved }
        ensures refreshed { OnErr result (IsRefreshed self.old → IsRefreshed self.new) }
        ensures merged { IsMerged self.old → IsMerged self.new }
        ensures many { IsErrOf result QueryError.TooManyDocuments ↔ (length (indexed self.old).current.documents ≡ TERMINATED) }
        ensures refused { IfErr result (IsDocumentRefusal (indexed self.old).current document) }
    {
        if self.documents.len() >= TERMINATED as usize {
            return Err(QueryError::TooManyDocuments);
        }
        self.documents.reserve(1)?;
        let mut builder = self.take_builder(alloc)?;
        let added = add_given(alloc, &mut builder, &document);
        self.builder = Some(builder);
        added?;
        let document = OpenDocument {
            given: document,
            is_deleted: false,
        };
        self.documents.push(document).unwrap();
        Ok(())
    }

    /// Deletes the document of this number over all segments, and answers whether there is one. It keeps
    /// its number, as all others do; to delete it again changes nothing more. Costs a search by halving
    /// among the segments that were ended, or a step for each part of the open one; and for the first
    /// deletion of a segment, or of a part, a step for each of its documents.
    ///
    /// Refused with [`QueryError::Memory`] alone, and then nothing was deleted.
    pub fn delete(&mut self, alloc: Global, number: u64) -> Result<bool, QueryError>
        ensures deleted { IfOk result (λ exists. Deletes number (indexed self.old) exists (indexed self.new)) }
        ensures unchanged { OnErr result (indexed self.new ≡ indexed self.old) }
        ensures statistics { statistics self.new ≡ statistics self.old }
        ensures saved { self.new.saved ≡ self.old.saved }
        ensures kept { (c : Contents) → IsKeptIn self.old c → IsKeptIn self.new c }
        ensures refreshed { IsRefreshed self.old → IsRefreshed self.new }
        ensures merged { IsMerged self.old → IsMerged self.new }
        ensures refused { IsOkUnless result QueryError.Memory }
    {
        if number < self.ended_documents {
            self.delete_ended(alloc, number)?;
            return Ok(true);
        }
        let place = number - self.ended_documents;
        if place >= self.documents.len() as u64 {
            return Ok(false);
        }
        if place < self.built as u64 {
            self.delete_built(alloc, place as usize)?;
        } else {
            self.mark_waiting(place as usize);
        }
        Ok(true)
    }

    /// Gives a term its weight from now on, in whole scores. Costs a search by halving, whatever the
    /// documents are.
    ///
    /// Asks that the weight is not below 0. Refused with [`QueryError::Memory`] alone, and then nothing
    /// has changed.
    pub fn set_weight(&mut self, term: Term, weight: Score) -> Result<(), QueryError>
        requires { pos 0 ≤ℤ weight }
        ensures set { OnOk result (statistics self.new ≡ with_weight (statistics self.old) term (nat_abs weight)) }
        ensures unchanged { OnErr result (statistics self.new ≡ statistics self.old) }
        ensures documents { indexed self.new ≡ indexed self.old }
        ensures saved { self.new.saved ≡ self.old.saved }
        ensures refreshed { IsRefreshed self.old → IsRefreshed self.new }
        ensures merged { IsMerged self.old → IsMerged self.new }
        ensures refused { IsOkUnless result QueryError.Memory }
    {
        self.searcher.set_weight(term, weight)
    }

    /// Gives each length id its norm from now on, in words. Takes no memory; costs a copy of the norms.
    ///
    /// Refused with [`QueryError::BadNorms`] exactly where a norm is less than the one before it, and then
    /// nothing has changed.
    pub fn set_norms(&mut self, norms: &[u32; 256]) -> Result<(), QueryError>
        ensures set { OnOk result (statistics self.new ≡ with_norms (statistics self.old) norms.now) }
        ensures unchanged { OnErr result (statistics self.new ≡ statistics self.old) }
        ensures documents { indexed self.new ≡ indexed self.old }
        ensures saved { self.new.saved ≡ self.old.saved }
        ensures refreshed { IsRefreshed self.old → IsRefreshed self.new }
        ensures merged { IsMerged self.old → IsMerged self.new }
        ensures bad_norms { IsErrOf result QueryError.BadNorms ↔ ¬ IsNonDecreasing norms.now }
        ensures refused { IsOkUnless result QueryError.BadNorms }
    {
        self.searcher.set_norms(norms)
    }

    /// Ends the open segment, and opens another. Where one part has all of its documents, as behind a
    /// [`Index::merge`], that part is the segment that is ended: it costs a step for each document, to let go of what was
    /// given. Else the documents that came since the last [`Index::refresh`] are built, which costs what they do, and the
    /// parts are joined by the rows that they keep, as [`Index::join_last_segments`] does it, each document no more often
    /// than the logarithm of their number.
    ///
    /// Refused with [`QueryError::TooManySegments`] exactly where there are 4294967295 with the open
    /// one, else with [`QueryError::Memory`] alone. Then it stays open. Where it is ended all documents can
    /// be searched, without a [`Index::refresh`].
    pub fn end_segment(&mut self, alloc: Global) -> Result<(), QueryError>
        ensures ended { OnOk result (indexed self.new ≡ with_segment_ended (indexed self.old)) }
        ensures unchanged { OnErr result (indexed self.new ≡ indexed self.old) }
        ensures statistics { statistics self.new ≡ statistics self.old }
        ensures saved { self.new.saved ≡ self.old.saved }
        ensures refreshed { OnOk result (IsRefreshed self.new) }
        ensures merged { OnOk result (IsMerged self.new) }
        ensures many { IsErrOf result QueryError.TooManySegments ↔ (length (all_segments (indexed self.old)) ≡ 4294967295) }
        ensures refused { IfErr result (λ e. (e ≡ QueryError.Memory) ⊎ (e ≡ QueryError.TooManySegments)) }
    {
        if self.ended + 1 >= MAX_SEGMENTS {
            return Err(QueryError::TooManySegments);
        }
        self.make_one_part(alloc)?;
        self.ends.reserve(1)?;
        self.ended += 1;
        self.ended_documents += self.documents.len() as u64;
        self.ends.push(self.ended_documents).unwrap();
        self.documents.clear();
        self.built = 0;
        Ok(())
    }

    /// Builds the documents that came since the last time, so that all of them can be searched.
    ///
    /// Refused with [`QueryError::Memory`] alone.
    pub fn refresh(&mut self, alloc: Global) -> Result<(), QueryError>
        ensures documents { indexed self.new ≡ indexed self.old }
        ensures statistics { statistics self.new ≡ statistics self.old }
        ensures saved { self.new.saved ≡ self.old.saved }
        ensures refreshed { OnOk result (IsRefreshed self.new) }
        ensures refused { IsOkUnless result QueryError.Memory }
    {
        if self.built == self.documents.len() {
            return Ok(());
        }
        self.take_small_parts_back();
        self.build_part(alloc)
    }

    /// The same, so that the open segment is one part at most, for a query that asks which terms the
    /// whole of it has. Costs what [`Index::end_segment`] does where it has several parts, or documents that are not
    /// built; else constant time.
    ///
    /// Refused with [`QueryError::Memory`] alone.
    pub fn merge(&mut self, alloc: Global) -> Result<(), QueryError>
        ensures documents { indexed self.new ≡ indexed self.old }
        ensures statistics { statistics self.new ≡ statistics self.old }
        ensures saved { self.new.saved ≡ self.old.saved }
        ensures refreshed { OnOk result (IsRefreshed self.new) }
        ensures merged { OnOk result (IsMerged self.new) }
        ensures refused { IsOkUnless result QueryError.Memory }
    {
        if self.built == self.documents.len() && self.part_count() <= 1 {
            return Ok(());
        }
        self.make_one_part(alloc)
    }

    /// What is searched: the segments that were ended, and behind them the parts of the open one. Asks
    /// that [`Index::refresh`] or [`Index::merge`] was called after the last document. Constant time.
    pub fn searcher(&self) -> &Searcher
        requires refreshed { IsRefreshed self.now }
        ensures statistics { with_segments result.now [] ≡ statistics self.now }
        ensures searched { AreSearched (indexed self.now) result.now.segments }
        ensures merged { IsMerged self.now → AreMerged (indexed self.now) result.now.segments }
        ensures parts { segments_of (drop (length (indexed self.now).ended) result.now.segments) ≡ open_parts self.now }
        ensures few { document_count result.now.segments ≤ 4294967295 * TERMINATED }
    {
        &self.searcher
    }

    /// How many segments were ended: those of the searcher behind them are the parts of the open one.
    pub fn ended(&self) -> usize
        ensures { result ≡ length (indexed self.now).ended }
    {
        self.ended
    }

    /// How many documents all segments have, deleted ones too.
    pub fn document_count(&self) -> u64
        ensures { result ≡ count_of (all_segments (indexed self.now)) }
    {
        self.ended_documents + self.documents.len() as u64
    }

    // Deletes the document of this number in the segment that it stands in, which was ended.
    fn delete_ended(&mut self, alloc: Global, number: u64) -> Result<(), QueryError>
        requires ended { number < self.old.ended_documents }
        ensures deleted { OnOk result (all_segments (indexed self.new) ≡ deleted_among (all_segments (indexed self.old)) number) }
        ensures unchanged { OnErr result (indexed self.new ≡ indexed self.old) }
        ensures statistics { statistics self.new ≡ statistics self.old }
        ensures saved { self.new.saved ≡ self.old.saved }
        ensures kept { (c : Contents) → IsKeptIn self.old c → IsKeptIn self.new c }
        ensures same { IsAsBuilt self.old self.new }
        ensures refused { IsOkUnless result QueryError.Memory }
    {
        let ended = &self.searcher.segment_readers()[..self.ended];
        let address = address_by_ends(ended, &self.ends, number);
        self.searcher.delete(alloc, address)?;
        Ok(())
    }

    // Deletes a document of the open segment in the part that has it, and marks it.
    fn delete_built(&mut self, alloc: Global, place: usize) -> Result<(), QueryError>
        requires built { place < self.old.built }
        ensures deleted { OnOk result (indexed self.new ≡ with_open_deleted (indexed self.old) place) }
        ensures unchanged { OnErr result (indexed self.new ≡ indexed self.old) }
        ensures statistics { statistics self.new ≡ statistics self.old }
        ensures saved { self.new.saved ≡ self.old.saved }
        ensures same { IsAsBuilt self.old self.new }
        ensures refused { IsOkUnless result QueryError.Memory }
    {
        let parts = &self.searcher.segment_readers()[self.ended..];
        let address = address_among(parts, self.ended as u32, place as u64);
        self.searcher.delete(alloc, address)?;
        self.documents[place].is_deleted = true;
        Ok(())
    }

    // Marks a document that no part has, to be deleted in the one that will.
    fn mark_waiting(&mut self, place: usize)
        requires waiting { self.old.built ≤ place }
        requires there { place < vec_len self.old.documents }
        ensures deleted { indexed self.new ≡ with_open_deleted (indexed self.old) place }
        ensures statistics { statistics self.new ≡ statistics self.old }
        ensures saved { self.new.saved ≡ self.old.saved }
        ensures same { IsAsBuilt self.old self.new }
    {
        self.documents[place].is_deleted = true;
    }

    // How many parts the open segment has.
    fn part_count(&self) -> usize
        ensures { result + self.now.ended ≡ length self.now.searcher.segments }
    {
        self.searcher.segment_readers().len() - self.ended
    }

    // Makes the documents that no part has a part, behind all others.
    fn build_part(&mut self, alloc: Global) -> Result<(), QueryError>
        ensures documents { indexed self.new ≡ indexed self.old }
        ensures statistics { statistics self.new ≡ statistics self.old }
        ensures saved { self.new.saved ≡ self.old.saved }
        ensures refreshed { OnOk result (IsRefreshed self.new) }
        ensures some { OnOk result (self.new.ended < length self.new.searcher.segments) }
        ensures ended { self.new.ended ≡ self.old.ended }
        ensures refused { IsOkUnless result QueryError.Memory }
    {
        self.make_room();
        let part = self.build_waiting(alloc)?;
        self.searcher.push_segment(part)?;
        self.built = self.documents.len();
        Ok(())
    }

    // Lets one more segment be searched: the ended ones leave room for one at least.
    fn make_room(&mut self)
        ensures documents { indexed self.new ≡ indexed self.old }
        ensures statistics { statistics self.new ≡ statistics self.old }
        ensures saved { self.new.saved ≡ self.old.saved }
        ensures ended { self.new.ended ≡ self.old.ended }
        ensures fewer { length self.new.searcher.segments ≤ length self.old.searcher.segments }
        ensures room { length self.new.searcher.segments < 4294967295 }
    {
        if self.searcher.segment_readers().len() >= MAX_SEGMENTS {
            self.take_parts_back();
        }
    }

    // A segment of the documents that no part has.
    fn build_waiting(&mut self, alloc: Global) -> Result<SegmentReader, QueryError>
        ensures segment { IfOk result (λ r. r.segment ≡ segment_of self.old.searcher.schema self.old.block_len (drop self.old.built self.old.documents.items)) }
        ensures searcher { self.new.searcher ≡ self.old.searcher }
        ensures block_len { self.new.block_len ≡ self.old.block_len }
        ensures ended { self.new.ended ≡ self.old.ended }
        ensures ended_documents { self.new.ended_documents ≡ self.old.ended_documents }
        ensures ends { self.new.ends ≡ self.old.ends }
        ensures documents { self.new.documents ≡ self.old.documents }
        ensures built { self.new.built ≡ self.old.built }
        ensures saved { self.new.saved ≡ self.old.saved }
        ensures taken { self.new.builder ≡ None }
        ensures refused { IsOkUnless result QueryError.Memory }
    {
        let mut builder = self.take_builder(alloc)?;
        delete_marked(&mut builder, &self.documents[self.built..])?;
        builder.build(alloc)
    }

    // Takes the last parts back, as long as one has fewer than twice the documents behind it.
    fn take_small_parts_back(&mut self)
        ensures documents { indexed self.new ≡ indexed self.old }
        ensures statistics { statistics self.new ≡ statistics self.old }
        ensures saved { self.new.saved ≡ self.old.saved }
    {
        // each part that was taken back had fewer than twice the documents behind it
        while self.part_count() > 0 {
            if self.last_part_len() >= 2 * (self.documents.len() - self.built) {
                return;
            }
            self.take_last_part_back();
        }
    }

    // Takes all parts back.
    fn take_parts_back(&mut self)
        ensures documents { indexed self.new ≡ indexed self.old }
        ensures statistics { statistics self.new ≡ statistics self.old }
        ensures saved { self.new.saved ≡ self.old.saved }
        ensures ended { self.new.ended ≡ self.old.ended }
        ensures none { length self.new.searcher.segments ≡ self.new.ended }
    {
        // the documents of the parts that were taken back stand in no part
        while self.part_count() > 0 {
            self.take_last_part_back();
        }
    }

    // How many documents the last part has.
    fn last_part_len(&self) -> usize
        requires { self.now.ended < length self.now.searcher.segments }
    {
        let readers = self.searcher.segment_readers();
        readers[readers.len() - 1].max_doc() as usize
    }

    // Leaves the documents of the last part to be built anew.
    fn take_last_part_back(&mut self)
        requires { self.old.ended < length self.old.searcher.segments }
        ensures documents { indexed self.new ≡ indexed self.old }
        ensures statistics { statistics self.new ≡ statistics self.old }
        ensures saved { self.new.saved ≡ self.old.saved }
        ensures ended { self.new.ended ≡ self.old.ended }
        ensures fewer { length self.new.searcher.segments < length self.old.searcher.segments }
    {
        if let Some(part) = self.searcher.pop_segment() {
            self.built -= part.max_doc() as usize;
            self.builder = None;
        }
    }

    // Takes the builder out, or makes one, that has the documents that no part has.
    fn take_builder(&mut self, alloc: Global) -> Result<SegmentBuilder, QueryError>
        ensures builder { IfOk result (λ b. b ≡ undeleted self.old.searcher.schema self.old.block_len (drop self.old.built self.old.documents.items)) }
        ensures searcher { self.new.searcher ≡ self.old.searcher }
        ensures block_len { self.new.block_len ≡ self.old.block_len }
        ensures ended { self.new.ended ≡ self.old.ended }
        ensures ended_documents { self.new.ended_documents ≡ self.old.ended_documents }
        ensures ends { self.new.ends ≡ self.old.ends }
        ensures documents { self.new.documents ≡ self.old.documents }
        ensures built { self.new.built ≡ self.old.built }
        ensures saved { self.new.saved ≡ self.old.saved }
        ensures taken { self.new.builder ≡ None }
        ensures refused { IsOkUnless result QueryError.Memory }
    {
        match self.builder.take() {
            Some(builder) => Ok(builder),
            None => self.reopen(alloc),
        }
    }

    // A builder that has the documents that no part has.
    fn reopen(&self, alloc: Global) -> Result<SegmentBuilder, QueryError>
        ensures builder { IfOk result (λ b. b ≡ undeleted self.now.searcher.schema self.now.block_len (drop self.now.built self.now.documents.items)) }
        ensures refused { IsOkUnless result QueryError.Memory }
    {
        let schema = self.searcher.schema();
        let mut builder = SegmentBuilder::new(alloc, schema, self.block_len)?;
        // the documents before this one are added
        for document in &self.documents[self.built..] {
            add_good(alloc, &mut builder, &document.given)?;
        }
        Ok(builder)
    }
}

// Whether postings may be cut into blocks of so many.
fn is_block_len(block_len: u32) -> bool
    ensures { (result ≡ true) ↔ ((0 < block_len) × (block_len ≤ 128)) }
{
    block_len > 0 && block_len <= 128
}
