//! The terms of a field, and their postings.

ghost use Rattle.std.specs.Prelude.{◌≡◌, ◌≤◌, ◌+◌, [], if◌then◌else◌, drop, map, take, length, IsSome, IfSome, ◌↔◌};
ghost use Rattle.qm_docset.specs.Entry.{no_limits, plain};
ghost use Rattle.qm_docset.specs.Lists.{Lists};
ghost use Rattle.qm_schema.specs.Term.{TermKey};
ghost use Rattle.qm_postings.specs.Segment.{holders};
ghost use Rattle.qm_postings.specs.Frequencies.{listed};
ghost use Rattle.qm_postings.specs.FieldIndex.{AreCounted, IsHeld, IsInfoOf, ListsInfo, ListsPostings, reading, shown};
ghost use Rattle.qm_postings.specs.Kept.{in_range, positions_in};
ghost use Rattle.std.specs.Option.{option_copied};
ghost use Rattle.qm_postings.specs.TermRange.{AreTermsBetween, terms_left};
ghost use Rattle.qm_postings.specs.Blocks.{HaveLeastIds, term_blocks};
ghost use Rattle.qm_postings.specs.SegmentPostings.{LooksHere, postings_blocks, postings_left, reads};

mod place_of;
mod sought_term;
mod term_order;
mod term_range;

use crate::freq_reading_option::FreqReadingOption;
use crate::frequencies::{Frequencies, FrequencyPart};
use crate::segment_postings::SegmentPostings;
use crate::segment_reader::{SegmentReader, TermEntry};
use crate::term_arrays::{BlockInfo, TermArrays};
use crate::term_documents::TermDocuments;
use place_of::place_of;
use qm_docset::{DocId, DocSet};
use qm_schema::{Field, IndexRecordOption, Term};
use sought_term::SoughtTerm;
use term_order::terms_before;
pub use term_range::TermRange;

/// What an index knows of a term that some document holds.
#[derive(Clone, Copy, Debug, PartialEq, Eq, Hash)]
pub struct TermInfo {
    /// How many documents hold the term, deleted ones too.
    pub doc_freq: u32,
    ordinal: usize,
}

/// The terms of a field of a segment, and their postings. A term of another field has none here.
#[derive(Clone, Copy, Debug)]
pub struct InvertedIndex<'a> {
    reader: &'a SegmentReader,
    field: Field,
}

impl<'a> InvertedIndex<'a> {
    pub(crate) fn new(reader: &'a SegmentReader, field: Field) -> InvertedIndex<'a>
        ensures { shown result ≡ record { reader = reader.now; field = field } }
    {
        InvertedIndex { reader, field }
    }

    /// What is known of a term, and `None` exactly where no document holds it, or it is of another
    /// field. Costs the same however many terms the segment has, as a rule, and at most the logarithm of
    /// their number; no memory.
    pub fn get_term_info(&self, term: &Term) -> Option<TermInfo>
        ensures held { IsSome result ↔ IsHeld (shown self.now) term.now }
        ensures info { IfSome result (λ info. IsInfoOf (shown self.now) term.now info) }
    {
        if term.field() != self.field {
            return None;
        }
        let reader = self.reader;
        let ordinal = place_of(reader, SoughtTerm::new(term))?;
        Some(TermInfo {
            doc_freq: reader.terms[ordinal].doc_freq,
            ordinal,
        })
    }

    /// The postings of a term: exactly the documents that hold it, each with its frequency, where
    /// the field keeps frequencies and they are asked for, and else with 1, and with its positions,
    /// where the field keeps positions and they are asked for, and else with none. Their `max_term_freq` is
    /// the greatest frequency of the term in the segment, whatever was asked for. `None` exactly where no
    /// document holds the term, or it is of another field. Costs what [`get_term_info`](Self::get_term_info)
    /// does; copies nothing and takes no memory.
    pub fn read_postings(
        &self,
        term: &Term,
        option: IndexRecordOption,
    ) -> Option<SegmentPostings<'a>>
        ensures held { IsSome result ↔ IsHeld (shown self.now) term.now }
        ensures lists { IfSome result (ListsPostings ⟦<SegmentPostings<'a> as DocSet>⟧ (shown self.now).reader.segment option term.now) }
        ensures counted { IfSome result (λ p. AreCounted (shown self.now).reader.segment option term.now.field (postings_left p)) }
        ensures reading { IfSome result (λ p. reads p ≡ reading (shown self.now).reader.segment.schema option (shown self.now).field) }
        ensures blocks { IfSome result (λ p. postings_blocks p ≡ term_blocks (shown self.now).reader.segment option term.now) }
        ensures looked { IfSome result LooksHere }
        ensures ids { IfSome result (λ p. HaveLeastIds (shown self.now).reader.segment term.now.field (postings_blocks p) (postings_left p)) }
    {
        let info = self.get_term_info(term)?;
        Some(self.read_postings_from_terminfo(&info, option))
    }

    /// The documents that hold a term, and `None` exactly where no document does, or it is of another field. Costs what
    /// [`get_term_info`](Self::get_term_info) does; copies nothing and takes no memory.
    pub fn read_documents(&self, term: &Term) -> Option<TermDocuments<'a>>
        ensures held { IsSome result ↔ IsHeld (shown self.now) term.now }
        ensures lists { IfSome result (λ s. Lists ⟦<TermDocuments<'a> as DocSet>⟧ s (map plain (holders (shown self.now).reader.segment term.now)) no_limits) }
    {
        let info = self.get_term_info(term)?;
        let reader = self.reader;
        let entry = &reader.terms[info.ordinal];
        Some(TermDocuments::new(documents_part(&reader.documents, entry)))
    }

    /// The postings of the term that the info is of, as [`read_postings`](Self::read_postings)
    /// gives them, in constant time. Asks for an info of this index; copies nothing and takes no
    /// memory.
    pub fn read_postings_from_terminfo(
        &self,
        info: &TermInfo,
        option: IndexRecordOption,
    ) -> SegmentPostings<'a>
        requires { (term : TermKey) × IsInfoOf (shown self.now) term info.now }
        ensures lists { ListsInfo ⟦<SegmentPostings<'a> as DocSet>⟧ (shown self.now) option info.now result }
        ensures counted { AreCounted (shown self.now).reader.segment option (shown self.now).field (postings_left result) }
        ensures reading { reads result ≡ reading (shown self.now).reader.segment.schema option (shown self.now).field }
        ensures blocks { (term : TermKey) → IsInfoOf (shown self.now) term info.now → postings_blocks result ≡ term_blocks (shown self.now).reader.segment option term }
        ensures looked { LooksHere result }
        ensures ids { HaveLeastIds (shown self.now).reader.segment (shown self.now).field (postings_blocks result) (postings_left result) }
    {
        let reader = self.reader;
        let entry = &reader.terms[info.ordinal];
        let arrays = TermArrays {
            documents: documents_part(&reader.documents, entry),
            frequencies: frequencies_part(&reader.frequencies, entry),
            positions: positions_asked(&reader.positions, entry, option.has_positions()),
            blocks: blocks_from(
                &reader.blocks,
                reader.block_starts[info.ordinal],
                (entry.doc_freq as usize).div_ceil(reader.block_len as usize),
            ),
            block_len: reader.block_len as usize,
            max_term_freq: entry.max_term_freq,
        };
        SegmentPostings::new(arrays, self.freq_reading(option))
    }

    /// The terms of the field whose texts lie in a range, in byte order, each with what the index
    /// knows of it: those that are not before `ge`, and before `lt` where there is one. Costs the
    /// logarithm of the number of the segment's terms, and no memory.
    pub fn term_range(&self, ge: &[u8], lt: Option<&[u8]>) -> TermRange<'a>
        ensures { AreTermsBetween (shown self.now) ge.now (option_copied lt.entry) (terms_left result) }
    {
        let reader = self.reader;
        let terms = reader.terms.as_slice();
        let field = u64::from(self.field.field_id());
        let next = terms_before(terms, field, ge);
        let end = match lt {
            Some(lt) => terms_before(terms, field, lt),
            None => terms_before(terms, field + 1, &[]),
        };
        TermRange { reader, next, end }
    }

    fn freq_reading(&self, option: IndexRecordOption) -> FreqReadingOption
        ensures { result ≡ reading (shown self.now).reader.segment.schema option (shown self.now).field }
    {
        let reader = self.reader;
        let kept = match reader.schema.get_field_entry(self.field) {
            Some(entry) => match entry.index_record_option() {
                Some(kept) => kept.has_freq(),
                None => false,
            },
            None => false,
        };
        match (kept, option.has_freq()) {
            (false, _) => FreqReadingOption::NoFreq,
            (true, false) => FreqReadingOption::SkipFreq,
            (true, true) => FreqReadingOption::ReadFreq,
        }
    }
}

// The documents of a term, of those of all postings.
fn documents_part<'a>(documents: &'a [DocId], entry: &TermEntry) -> &'a [DocId]
    requires { entry.now.start + entry.now.count ≤ length documents.now }
    ensures { result.now ≡ in_range entry.now documents.now }
{
    let end = entry.start + entry.doc_freq as usize;
    &documents[entry.start..end]
}

// The frequencies of a term, of those of all postings.
fn frequencies_part<'a>(frequencies: &'a Frequencies, entry: &TermEntry) -> FrequencyPart<'a>
    requires { entry.now.start + entry.now.count ≤ length frequencies.now }
    ensures { listed result ≡ in_range entry.now frequencies.now }
{
    frequencies.part(entry.start, entry.doc_freq as usize)
}

// So many blocks from a place on.
fn blocks_from(blocks: &[BlockInfo], start: usize, count: usize) -> &[BlockInfo]
    requires { start + count ≤ length blocks.now }
    ensures { result.now ≡ take count (drop start blocks.now) }
{
    &blocks[start..start + count]
}

// The positions of a term, where they are asked for.
fn positions_asked<'a>(positions: &'a [u32], entry: &TermEntry, are_asked: bool) -> &'a [u32]
    requires { entry.now.positions_start + entry.now.positions_count ≤ length positions.now }
    ensures { result.now ≡ (if are_asked then positions_in entry.now positions.now else []) }
{
    if !are_asked {
        return &[];
    }
    let end = entry.positions_start + entry.positions_count;
    &positions[entry.positions_start..end]
}
