//! Segments that are kept, of which is read what a query wants.

ghost use Rattle.std.specs.Prelude.{IfOk};
ghost use Rattle.qm_store.specs.Wanted.{AreApart};

use crate::index::{Fields, Tally, schema, schema_with};
use crate::kept::Trouble;
use crate::kept::segment::KeptPart;
use birch_text::{Clause, Scope};
use qm_postings::{DocAddress, Searcher, SegmentReader};
use qm_schema::{IndexRecordOption, QueryError, Schema, Term};
use qm_store::{DocumentPlace, StoreError, Wanted, wanted_of};
use std::alloc::{AllocError, Global};

/// Segments that are kept, of which is read what a query wants.
#[derive(Drop)]
pub struct KeptSegments {
    parts: Vec<KeptPart>,
    // the numbers of the files, ascending, and the place of each among the files of the index
    numbers: Vec<(u32, u32)>,
    // how many files were read to bring the index up to date
    read: usize,
    // how many postings may still be read of single rows, before all rows are
    left: u64,
    // whether all rows were read
    is_whole: bool,
}

/// How many words stand there for each posting that is read of single rows. What all rows cost is then no more than a few
/// times what was read before, however many queries there are.
const WORDS_OF_POSTING: u64 = 4;

impl KeptSegments {
    /// These, of files with these numbers in their order, which have so much, of which so many were read in this run.
    pub fn new(
        alloc: Global,
        parts: Vec<KeptPart>,
        numbers: &[u32],
        tally: Tally,
        read: usize,
    ) -> Result<KeptSegments, AllocError> {
        let mut placed = Vec::with_capacity(alloc, numbers.len())?;
        // the numbers before this one are there, each beside its place
        for (place, number) in numbers.iter().enumerate() {
            placed.push((*number, u32::try_from(place).unwrap_or(u32::MAX)))?;
        }
        placed.sort_unstable();
        Ok(KeptSegments {
            parts,
            numbers: placed,
            read,
            left: tally.words / WORDS_OF_POSTING,
            is_whole: false,
        })
    }

    /// How many there are.
    pub fn count(&self) -> usize {
        self.parts.len()
    }

    /// How many files were read in this run to bring the index up to date.
    pub fn read(&self) -> usize {
        self.read
    }

    /// A searcher over the segments as if they had no terms but those that these clauses ask for; none where the one
    /// that was given before has them all. That has once many queries have read as much as is a part of all.
    pub fn searcher(
        &mut self,
        alloc: Global,
        fields: Fields,
        clauses: &[&Clause],
        norms: [u32; 256],
    ) -> Result<Option<Searcher>, Trouble> {
        if self.is_whole {
            return Ok(None);
        }
        if self.left == 0 {
            let searcher = self.whole_searcher(alloc, norms)?;
            self.is_whole = true;
            return Ok(Some(searcher));
        }
        let searcher = self.searcher_of(alloc, fields, clauses, norms)?;
        let read = postings_in(searcher.segment_readers());
        self.left = self.left.saturating_sub(read);
        Ok(Some(searcher))
    }

    // A searcher over the whole segments.
    fn whole_searcher(&self, alloc: Global, norms: [u32; 256]) -> Result<Searcher, Trouble> {
        let (schema, _) = schema(alloc)?;
        let mut segments = Vec::with_capacity(alloc, self.parts.len())?;
        // the parts before this one are read whole
        for part in &self.parts {
            segments.push(part.whole(alloc, &schema)?)?;
        }
        let none = Vec::new(alloc);
        Ok(Searcher::new(alloc, schema, segments, none, 0, norms)?)
    }

    // A searcher over the segments as if they had no terms but those that these clauses ask for.
    fn searcher_of(
        &self,
        alloc: Global,
        fields: Fields,
        clauses: &[&Clause],
        norms: [u32; 256],
    ) -> Result<Searcher, Trouble> {
        let wanted = wanted_by(alloc, fields, clauses)?;
        // places within a document are asked for by phrases alone
        let has_phrases = clauses.iter().any(|clause| clause.words.len() > 1);
        let option = if has_phrases {
            IndexRecordOption::WithFreqsAndPositions
        } else {
            IndexRecordOption::WithFreqs
        };
        let (schema, _) = schema_with(alloc, option)?;
        let segments = self.read_wanted(alloc, &schema, &wanted)?;
        let none = Vec::new(alloc);
        Ok(Searcher::new(alloc, schema, segments, none, 0, norms)?)
    }

    // Reads of each segment what is wanted.
    fn read_wanted(
        &self,
        alloc: Global,
        schema: &Schema,
        wanted: &[Wanted],
    ) -> Result<Vec<SegmentReader>, Trouble>
        requires apart { AreApart wanted.now }
    {
        let mut segments = Vec::with_capacity(alloc, self.parts.len())?;
        // of the parts before this one what is wanted is read
        for part in &self.parts {
            segments.push(part.read_wanted(alloc, schema, wanted)?)?;
        }
        Ok(segments)
    }

    /// Where a document stands, by the place of its file among those of the index.
    pub fn place(
        &self,
        alloc: Global,
        address: DocAddress,
    ) -> Result<Option<DocumentPlace>, Trouble> {
        let Some(part) = self.parts.get(address.segment_ord as usize) else {
            return Ok(None);
        };
        let place = part.place(alloc, address.doc_id)?;
        match self.place_of_file(place.file) {
            Some(file) => Ok(Some(DocumentPlace { file, ..place })),
            None => Err(Trouble::Damaged),
        }
    }

    // The place of the file with that number.
    fn place_of_file(&self, number: u32) -> Option<u32> {
        let found = self.numbers.binary_search_by_key(&number, |file| file.0);
        let place = self.numbers.get(found.ok()?)?;
        Some(place.1)
    }
}

// How many postings segments have.
fn postings_in(segments: &[SegmentReader]) -> u64 {
    let mut count: u64 = 0;
    // the postings of the segments before this one are counted
    for segment in segments {
        // and those of the rows before this one
        for place in 0..segment.row_count() {
            let documents = segment.row(place).documents().len();
            count = count.saturating_add(documents as u64);
        }
    }
    count
}

// What these clauses want of a segment.
fn wanted_by(alloc: Global, fields: Fields, clauses: &[&Clause]) -> Result<Vec<Wanted>, StoreError>
    ensures apart { IfOk result (λ wanted. AreApart wanted.items) }
{
    let mut terms = Vec::new(alloc);
    let mut beginnings = Vec::new(alloc);
    if push_wanted(alloc, fields, clauses, &mut terms, &mut beginnings).is_err() {
        return Err(StoreError::Memory);
    }
    wanted_of(alloc, terms, beginnings)
}

// Adds the words of these clauses, and those of which all words are wanted that begin so.
fn push_wanted(
    alloc: Global,
    fields: Fields,
    clauses: &[&Clause],
    terms: &mut Vec<Term>,
    beginnings: &mut Vec<Term>,
) -> Result<(), QueryError> {
    // the terms and beginnings of the clauses before this one are there
    for clause in clauses {
        if let Scope::Field(_) = clause.scope {
            // whether there is such a field
            terms.push(fields.term(alloc, clause, "")?)?;
        }
        let last = clause.words.len().saturating_sub(1);
        // and those of the words before this one
        for (number, word) in clause.words.iter().enumerate() {
            let term = fields.term(alloc, clause, word.as_str())?;
            if clause.is_prefix && number == last {
                beginnings.push(term)?;
            } else {
                terms.push(term)?;
            }
        }
    }
    Ok(())
}
