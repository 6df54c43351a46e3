//! The documents of all files, to be searched.

use crate::files::Source;
use crate::kept::{KeptSegments, Trouble};
use crate::lengths::norms;
use birch_text::{Clause, Scope, named_word};
use birchagain::rarity;
use qm_docset::DocSet;
use qm_postings::{DocAddress, Searcher, SegmentReader};
use qm_schema::{Field, IndexRecordOption, QueryError, Schema, Term};
use qm_store::DocumentPlace;
use std::alloc::Global;

/// How much was read.
#[derive(Clone, Copy)]
pub struct Tally {
    /// Documents.
    pub documents: u64,
    /// Words of these.
    pub words: u64,
    /// Bytes of the files.
    pub bytes: u64,
}

/// The fields of a document.
#[derive(Clone, Copy)]
pub struct Fields {
    /// Its text.
    pub text: Field,
    /// The name of its file.
    pub name: Field,
    /// The words of its own fields, each with its field's name before it.
    pub named: Field,
}

impl Fields {
    /// The term of a word that a clause asks for.
    pub fn term(&self, alloc: Global, clause: &Clause, word: &str) -> Result<Term, QueryError> {
        match &clause.scope {
            Scope::Text => Term::from_field_text(alloc, self.text, word),
            Scope::FileName => Term::from_field_text(alloc, self.name, word),
            Scope::Field(name) => {
                let word = named_word(alloc, name.as_str(), word)?;
                Term::from_field_text(alloc, self.named, word.as_str())
            }
        }
    }
}

/// The schema of all documents.
pub fn schema(alloc: Global) -> Result<(Schema, Fields), QueryError> {
    schema_with(alloc, IndexRecordOption::WithFreqsAndPositions)
}

/// The schema of all documents, of whose words so much is kept.
pub fn schema_with(
    alloc: Global,
    option: IndexRecordOption,
) -> Result<(Schema, Fields), QueryError> {
    let option = Some(option);
    let mut schema = Schema::builder(alloc);
    let text = schema.add_text_field("text", option, true)?;
    let name = schema.add_text_field("name", option, false)?;
    let named = schema.add_text_field("named", option, true)?;
    Ok((schema.build(), Fields { text, name, named }))
}

// Where the segments are, and where each of their documents stands.
#[derive(Drop)]
enum Origin {
    // the segments were made in this run, and these are the places of the documents of each
    Made(Vec<Vec<DocumentPlace>>),
    // they are kept, and of them is read what a query wants
    Kept(KeptSegments),
}

/// The documents of all files, to be searched.
#[derive(Drop)]
pub struct Index {
    /// The segments, and what words weigh.
    pub searcher: Searcher,
    /// The fields of each document.
    pub fields: Fields,
    /// The files.
    pub files: Vec<Source>,
    /// How much was read.
    pub tally: Tally,
    origin: Origin,
    // the norm of each length id
    norms: [u32; 256],
}

impl Index {
    /// Over these segments, of which each has its documents' places.
    pub fn new(
        alloc: Global,
        segments: Vec<SegmentReader>,
        places: Vec<Vec<DocumentPlace>>,
        files: Vec<Source>,
        tally: Tally,
    ) -> Result<Index, QueryError> {
        Index::of(alloc, segments, Origin::Made(places), files, tally)
    }

    /// Over segments that are kept.
    pub fn of_kept(
        alloc: Global,
        kept: KeptSegments,
        files: Vec<Source>,
        tally: Tally,
    ) -> Result<Index, QueryError> {
        let none = Vec::new(alloc);
        Index::of(alloc, none, Origin::Kept(kept), files, tally)
    }

    fn of(
        alloc: Global,
        segments: Vec<SegmentReader>,
        origin: Origin,
        files: Vec<Source>,
        tally: Tally,
    ) -> Result<Index, QueryError> {
        let (schema, fields) = schema(alloc)?;
        let norms = norms(tally.documents, tally.words);
        let searcher = Searcher::new(alloc, schema, segments, Vec::new(alloc), 0, norms)?;
        Ok(Index {
            searcher,
            fields,
            files,
            tally,
            origin,
            norms,
        })
    }

    /// The segments that are kept, where they are.
    pub fn kept(&self) -> Option<&KeptSegments> {
        match &self.origin {
            Origin::Kept(kept) => Some(kept),
            Origin::Made(_) => None,
        }
    }

    /// Has the searcher all that a query of these clauses looks at.
    pub fn want(&mut self, alloc: Global, clauses: &[&Clause]) -> Result<(), Trouble> {
        if let Origin::Kept(kept) = &mut self.origin {
            if let Some(searcher) = kept.searcher(alloc, self.fields, clauses, self.norms)? {
                self.searcher = searcher;
            }
        }
        Ok(())
    }

    /// Where a document stands, by the number of its file in this index.
    pub fn place(
        &self,
        alloc: Global,
        address: DocAddress,
    ) -> Result<Option<DocumentPlace>, Trouble> {
        match &self.origin {
            Origin::Made(places) => {
                let Some(places) = places.get(address.segment_ord as usize) else {
                    return Ok(None);
                };
                Ok(places.get(address.doc_id as usize).copied())
            }
            Origin::Kept(kept) => kept.place(alloc, address),
        }
    }

    /// How many documents hold a term.
    pub fn held(&self, term: &Term) -> u64 {
        let mut held: u64 = 0;
        // how many documents of the segments before this one hold the term
        for segment in self.searcher.segment_readers() {
            held = held.saturating_add(u64::from(held_in(segment, term)));
        }
        held
    }

    /// What words weigh, by which a query is scored: none weighs anything yet.
    pub fn statistics(&self, alloc: Global) -> Result<Searcher, QueryError> {
        let (schema, _) = schema(alloc)?;
        let none = Vec::new(alloc);
        Searcher::new(alloc, schema, none, Vec::new(alloc), 0, self.norms)
    }

    /// Has a term weigh what its rarity says.
    pub fn weigh(
        &self,
        alloc: Global,
        statistics: &mut Searcher,
        term: &Term,
    ) -> Result<(), QueryError> {
        let weight = rarity(self.tally.documents, self.held(term));
        let weight = i64::try_from(weight).unwrap_or(i64::MAX);
        statistics.set_weight(term.clone(alloc)?, weight)
    }
}

/// How many documents of a segment hold a term. Those that are deleted have the postings that they had.
pub fn held_in(segment: &SegmentReader, term: &Term) -> u32 {
    let index = segment.inverted_index(term.field());
    match segment.alive_bitset() {
        None => match index.get_term_info(term) {
            Some(info) => info.doc_freq,
            None => 0,
        },
        Some(alive) => match index.read_documents(term) {
            Some(documents) => {
                let mut documents = documents;
                documents.count(alive)
            }
            None => 0,
        },
    }
}
