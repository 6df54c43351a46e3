//! What a person asks for, read.

use crate::accents::Accents;
use crate::clause::{Clause, Scope};
use crate::part_places::PartPlaces;
use crate::query_fault::{Fault, QueryFault};
use crate::query_tree::QueryTree;
use crate::words::WordReader;
use qm_parser::{ParsedLeaf, ParsedQuery, Sign, parse_query};
use std::alloc::{AllocError, Global};
use std::mem;

/// The name of the field that has the words of a file's own name, where documents have no fields.
const NAME: &str = "name";

/// By what a score is multiplied at most.
const MOST_BOOST: u64 = 2_147_483_647;

/// Which fields a query may name.
#[derive(Clone, Copy, PartialEq, Eq)]
pub enum QueryFields {
    /// `name:`, which has the words of a file's own name.
    FileName,
    /// Those of the documents, whatever they are called.
    Any,
}

// What is said of a part by what stands around it.
#[derive(Clone, Copy)]
struct Around<'p> {
    // the name of the field that is asked
    field: Option<&'p str>,
    boost: u32,
}

// Makes what a query asks for of its tree.
#[derive(Drop)]
struct QueryReader<'a> {
    alloc: Global,
    query: &'a str,
    fields: QueryFields,
    words: WordReader,
    // where the next word, phrase, star or name stands, and the places behind it
    place: usize,
    places: PartPlaces<'a>,
}

/// What a query asks for, in the language of [`parse_query`]. The words of each word and phrase are cut
/// and folded as those of a text; several make a phrase. A list of clauses with a `-` alone asks for all
/// other documents.
///
/// Refused with the place where it isn't understood, and for want of memory.
pub fn read_query(
    alloc: Global,
    accents: Accents,
    fields: QueryFields,
    query: &str,
) -> Result<QueryTree, QueryFault> {
    let parsed = parse_query(alloc, query)?;
    let mut reader = QueryReader {
        alloc,
        query,
        fields,
        words: WordReader::new(alloc, accents),
        place: 0,
        places: PartPlaces::new(query),
    };
    reader.next_place();
    let around = Around {
        field: None,
        boost: 1,
    };
    match reader.tree(&parsed, around) {
        Ok(QueryTree::Nothing) => Err(fault(Fault::Nothing, query.len())),
        read => read,
    }
}

// The error that something is wrong at a place.
fn fault(fault: Fault, place: usize) -> QueryFault {
    QueryFault::NotUnderstood { fault, place }
}

impl<'a> QueryReader<'a> {
    // Where the next word, phrase, star or name stands; goes past it.
    fn next_place(&mut self) -> usize {
        mem::replace(&mut self.place, self.places.next_place())
    }

    // What a part of the query asks for.
    fn tree(&mut self, parsed: &ParsedQuery, around: Around<'_>) -> Result<QueryTree, QueryFault> {
        match parsed {
            ParsedQuery::Empty => Ok(QueryTree::Nothing),
            ParsedQuery::Leaf(leaf) => self.leaf(leaf, around),
            ParsedQuery::Field(name, inner) => {
                let around = self.in_field(name.as_str(), around)?;
                self.tree(inner, around)
            }
            ParsedQuery::Boost(factor, inner) => {
                let around = self.boosted(*factor, around)?;
                self.tree(inner, around)
            }
            ParsedQuery::Boolean(clauses) => {
                let mut parts = Vec::new(self.alloc);
                let mut is_only_not = true;
                // the clauses before this one are parts
                for (sign, clause) in clauses {
                    is_only_not = is_only_not && *sign == Sign::MustNot;
                    parts.push((*sign, self.tree(clause, around)?))?;
                }
                if is_only_not {
                    parts.push((Sign::Must, QueryTree::All(around.boost)))?;
                }
                Ok(QueryTree::Several(parts))
            }
        }
    }

    // What is said of a part behind the name of a field.
    fn in_field<'p>(
        &mut self,
        name: &'p str,
        around: Around<'p>,
    ) -> Result<Around<'p>, QueryFault> {
        let place = self.next_place();
        if self.fields == QueryFields::FileName && name != NAME {
            return Err(fault(Fault::NoField, place));
        }
        Ok(Around {
            field: Some(name),
            ..around
        })
    }

    // What is said of a part before a boost.
    fn boosted<'p>(&self, factor: u32, around: Around<'p>) -> Result<Around<'p>, QueryFault> {
        let product = u64::from(around.boost).saturating_mul(u64::from(factor));
        match u32::try_from(product) {
            Ok(boost) if product <= MOST_BOOST => Ok(Around { boost, ..around }),
            _ => Err(fault(Fault::BoostTooGreat, self.place)),
        }
    }

    // What a word, a phrase or a star asks for.
    fn leaf(&mut self, leaf: &ParsedLeaf, around: Around<'_>) -> Result<QueryTree, QueryFault> {
        let place = self.next_place();
        let (text, is_prefix, slop) = match leaf {
            ParsedLeaf::All => return Ok(QueryTree::All(around.boost)),
            ParsedLeaf::Word(text) => (text, false, 0),
            ParsedLeaf::Phrase { text, slop } => (text, false, *slop),
            ParsedLeaf::Prefix(text) | ParsedLeaf::PhrasePrefix(text) => (text, true, 0),
        };
        let is_phrase = !matches!(leaf, ParsedLeaf::Word(_) | ParsedLeaf::Prefix(_));
        if is_phrase && text.as_str().ends_with('*') {
            return Err(self.star_in_phrase(place));
        }
        let scope = self.scope_of(around)?;
        let words = self.words.words_of(self.alloc, text.as_str())?;
        if words.is_empty() {
            return Err(fault(Fault::NoWord, place));
        }
        Ok(QueryTree::Clause(Clause {
            scope,
            words,
            is_prefix,
            slop,
            boost: around.boost,
        }))
    }

    // Where a part is asked for.
    fn scope_of(&self, around: Around<'_>) -> Result<Scope, AllocError> {
        match (self.fields, around.field) {
            (_, None) => Ok(Scope::Text),
            (QueryFields::FileName, Some(_)) => Ok(Scope::FileName),
            (QueryFields::Any, Some(name)) => Ok(Scope::Field(String::from_str(self.alloc, name)?)),
        }
    }

    // The error that a phrase at a place ends in a `*`: that would be taken for the beginning of a word, but is none.
    fn star_in_phrase(&self, place: usize) -> QueryFault {
        let phrase = self.query.get(place..).unwrap_or("");
        let before = phrase.find("*\"").unwrap_or(0);
        fault(Fault::StarInPhrase, place.saturating_add(before))
    }
}
