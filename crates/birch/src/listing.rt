//! What of the documents that were found is listed.

use qm_postings::DocAddress;
use qm_store::DocumentPlace;
use std::alloc::{AllocError, Global};
use std::collections::BTreeMap;
use std::hash::{DefaultHasher, Hasher};

/// Which documents are one result together.
#[derive(Clone, Copy, PartialEq, Eq)]
pub enum Unit {
    /// Those of one text.
    Text,
    /// Those of one file.
    File,
    /// Each is one by itself.
    Document,
}

/// A result: the document of it that was found first.
#[derive(Drop)]
pub struct Hit {
    /// What it scores.
    pub score: i64,
    /// Its address in the index.
    pub address: DocAddress,
    /// Where it stands.
    pub place: DocumentPlace,
    /// Its text, where that was read: nothing where it can't be read any more.
    pub text: Option<String>,
    /// How many more documents have the same text; 0 where each file or each document is a result.
    pub more: u64,
}

/// Makes results of documents, which it takes in the order in which they were found.
#[derive(Drop)]
pub struct Listing {
    unit: Unit,
    wanted: usize,
    hits: Vec<Hit>,
    // the number of the result of a file, by the file's number, or of a text, by a digest
    numbers: BTreeMap<u64, usize>,
    // whether a document has come that would be one result more than are wanted
    is_passed: bool,
}

impl Listing {
    /// With no result yet, of so many at most.
    pub fn new(alloc: Global, unit: Unit, wanted: usize) -> Listing {
        Listing {
            unit,
            wanted,
            hits: Vec::new(alloc),
            numbers: BTreeMap::new(alloc),
            is_passed: false,
        }
    }

    /// How many documents are looked for at first. Of texts it is one more than results are wanted, which shows
    /// whether more may be the same as the last.
    pub fn first_limit(&self) -> usize {
        match self.unit {
            Unit::Text => self.wanted.saturating_add(1),
            Unit::File | Unit::Document => self.wanted,
        }
    }

    /// Whether a document has to be read to say which result it is of.
    pub fn wants_text(&self) -> bool {
        self.unit == Unit::Text
    }

    /// Whether no other document is wanted: all results are there, and of each text it is known how many have it.
    pub fn is_enough(&self) -> bool {
        self.is_passed || self.unit != Unit::Text && self.hits.len() >= self.wanted
    }

    /// Whether a document of this score, and all behind it, are none that is wanted: there are as many results, and
    /// it is not the same as the last one, since what is the same scores alike.
    pub fn is_behind(&self, score: i64) -> bool {
        if self.hits.len() < self.wanted {
            return false;
        }
        match self.hits.last() {
            Some(last) => self.is_enough() || last.score != score,
            None => true,
        }
    }

    /// Takes the next document.
    ///
    /// Refused for want of memory alone.
    pub fn add(&mut self, hit: Hit) -> Result<(), AllocError> {
        let key = self.key_of(&hit);
        if let Some(number) = self.number_of(key, &hit) {
            self.add_to(number);
            return Ok(());
        }
        let number = self.hits.len();
        if number >= self.wanted {
            self.is_passed = true;
            return Ok(());
        }
        if let Some(key) = key {
            self.numbers.insert(key, number)?;
        }
        self.hits.push(hit)?;
        Ok(())
    }

    /// The results, in the order in which they were found.
    pub fn into_hits(self) -> Vec<Hit> {
        self.hits
    }

    // What documents of one result have in common; none where there may be no other.
    fn key_of(&self, hit: &Hit) -> Option<u64> {
        match (self.unit, &hit.text) {
            (Unit::File, _) => Some(u64::from(hit.place.file)),
            (Unit::Text, Some(text)) if !text.is_empty() => Some(digest_of(text.as_str())),
            _ => None,
        }
    }

    // The number of the result that a document is of. Texts of one digest are compared.
    fn number_of(&self, key: Option<u64>, hit: &Hit) -> Option<usize> {
        let number = *self.numbers.get(&key?)?;
        let first = self.hits.get(number)?;
        if self.unit == Unit::File || has_text_of(hit, first) {
            Some(number)
        } else {
            None
        }
    }

    // Counts one more document of a result. Of a file not all are looked for, so none is counted.
    fn add_to(&mut self, number: usize) {
        if self.unit == Unit::File {
            return;
        }
        if let Some(hit) = self.hits.get_mut(number) {
            hit.more = hit.more.saturating_add(1);
        }
    }
}

fn has_text_of(hit: &Hit, first: &Hit) -> bool {
    match (&hit.text, &first.text) {
        (Some(text), Some(other)) => text.as_str() == other.as_str(),
        _ => false,
    }
}

fn digest_of(text: &str) -> u64 {
    let mut hasher = DefaultHasher::new();
    hasher.write(text.as_bytes());
    hasher.finish()
}
