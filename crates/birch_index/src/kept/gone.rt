//! Files whose documents are left out.

use crate::kept::Trouble;
use crate::kept::catalogue::{Catalogue, Span};
use qm_docset::DocId;
use qm_postings::SegmentReader;
use qm_store::DocumentPlace;
use std::alloc::{AllocError, Global};

/// The numbers of files that are gone, or are read anew, or not searched, ascending.
#[derive(Drop)]
pub struct Gone {
    numbers: Vec<u32>,
}

impl Gone {
    /// The files at these places of a catalogue.
    pub fn of(alloc: Global, catalogue: &Catalogue, places: &[usize]) -> Result<Gone, AllocError> {
        let mut numbers = Vec::with_capacity(alloc, places.len())?;
        // the numbers of the places before this one are there
        for place in places {
            // what was left out has no documents
            if let Some(number) = number_at(catalogue, *place) {
                numbers.push(number)?;
            }
        }
        Ok(Gone::new(numbers))
    }

    /// Files with these numbers.
    pub fn new(numbers: Vec<u32>) -> Gone {
        let mut numbers = numbers;
        numbers.sort_unstable();
        Gone { numbers }
    }

    /// Whether there are none.
    pub fn is_empty(&self) -> bool {
        self.numbers.is_empty()
    }

    /// Whether a segment may have documents of one of them.
    pub fn is_in(&self, span: &Span) -> bool {
        let before = self.numbers.partition_point(|number| *number < span.first);
        match self.numbers.get(before) {
            Some(number) => *number <= span.last,
            None => false,
        }
    }

    /// Deletes their documents in a segment, each of which stands at its place; and answers whether there are any.
    pub fn delete_in(
        &self,
        alloc: Global,
        segment: &mut SegmentReader,
        places: &[DocumentPlace],
    ) -> Result<bool, Trouble> {
        let mut has_any = false;
        // the documents before this one whose files are gone are deleted
        for (doc, place) in places.iter().enumerate() {
            if self.numbers.binary_search(&place.file).is_ok() {
                delete(alloc, segment, doc)?;
                has_any = true;
            }
        }
        Ok(has_any)
    }
}

fn number_at(catalogue: &Catalogue, place: usize) -> Option<u32> {
    catalogue.known.get(place)?.number
}

fn delete(alloc: Global, segment: &mut SegmentReader, doc: usize) -> Result<(), Trouble> {
    let doc = DocId::try_from(doc).unwrap_or(DocId::MAX);
    if doc >= segment.max_doc() {
        return Err(Trouble::Damaged);
    }
    Ok(segment.delete(alloc, doc)?)
}
