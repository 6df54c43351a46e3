//! The files of an index that are to be written.

use crate::kept::Trouble;
use crate::kept::catalogue::Span;
use crate::kept::loaded::Loaded;
use crate::kept::names::{deletions_name, places_name, segment_name};
use crate::kept::staying::Staying;
use qm_folder::NewFile;
use qm_store::{DocumentPlace, KeptSegment, places_bytes, segment_bytes};
use std::alloc::Global;

/// The files of an index that are to be written, and which segments it has then.
#[derive(Drop)]
pub struct Plan {
    // a number that no file has
    next: u64,
    /// The files.
    pub files: Vec<NewFile>,
    /// The segments.
    pub segments: Vec<KeptSegment>,
    /// What is known of each.
    pub spans: Vec<Span>,
}

impl Plan {
    /// No file yet; from that number on there are none.
    pub fn new(alloc: Global, next: u64) -> Plan {
        Plan {
            next,
            files: Vec::new(alloc),
            segments: Vec::new(alloc),
            spans: Vec::new(alloc),
        }
    }

    // A number that no file has, and no other will get.
    fn take_number(&mut self) -> Result<u64, Trouble> {
        let number = self.next;
        match number.checked_add(1) {
            Some(next) => {
                self.next = next;
                Ok(number)
            }
            None => Err(Trouble::Damaged),
        }
    }

    /// Adds a segment that stays.
    pub fn stay(&mut self, alloc: Global, staying: Staying) -> Result<(), Trouble> {
        let Staying {
            segment,
            span,
            deletions,
            ..
        } = staying;
        let mut segment = segment;
        if let Some(bytes) = deletions {
            let number = self.take_number()?;
            let name = deletions_name(alloc, number)?;
            self.files.push(NewFile { name, bytes })?;
            segment.deletions = number;
        }
        self.push(segment, span)
    }

    /// Adds a segment that is written.
    pub fn write(&mut self, alloc: Global, loaded: Loaded) -> Result<(), Trouble> {
        let Loaded { segment, places } = loaded;
        let key = self.take_number()?;
        let span = span_of(segment.max_doc(), &places);
        let name = segment_name(alloc, key)?;
        let bytes = segment_bytes(alloc, &segment, key)?;
        drop(segment);
        self.files.push(NewFile { name, bytes })?;
        let name = places_name(alloc, key)?;
        let bytes = places_bytes(alloc, &places, key)?;
        self.files.push(NewFile { name, bytes })?;
        let segment = KeptSegment {
            key,
            deletions: 0,
            deleted: 0,
        };
        self.push(segment, span)
    }

    fn push(&mut self, segment: KeptSegment, span: Span) -> Result<(), Trouble> {
        self.segments.push(segment)?;
        self.spans.push(span)?;
        Ok(())
    }

    /// Whether a file of that number is one of the index.
    pub fn names(&self, number: u64) -> bool {
        self.segments.iter().any(|segment| segment.key == number || segment.deletions == number)
    }
}

// What is known of a segment with so many documents, which stand there.
fn span_of(documents: u32, places: &[DocumentPlace]) -> Span {
    let files = places.iter().map(|place| place.file);
    let first = files.fold(u32::MAX, |least, file| file.min(least));
    let files = places.iter().map(|place| place.file);
    let last = files.fold(0, |greatest: u32, file| file.max(greatest));
    Span {
        documents,
        first,
        last,
    }
}
