//! Segments in memory, to be written.

use crate::kept::Trouble;
use qm_merge::{leave_out_deleted, merge};
use qm_postings::SegmentReader;
use qm_store::DocumentPlace;
use std::alloc::{AllocError, Global};

/// A segment in memory, and where each of its documents stands.
#[derive(Drop)]
pub struct Loaded {
    /// The segment, of which no document is deleted.
    pub segment: SegmentReader,
    /// Where each of its documents stands.
    pub places: Vec<DocumentPlace>,
}

impl Loaded {
    /// A segment with these places, without what is deleted of it.
    pub fn alive(
        alloc: Global,
        segment: SegmentReader,
        places: Vec<DocumentPlace>,
    ) -> Result<Loaded, Trouble> {
        let left = alive_places(alloc, &segment, &places)?;
        let segment = if segment.has_deletes() {
            leave_out_deleted(alloc, &segment)?
        } else {
            segment
        };
        Ok(Loaded {
            segment,
            places: left,
        })
    }

    /// How many documents it has.
    pub fn count(&self) -> u32 {
        self.segment.max_doc()
    }

    /// This one, and the documents of another behind it.
    pub fn joined(self, alloc: Global, other: Loaded) -> Result<Loaded, Trouble> {
        let Loaded { segment, places } = self;
        let segment = merge(alloc, &segment, &other.segment)?;
        let mut places = places;
        places.extend_from_slice(&other.places)?;
        Ok(Loaded { segment, places })
    }
}

// The places of the documents that aren't deleted.
fn alive_places(
    alloc: Global,
    segment: &SegmentReader,
    places: &[DocumentPlace],
) -> Result<Vec<DocumentPlace>, AllocError> {
    let mut left = Vec::with_capacity(alloc, places.len())?;
    let alive = segment.alive_bitset();
    // the places of the documents before this one that are alive are there
    for (doc, place) in places.iter().enumerate() {
        let is_alive = match alive {
            Some(alive) => alive.is_alive(u32::try_from(doc).unwrap_or(u32::MAX)),
            None => true,
        };
        if is_alive {
            left.push(*place)?;
        }
    }
    Ok(left)
}
