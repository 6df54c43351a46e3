//! A segment that is kept.

ghost use Rattle.qm_store.specs.Wanted.{AreApart};

use crate::kept::Trouble;
use crate::kept::all_places::all_places;
use crate::kept::gone::Gone;
use crate::kept::home::Home;
use crate::kept::names::{deletions_name, places_name, segment_name};
use crate::kept::reading::{open_file, read_whole};
use qm_docset::DocId;
use qm_postings::SegmentReader;
use qm_schema::Schema;
use qm_store::{
    DocumentPlace, KeptSegment, SegmentFile, StoredPlaces, StoredSegment, Wanted, delete_stored,
    deletions_bytes, wanted_of,
};
use std::alloc::Global;

/// A segment that is kept, and its files.
#[derive(Drop)]
pub struct KeptPart {
    segment: StoredSegment<SegmentFile>,
    places: StoredPlaces<SegmentFile>,
    key: u64,
    // the bytes of its file of deletions, where there is one
    deletions: Option<Vec<u8>>,
}

/// Opens the files of a segment.
pub fn open_part(
    rt: &HostRuntime,
    home: &Home,
    schema: &Schema,
    kept: &KeptSegment,
) -> Result<KeptPart, Trouble> {
    let alloc = rt.alloc();
    let key = kept.key;
    let segment = open_segment(rt, home, schema, key)?;
    let places = open_places(rt, home, key, segment.max_doc())?;
    let deletions = if kept.deletions == 0 {
        None
    } else {
        let name = deletions_name(alloc, kept.deletions)?;
        Some(read_whole(rt, home, name.as_str())?)
    };
    Ok(KeptPart {
        segment,
        places,
        key,
        deletions,
    })
}

fn open_segment(
    rt: &HostRuntime,
    home: &Home,
    schema: &Schema,
    key: u64,
) -> Result<StoredSegment<SegmentFile>, Trouble> {
    let alloc = rt.alloc();
    let name = segment_name(alloc, key)?;
    let file = open_file(rt, home, name.as_str())?;
    Ok(StoredSegment::open(alloc, file, schema, key)?)
}

fn open_places(
    rt: &HostRuntime,
    home: &Home,
    key: u64,
    count: DocId,
) -> Result<StoredPlaces<SegmentFile>, Trouble> {
    let alloc = rt.alloc();
    let name = places_name(alloc, key)?;
    let file = open_file(rt, home, name.as_str())?;
    Ok(StoredPlaces::open(alloc, file, key, count)?)
}

impl KeptPart {
    /// The segment as if it had no terms but those that are wanted.
    pub fn read_wanted(
        &self,
        alloc: Global,
        schema: &Schema,
        wanted: &[Wanted],
    ) -> Result<SegmentReader, Trouble>
        requires apart { AreApart wanted.now }
    {
        let mut segment = self.segment.with_wanted(alloc, schema, wanted)?;
        if let Some(bytes) = &self.deletions {
            delete_stored(alloc, &mut segment, self.key, bytes)?;
        }
        Ok(segment)
    }

    /// The segment as if it had no terms.
    pub fn without_terms(&self, alloc: Global, schema: &Schema) -> Result<SegmentReader, Trouble> {
        let wanted = wanted_of(alloc, Vec::new(alloc), Vec::new(alloc))?;
        self.read_wanted(alloc, schema, &wanted)
    }

    /// Leaves out the documents of these files too.
    pub fn leave_out(
        &mut self,
        rt: &HostRuntime,
        home: &Home,
        schema: &Schema,
        files: &Gone,
    ) -> Result<(), Trouble> {
        let alloc = rt.alloc();
        let mut segment = self.without_terms(alloc, schema)?;
        let places = all_places(rt, home, self.key, segment.max_doc())?;
        if files.delete_in(alloc, &mut segment, &places)? {
            self.deletions = Some(deletions_bytes(alloc, &segment, self.key)?);
        }
        Ok(())
    }

    /// The whole segment.
    pub fn whole(&self, alloc: Global, schema: &Schema) -> Result<SegmentReader, Trouble> {
        let mut segment = self.segment.whole(alloc, schema)?;
        if let Some(bytes) = &self.deletions {
            delete_stored(alloc, &mut segment, self.key, bytes)?;
        }
        Ok(segment)
    }

    /// Where a document stands.
    pub fn place(&self, alloc: Global, doc: DocId) -> Result<DocumentPlace, Trouble> {
        if doc >= self.places.max_doc() {
            return Err(Trouble::Damaged);
        }
        Ok(self.places.place(alloc, doc)?)
    }
}
