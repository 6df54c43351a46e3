//! Segments that stay, and those that are written anew.

use crate::index::schema;
use crate::kept::Trouble;
use crate::kept::all_places::all_places;
use crate::kept::catalogue::Span;
use crate::kept::gone::Gone;
use crate::kept::home::Home;
use crate::kept::loaded::Loaded;
use crate::kept::segment::open_part;
use qm_postings::SegmentReader;
use qm_store::{KeptSegment, deletions_bytes};
use std::alloc::Global;

/// A segment that is kept, as it is to stand.
#[derive(Drop)]
pub struct Staying {
    /// Its files.
    pub segment: KeptSegment,
    /// What is known of it.
    pub span: Span,
    /// How many of its documents aren't deleted.
    pub alive: u32,
    /// What is to stand in another file of deletions, where more are deleted than before.
    pub deletions: Option<Vec<u8>>,
}

/// Segments that stay and others that are to be written.
#[derive(Drop)]
pub struct Sorted {
    /// Those that stay, the greatest first.
    pub staying: Vec<Staying>,
    /// Those that are to be written, the greatest first.
    pub anew: Vec<Loaded>,
}

impl Sorted {
    /// No segment yet.
    pub fn new(alloc: Global) -> Sorted {
        Sorted {
            staying: Vec::new(alloc),
            anew: Vec::new(alloc),
        }
    }

    /// Adds a segment that was kept, without the documents of the files that are gone. It stays as long as half of its
    /// documents are left, and is written anew without the others else.
    pub fn add(
        &mut self,
        rt: &HostRuntime,
        home: &Home,
        kept: KeptSegment,
        span: Span,
        gone: &Gone,
    ) -> Result<(), Trouble> {
        let staying = if gone.is_in(&span) {
            with_deleted(rt, home, kept, span, gone)?
        } else {
            as_it_was(kept, span)
        };
        if staying.alive == 0 {
            return Ok(());
        }
        if staying.alive < span.documents / 2 {
            self.anew.push(load(rt, home, kept, span, gone)?)?;
        } else {
            self.staying.push(staying)?;
        }
        Ok(())
    }

    /// Joins the smallest of those that are to be written with small ones that stay: so there are no more segments than
    /// the logarithm of how many documents there are, and none is joined more often.
    pub fn join_small(
        &mut self,
        rt: &HostRuntime,
        home: &Home,
        gone: &Gone,
    ) -> Result<(), Trouble> {
        self.staying.sort_by_key(|part| u32::MAX - part.alive)?;
        self.anew.sort_by_key(|part| u32::MAX - part.count())?;
        // each turn so far joined the last part to another, since one was small
        for _ in 0..self.staying.len() {
            if !self.has_small() {
                break;
            }
            self.join_last(rt, home, gone)?;
        }
        Ok(())
    }

    // Whether the smallest that stays has fewer than twice the documents of the smallest that is written.
    fn has_small(&self) -> bool {
        match (self.staying.last(), self.anew.last()) {
            (Some(part), Some(new)) => part.alive < new.count().saturating_mul(2),
            _ => false,
        }
    }

    // Joins the smallest that stays and the smallest that is written.
    fn join_last(&mut self, rt: &HostRuntime, home: &Home, gone: &Gone) -> Result<(), Trouble> {
        if let (Some(part), Some(new)) = (self.staying.pop(), self.anew.pop()) {
            let loaded = load(rt, home, part.segment, part.span, gone)?;
            let joined = loaded.joined(rt.alloc(), new)?;
            self.anew.push(joined)?;
        }
        Ok(())
    }
}

// A segment that stays as it was.
fn as_it_was(segment: KeptSegment, span: Span) -> Staying {
    Staying {
        segment,
        span,
        alive: span.documents.saturating_sub(segment.deleted),
        deletions: None,
    }
}

// A segment that stays without the documents of the files that are gone.
fn with_deleted(
    rt: &HostRuntime,
    home: &Home,
    segment: KeptSegment,
    span: Span,
    gone: &Gone,
) -> Result<Staying, Trouble> {
    let alloc = rt.alloc();
    let (schema, _) = schema(alloc)?;
    let part = open_part(rt, home, &schema, &segment)?;
    let mut reader = part.without_terms(alloc, &schema)?;
    drop(part);
    let places = all_places(rt, home, segment.key, reader.max_doc())?;
    let has_any = gone.delete_in(alloc, &mut reader, &places)?;
    drop(places);
    if has_any {
        deleted(alloc, segment, span, &reader)
    } else {
        Ok(as_it_was(segment, span))
    }
}

// A segment that stays without what is deleted in a reader of it.
fn deleted(
    alloc: Global,
    segment: KeptSegment,
    span: Span,
    reader: &SegmentReader,
) -> Result<Staying, Trouble> {
    let bytes = deletions_bytes(alloc, reader, segment.key)?;
    let alive = reader.num_docs();
    let deleted = reader.max_doc().saturating_sub(alive);
    Ok(Staying {
        segment: KeptSegment { deleted, ..segment },
        span,
        alive,
        deletions: Some(bytes),
    })
}

// A segment that is kept, whole in memory, without the documents that are deleted and those of the files that are gone.
fn load(
    rt: &HostRuntime,
    home: &Home,
    segment: KeptSegment,
    span: Span,
    gone: &Gone,
) -> Result<Loaded, Trouble> {
    let alloc = rt.alloc();
    let (schema, _) = schema(alloc)?;
    let part = open_part(rt, home, &schema, &segment)?;
    let mut reader = part.whole(alloc, &schema)?;
    drop(part);
    let places = all_places(rt, home, segment.key, reader.max_doc())?;
    if gone.is_in(&span) {
        gone.delete_in(alloc, &mut reader, &places)?;
    }
    Loaded::alive(alloc, reader, places)
}
