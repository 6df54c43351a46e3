//! The documents that a query finds in an index, by their numbers, a page at a time.

ghost use Rattle.std.specs.Prelude.{◌≡◌, ◌≤◌, ◌*◌, ◌<◌, ◌+◌, IfOk, OnOk, length};
ghost use Rattle.qm_docset.specs.Entry.{from};
ghost use Rattle.qm_docset.specs.Lists.{IsPlaced};
ghost use Rattle.qm_docset.specs.declared.numbers.TheConstants.{TERMINATED};
ghost use Rattle.qm_index.specs.Indexed.{indexed, statistics};
ghost use Rattle.qm_index.specs.Parts.{segments_of};
ghost use Rattle.qm_postings.specs.Segment.{is_alive};
ghost use Rattle.qm_script.specs.BestListed.{alive_numbers};
ghost use Rattle.qm_script.specs.Parts.{document_count};
ghost use Rattle.qm_script.specs.ProgramNumbers.{most_segments};
ghost use Rattle.qm_script.specs.Searching.{IsPageIn};
ghost use Rattle.qm_script.specs.Spelled.{query_of};
ghost use Rattle.qm_weight.specs.Weights.{tree_of};

use crate::query_builder::build_query;
use crate::searching::make_ready;
use crate::spelled_query::SpelledQuery;
use qm_combine::EmptyScorer;
use qm_docset::{DocId, DocSet, TERMINATED};
use qm_index::Index;
use qm_postings::{Searcher, SegmentReader};
use qm_query::{EnableScoring, fitting_weight};
use qm_schema::QueryError;
use qm_scorer::AnyScorer;
use qm_weight::{AnyWeight, Weight};
use std::alloc::{AllocError, Global};

/// The documents of an index that match a query and weren't deleted, ascending, from a number on, at most so many: the
/// next page begins one past the last of them. Builds what [`crate::count_hits`] does. Segments before the number are
/// passed over, and in its own the scorer seeks it; a page costs what its scorers do, and a step a document.
///
/// Refused as the constructors of its queries and [`fitting_weight`] are.
pub fn page_hits(
    alloc: Global,
    index: &mut Index,
    spelled: &SpelledQuery,
    from: u64,
    limit: usize,
) -> Result<Vec<u64>, QueryError>
    ensures page { IfOk result (λ page. IsPageIn (query_of spelled.now) (indexed index.old) from limit page.items) }
    ensures few { IfOk result (λ page. length page.items ≤ limit) }
    ensures documents { indexed index.new ≡ indexed index.old }
    ensures statistics { statistics index.new ≡ statistics index.old }
{
    let query = build_query(alloc, spelled)?;
    make_ready(alloc, index, spelled)?;
    let searcher = index.searcher();
    let enable_scoring = EnableScoring::<Searcher>::disabled_from_searcher(searcher);
    let weight = fitting_weight(&query, alloc, enable_scoring)?;
    let mut page = Page::new(alloc, from, limit);
    page.fill(alloc, searcher.segment_readers(), &weight)?;
    Ok(page.documents)
}

/// The first documents that were found from a number on, at most so many.
#[derive(Drop)]
struct Page {
    from: u64,
    limit: usize,
    documents: Vec<u64>,
}

impl Page {
    ghost use Rattle.qm_script.specs.Paging.{Appends, IsBegun, Takes, alive_numbered, numbers_in};

    // Without documents.
    fn new(alloc: Global, from: u64, limit: usize) -> Page
        ensures begun { IsBegun from limit result }
    {
        Page {
            from,
            limit,
            documents: Vec::new(alloc),
        }
    }

    // Takes what a weight finds in some segments that wasn't deleted.
    fn fill(
        &mut self,
        alloc: Global,
        segments: &[SegmentReader],
        weight: &AnyWeight,
    ) -> Result<(), QueryError>
        requires few { document_count (segments_of segments.now) ≤ most_segments * TERMINATED }
        requires limited { length self.old.documents.items ≤ self.old.limit }
        ensures taken { OnOk result (Takes (alive_numbers (tree_of weight.now) (segments_of segments.now)) self.old self.new) }
    {
        let mut first: u64 = 0;
        // what the segments before this one have is taken
        for segment in segments {
            self.take_segment(alloc, segment, weight, first)?;
            first += u64::from(segment.max_doc());
        }
        Ok(())
    }

    // Takes what a weight finds in one segment, whose first document has this number.
    fn take_segment(
        &mut self,
        alloc: Global,
        segment: &SegmentReader,
        weight: &AnyWeight,
        first: u64,
    ) -> Result<(), QueryError>
        requires few { first ≤ most_segments * TERMINATED }
        requires limited { length self.old.documents.items ≤ self.old.limit }
        ensures taken { OnOk result (Takes (numbers_in (tree_of weight.now) first segment.now.segment) self.old self.new) }
    {
        let next = first + u64::from(segment.max_doc());
        if next <= self.from || self.limit <= self.documents.len() {
            return Ok(());
        }
        let mut scorer: AnyScorer<EmptyScorer> = weight.scorer(alloc, segment, 1)?;
        let start = (self.from.max(first) - first) as DocId;
        self.take_from(&mut scorer, segment, first, start)?;
        Ok(())
    }

    // Takes what a cursor over a segment has left from a document on that wasn't deleted.
    fn take_from<D: DocSet>(
        &mut self,
        cursor: &mut D,
        segment: &SegmentReader,
        first: u64,
        start: DocId,
    ) -> Result<(), AllocError>
        requires few { first ≤ most_segments * TERMINATED }
        requires placed { IsPlaced D.DocSet cursor.old }
        requires start { start ≤ TERMINATED }
        requires limited { length self.old.documents.items ≤ self.old.limit }
        ensures taken { OnOk result (Appends (alive_numbered segment.now.segment first (from start (D.entries cursor.old))) self.old self.new) }
    {
        let mut document = cursor.seek(start);
        // with what the cursor has left, as far as there is room, all is taken
        while document != TERMINATED && self.documents.len() < self.limit {
            if is_alive(segment, document) {
                self.documents.push(first + u64::from(document))?;
            }
            document = cursor.advance();
        }
        Ok(())
    }
}

// Whether a document of a segment wasn't deleted.
fn is_alive(segment: &SegmentReader, document: DocId) -> bool
    ensures { result ≡ is_alive segment.now.segment document }
{
    match segment.alive_bitset() {
        Some(alive) => alive.is_alive(document),
        None => document < segment.max_doc(),
    }
}
