//! A segment that is kept as the bytes of a file, of which a row is read again, or those of several terms, or all.

ghost use Rattle.std.specs.Prelude.{◌≡◌, [], IfOk};
ghost use Rattle.qm_postings.specs.Restriction.{restricted};
ghost use Rattle.qm_postings.specs.Segment.{keeps_positions, without};
ghost use Rattle.qm_store.specs.Stored.{kept_row};
ghost use Rattle.qm_store.specs.Wanted.{AreApart, is_wanted};

use crate::bytes_callers::keeps_positions;
use qm_postings::{SegmentReader, TermRow};
use qm_schema::Term;
use qm_store::{StoreError, StoredSegment, Wanted, segment_bytes};
use std::alloc::Global;

/// Writes a segment, opens what was written, and reads the row of a term there: it is the row that the segment has of
/// the term, with its positions where its field keeps them; and none where the segment has none.
pub fn row_through_file(
    alloc: Global,
    segment: &SegmentReader,
    term: &Term,
    key: u64,
) -> Result<Option<TermRow>, StoreError>
    ensures { IfOk result (λ row. row ≡ kept_row (keeps_positions segment.now.segment.schema term.now.field) term.now segment.now.rows) }
{
    let bytes = segment_bytes(alloc, segment, key)?;
    let stored = StoredSegment::open(alloc, bytes, segment.schema(), key)?;
    let has_positions = keeps_positions(segment.schema(), term.field());
    stored.row(alloc, term, has_positions)
}

/// Writes a segment, opens what was written, and reads the segment of what is wanted there, which is apart: it has the
/// documents of the first, none of them deleted, and they hold the wanted terms alone.
pub fn wanted_through_file(
    alloc: Global,
    segment: &SegmentReader,
    wanted: &[Wanted],
    key: u64,
) -> Result<SegmentReader, StoreError>
    requires apart { AreApart wanted.now }
    ensures { IfOk result (λ it. it.segment ≡ restricted (is_wanted wanted.now) (without [] segment.now.segment)) }
{
    let bytes = segment_bytes(alloc, segment, key)?;
    let stored = StoredSegment::open(alloc, bytes, segment.schema(), key)?;
    let some = stored.with_wanted(alloc, segment.schema(), wanted)?;
    Ok(some)
}

/// Writes a segment, opens what was written, and reads it whole: it is the first, none of its documents deleted.
pub fn whole_through_file(
    alloc: Global,
    segment: &SegmentReader,
    key: u64,
) -> Result<SegmentReader, StoreError>
    ensures { IfOk result (λ it. it.segment ≡ without [] segment.now.segment) }
{
    let bytes = segment_bytes(alloc, segment, key)?;
    let stored = StoredSegment::open(alloc, bytes, segment.schema(), key)?;
    let whole = stored.whole(alloc, segment.schema())?;
    Ok(whole)
}
