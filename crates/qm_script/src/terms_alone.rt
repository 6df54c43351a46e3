//! The segment of the same documents, in which they hold some terms alone.

ghost use Rattle.std.specs.Prelude.{◌≡◌, IfOk, IsOkUnless, OnOk, [], length, map};
ghost use Rattle.std.specs.List.Sorted.{IsStrictlySortedBy};
ghost use Rattle.qm_postings.specs.Reading.{IsOfRows};
ghost use Rattle.qm_postings.specs.Restriction.{restricted, rows_wanted};
ghost use Rattle.qm_postings.specs.Rows.{columns_of};
ghost use Rattle.qm_postings.specs.Segment.{without};
ghost use Rattle.qm_schema.specs.Term.{term_cmp};
ghost use Rattle.qm_script.specs.Wanted.{is_wanted};

use crate::row_places::row_place;
use qm_postings::{RowsError, SegmentReader, TermRow};
use qm_schema::{Field, QueryError, Term};
use std::alloc::Global;

/// The segment of the same documents, with the same length ids and the same deleted ones, in which they hold these terms
/// alone, which ascend. Costs a step for each posting and position of them, a copy of the length ids, and where documents
/// were deleted a step for each document.
///
/// Refused with [`QueryError::Memory`] alone.
pub(crate) fn with_terms_alone(
    alloc: Global,
    segment: &SegmentReader,
    terms: &[Term],
) -> Result<SegmentReader, QueryError>
    requires ascending { IsStrictlySortedBy term_cmp terms.now }
    ensures restricted { IfOk result (λ it. it.segment ≡ restricted (is_wanted terms.now) segment.now.segment) }
    ensures refused { IsOkUnless result QueryError.Memory }
{
    let mut made = undeleted_with_terms(alloc, segment, terms)?;
    delete_as_in(alloc, &mut made, segment)?;
    Ok(made)
}

// The same, of which no document is deleted.
fn undeleted_with_terms(
    alloc: Global,
    segment: &SegmentReader,
    terms: &[Term],
) -> Result<SegmentReader, QueryError>
    requires ascending { IsStrictlySortedBy term_cmp terms.now }
    ensures restricted { IfOk result (λ it. it.segment ≡ restricted (is_wanted terms.now) (without [] segment.now.segment)) }
    ensures refused { IsOkUnless result QueryError.Memory }
{
    let rows = rows_of_terms(alloc, segment, terms)?;
    let lengths = all_columns(alloc, segment)?;
    let made = SegmentReader::from_rows(
        alloc,
        segment.schema(),
        segment.block_len(),
        segment.max_doc(),
        lengths,
        rows,
    );
    match made {
        Ok(some) => Ok(some),
        Err(RowsError::Memory) => Err(QueryError::Memory),
        // some rows of a segment are those of a segment too
        Err(RowsError::NotRows) => unreachable!(),
    }
}

// Copies of the rows of these terms.
fn rows_of_terms(
    alloc: Global,
    segment: &SegmentReader,
    terms: &[Term],
) -> Result<Vec<TermRow>, QueryError>
    requires ascending { IsStrictlySortedBy term_cmp terms.now }
    ensures rows { IfOk result (λ rows. rows.items ≡ rows_wanted (is_wanted terms.now) segment.now.rows) }
    ensures whole { OnOk result (IsOfRows segment.now) }
    ensures refused { IsOkUnless result QueryError.Memory }
{
    let most = terms.len().min(segment.row_count());
    let mut rows = Vec::with_capacity(alloc, most)?;
    // those of the terms before it are there
    for term in terms {
        if let Some(place) = row_place(segment, term) {
            rows.push(segment.row(place).copy(alloc)?)?;
        }
    }
    Ok(rows)
}

// Copies of the length ids of all fields.
fn all_columns(alloc: Global, segment: &SegmentReader) -> Result<Vec<Vec<u8>>, QueryError>
    ensures columns { IfOk result (λ columns. map (λ c. c.items) columns.items ≡ columns_of segment.now.segment) }
    ensures refused { IsOkUnless result QueryError.Memory }
{
    let mut columns = Vec::new(alloc);
    // those before it are there
    for field in 0..segment.schema().field_count() {
        let ids = segment.length_ids(Field::from_field_id(field));
        let mut column = Vec::with_capacity(alloc, ids.len())?;
        column.extend_from_slice(ids)?;
        columns.push(column)?;
    }
    Ok(columns)
}

// Deletes in a segment what is deleted in another, which has as many documents.
fn delete_as_in(
    alloc: Global,
    segment: &mut SegmentReader,
    other: &SegmentReader,
) -> Result<(), QueryError>
    requires same { length segment.old.segment.documents ≡ length other.now.segment.documents }
    requires none { segment.old.segment.deleted ≡ [] }
    ensures deleted { OnOk result (segment.new.segment ≡ without other.now.segment.deleted segment.old.segment) }
    ensures refused { IsOkUnless result QueryError.Memory }
{
    let Some(alive) = other.alive_bitset() else {
        return Ok(());
    };
    // those before it are deleted where they are there
    for doc in 0..segment.max_doc() {
        if !alive.is_alive(doc) {
            segment.delete(alloc, doc)?;
        }
    }
    Ok(())
}
