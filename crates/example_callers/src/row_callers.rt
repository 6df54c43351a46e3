//! What a caller finds in a segment of the rows of some terms alone: what it would find in the whole one.

ghost use Rattle.std.specs.Prelude.{◌≡◌, IfOk, IsOkUnless, OnOk, [], map};
ghost use Rattle.example_callers.specs.Found.{is_wanted};
ghost use Rattle.qm_postings.specs.Reading.{IsOfRows};
ghost use Rattle.qm_postings.specs.Restriction.{restricted, rows_wanted};
ghost use Rattle.qm_postings.specs.Rows.{columns_of};
ghost use Rattle.qm_postings.specs.Segment.{without};
ghost use Rattle.qm_weight.specs.Names.{Names};
ghost use Rattle.qm_weight.specs.Tree.{matching};

use crate::weight_callers::join_matches;
use qm_docset::DocId;
use qm_postings::{RowsError, SegmentReader, TermRow};
use qm_schema::{Field, QueryError, Term};
use qm_weight::Weight;
use std::alloc::Global;

/// The documents of a segment that a weight matches, found in the rows of these terms alone, which are all that the
/// weight names, and those that its prefixes are expanded to.
pub fn join_matches_of_terms<W: Weight>(
    alloc: Global,
    weight: &W,
    reader: &SegmentReader,
    terms: &[Term],
) -> Result<Vec<DocId>, QueryError>
    requires { Names (is_wanted terms.now) reader.now.segment (W.tree weight.now) }
    ensures { IfOk result (λ v. v.items ≡ matching (W.tree weight.now) reader.now.segment) }
{
    let some = with_terms_alone(alloc, reader, terms)?;
    join_matches(alloc, weight, &some)
}

/// The segment of the same documents, none of them deleted, in which they hold these terms alone. Refused for want of
/// memory alone.
pub fn with_terms_alone(
    alloc: Global,
    reader: &SegmentReader,
    terms: &[Term],
) -> Result<SegmentReader, QueryError>
    ensures restricted { IfOk result (λ it. it.segment ≡ restricted (is_wanted terms.now) (without [] reader.now.segment)) }
    ensures refused { IsOkUnless result QueryError.Memory }
{
    let rows = rows_of_terms(alloc, reader, terms)?;
    let lengths = all_columns(alloc, reader)?;
    let made = SegmentReader::from_rows(
        alloc,
        reader.schema(),
        reader.block_len(),
        reader.max_doc(),
        lengths,
        rows,
    );
    match made {
        Ok(some) => Ok(some),
        Err(RowsError::Memory) => Err(QueryError::Memory),
        // some rows of a segment are those of a segment too
        Err(RowsError::NotRows) => unreachable!(),
    }
}

// Copies of the rows of these terms.
fn rows_of_terms(
    alloc: Global,
    reader: &SegmentReader,
    terms: &[Term],
) -> Result<Vec<TermRow>, QueryError>
    ensures rows { IfOk result (λ rows. rows.items ≡ rows_wanted (is_wanted terms.now) reader.now.rows) }
    ensures whole { OnOk result (IsOfRows reader.now) }
    ensures refused { IsOkUnless result QueryError.Memory }
{
    let mut rows = Vec::new(alloc);
    // those before it are there, as far as they are wanted
    for place in 0..reader.row_count() {
        let row = reader.row(place);
        if terms.contains(row.term()) {
            rows.push(row.copy(alloc)?)?;
        }
    }
    Ok(rows)
}

// Copies of the length ids of all fields.
fn all_columns(alloc: Global, reader: &SegmentReader) -> Result<Vec<Vec<u8>>, QueryError>
    ensures columns { IfOk result (λ columns. map (λ c. c.items) columns.items ≡ columns_of reader.now.segment) }
    ensures refused { IsOkUnless result QueryError.Memory }
{
    let mut columns = Vec::new(alloc);
    // those before it are there
    for field in 0..reader.schema().field_count() {
        let ids = reader.length_ids(Field::from_field_id(field));
        let mut column = Vec::with_capacity(alloc, ids.len())?;
        column.extend_from_slice(ids)?;
        columns.push(column)?;
    }
    Ok(columns)
}
