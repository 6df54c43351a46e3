//! Documents that are rows of a table with a head.

use crate::passage::{Passages, Place};
use crate::row::Row;
use crate::table_reader::{NextRow, TableReader, first_row};
use csv::StringRecord;
use std::alloc::{AllocError, Global};

// What of a row is a document.
#[derive(Clone, Copy)]
enum Part<'a> {
    // one column
    Column(usize),
    // all columns, as fields with the names in this head
    Columns(&'a StringRecord),
}

/// Hands over a column of each row below the head. A row that has no such column, or that can't be read, is left out.
///
/// Refused for want of memory alone.
pub(crate) fn add_csv<P: Passages>(
    alloc: Global,
    column: usize,
    text: &str,
    passages: &mut P,
) -> Result<(), AllocError> {
    let mut table = TableReader::new(alloc, text);
    add_below_head(alloc, Part::Column(column), &mut table, passages)
}

/// Hands over each row of a table, whose columns are fields by the names in its first row. A row that
/// can't be read is left out.
///
/// Refused for want of memory alone.
pub(crate) fn add_csv_rows<P: Passages>(
    alloc: Global,
    text: &str,
    passages: &mut P,
) -> Result<(), AllocError> {
    let head = first_row(alloc, text)?;
    let mut table = TableReader::new(alloc, text);
    add_below_head(alloc, Part::Columns(&head), &mut table, passages)
}

/// Which column of a table's head has that name; none also where the head can't be read.
///
/// Refused for want of memory alone.
pub fn column_in(alloc: Global, text: &str, name: &str) -> Result<Option<usize>, AllocError> {
    let head = first_row(alloc, text)?;
    Ok(head.iter().position(|field| field == name))
}

// Hands over the rows below the head of a table of which nothing is read yet.
fn add_below_head<P: Passages>(
    alloc: Global,
    part: Part<'_>,
    table: &mut TableReader<'_>,
    passages: &mut P,
) -> Result<(), AllocError> {
    // the rows before this one are added, or left out
    for turn in 0..u64::MAX {
        match table.next_row() {
            NextRow::None => break,
            NextRow::NoMemory => return Err(AllocError),
            NextRow::Unreadable(place) => passages.leave_out(place.line),
            NextRow::Read(_) if turn == 0 => {}
            NextRow::Read(place) => add_row(alloc, part, table.row(), place, passages)?,
        }
    }
    Ok(())
}

// Hands over one row.
fn add_row<P: Passages>(
    alloc: Global,
    part: Part<'_>,
    row: &StringRecord,
    place: Place,
    passages: &mut P,
) -> Result<(), AllocError> {
    match part {
        Part::Columns(head) => passages.add_row(&csv_row(alloc, head, row)?, place),
        Part::Column(column) => match row.get(column) {
            Some(field) => passages.add(field, place),
            None => passages.leave_out(place.line),
        },
    }
    Ok(())
}

// The document that a row is; a field behind those of the head has no name.
fn csv_row(alloc: Global, head: &StringRecord, record: &StringRecord) -> Result<Row, AllocError> {
    let mut row = Row::new(alloc);
    // the fields before this one are in the row
    for (column, field) in record.iter().enumerate() {
        row.push(alloc, head.get(column).unwrap_or(""), field)?;
    }
    Ok(row)
}

/// A column of a row.
///
/// Refused for want of memory alone. Where the file was changed meanwhile it may be empty.
pub(crate) fn csv_text(alloc: Global, column: usize, piece: &str) -> Result<String, AllocError> {
    let row = first_row(alloc, piece)?;
    String::from_str(alloc, row.get(column).unwrap_or(""))
}

/// The text of a row.
///
/// Refused for want of memory alone. Where the file was changed meanwhile it may be empty.
pub(crate) fn csv_row_text(alloc: Global, piece: &str) -> Result<String, AllocError> {
    let row = first_row(alloc, piece)?;
    Ok(csv_row(alloc, &row, &row)?.text)
}
