//! Reads a table row by row.
//!
//! An error of the table's own is told apart at once, so that nobody who reads rows has one to let go of.

use crate::passage::Place;
use crate::row_places::RowPlaces;
use csv::{ErrorKind, Reader, ReaderBuilder, StringRecord};
use std::alloc::{AllocError, Global};

/// What comes next in a table.
#[derive(Clone, Copy)]
pub(crate) enum NextRow {
    /// A row, which was read.
    Read(Place),
    /// A row that can't be read.
    Unreadable(Place),
    /// No row any more.
    None,
    /// There is no memory to read it.
    NoMemory,
}

/// Reads a table whose rows may have different numbers of fields.
#[derive(Drop)]
pub(crate) struct TableReader<'a> {
    reader: Reader<&'a [u8]>,
    // room for each row
    row: StringRecord,
    places: RowPlaces<'a>,
}

impl<'a> TableReader<'a> {
    /// Of the table that is this text. Its first row is a row as any other.
    pub(crate) fn new(alloc: Global, text: &'a str) -> TableReader<'a> {
        let reader = ReaderBuilder::new()
            .flexible(true)
            .has_headers(false)
            .from_reader(alloc, text.as_bytes());
        TableReader {
            reader,
            row: StringRecord::new(alloc),
            places: RowPlaces::new(text),
        }
    }

    /// Reads the next row, and tells where it stands.
    pub(crate) fn next_row(&mut self) -> NextRow {
        let from = self.reader.position().byte();
        let read = self.reader.read_record(&mut self.row);
        let end = self.reader.position().byte();
        let place = self.places.next_place(from, end);
        match read {
            Ok(true) => NextRow::Read(place),
            Ok(false) => NextRow::None,
            Err(error) => match error.kind() {
                ErrorKind::OutOfMemory => NextRow::NoMemory,
                _ => NextRow::Unreadable(place),
            },
        }
    }

    /// The row that was read last.
    pub(crate) fn row(&self) -> &StringRecord {
        &self.row
    }
}

/// The first row of a table; without a field where there is none that can be read.
///
/// Refused for want of memory alone.
pub(crate) fn first_row(alloc: Global, text: &str) -> Result<StringRecord, AllocError> {
    let mut table = TableReader::new(alloc, text);
    match table.next_row() {
        NextRow::Read(_) => Ok(table.row),
        NextRow::NoMemory => Err(AllocError),
        NextRow::Unreadable(_) | NextRow::None => Ok(StringRecord::new(alloc)),
    }
}
