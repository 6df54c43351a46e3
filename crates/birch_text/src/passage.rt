//! Documents as they stand in a file.

use crate::csv_rows::{add_csv, add_csv_rows, csv_row_text, csv_text};
use crate::json_lines::{add_json, json_text};
use crate::lines::{add_lines, add_paragraphs};
use crate::query::QueryFields;
use crate::row::Row;
use std::alloc::{AllocError, Global};

/// What of a file is a document.
#[derive(Clone, Copy)]
pub enum Form<'a> {
    /// Lines that stand together, up to an empty one.
    Paragraphs,
    /// Each line that isn't empty.
    Lines,
    /// The column of this name, in each row of a table.
    Csv(&'a str),
    /// The text under this key, in each line.
    Json(&'a str),
    /// Each row of a table, with its columns as fields.
    CsvFields,
    /// Each line of JSON, with what stands in it as fields.
    JsonFields,
}

impl<'a> Form<'a> {
    /// Which fields a query may name.
    pub fn fields(&self) -> QueryFields {
        match self {
            Form::CsvFields | Form::JsonFields => QueryFields::Any,
            _ => QueryFields::FileName,
        }
    }
}

/// Where a document stands in its file.
#[derive(Clone, Copy, PartialEq, Eq)]
pub struct Place {
    /// The number of its first line, from 1 up.
    pub line: u32,
    /// Its first byte.
    pub start: usize,
    /// How many bytes it has.
    pub len: usize,
}

/// What takes the documents of a file, one after another. Whether it could is asked of it at the end.
pub trait Passages {
    /// Takes a document: its text, and where it stands.
    fn add(&mut self, text: &str, place: Place);

    /// Takes a document of several fields, and where it stands.
    fn add_row(&mut self, row: &Row, place: Place);

    /// Hears of a row that is none, as of a line that is no JSON.
    fn leave_out(&mut self, line: u32);
}

/// Hands over all documents of a file's text. Of a table `column` says which field of a row is one, as [`column_in`]
/// does.
///
/// Refused for want of memory alone; then some may have been handed over.
///
/// [`column_in`]: crate::column_in
pub fn add_passages<P: Passages>(
    alloc: Global,
    form: Form<'_>,
    column: usize,
    text: &str,
    passages: &mut P,
) -> Result<(), AllocError> {
    match form {
        Form::Paragraphs => {
            add_paragraphs(text, passages);
            Ok(())
        }
        Form::Lines => {
            add_lines(text, passages);
            Ok(())
        }
        Form::Csv(_) => add_csv(alloc, column, text, passages),
        Form::Json(key) => add_json(alloc, Some(key), text, passages),
        Form::CsvFields => add_csv_rows(alloc, text, passages),
        Form::JsonFields => add_json(alloc, None, text, passages),
    }
}

/// The text of a document, out of the piece of the file where it stands. Of a table `column` says which
/// field of the row it is.
///
/// Refused for want of memory alone. Where the file was changed meanwhile it may be empty.
pub fn text_at(
    alloc: Global,
    form: Form<'_>,
    column: usize,
    piece: &str,
) -> Result<String, AllocError> {
    match form {
        Form::Paragraphs | Form::Lines => String::from_str(alloc, piece),
        Form::Csv(_) => csv_text(alloc, column, piece),
        Form::Json(key) => json_text(alloc, Some(key), piece),
        Form::CsvFields => csv_row_text(alloc, piece),
        Form::JsonFields => json_text(alloc, None, piece),
    }
}
