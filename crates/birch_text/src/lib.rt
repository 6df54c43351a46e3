//! What a search command reads: which files there are, what in them is a document, which words a
//! document has, and what a person asks for.
#![tactic(auto)]

mod accents;
mod clause;
mod cleaned;
mod csv_rows;
mod decoded;
mod file_types;
mod glob;
mod json_lines;
mod lines;
mod marks;
mod named_words;
mod part_places;
mod passage;
mod path_rules;
mod query;
mod query_fault;
mod query_tree;
mod row;
mod row_places;
mod snippet;
mod table_reader;
mod words;

pub use accents::Accents;
pub use clause::{Clause, Scope};
pub use cleaned::{Cleaned, EscapedJson, is_steering};
pub use csv_rows::column_in;
pub use decoded::{Decoded, decode};
pub use file_types::{FILE_TYPES, is_of_type};
pub use lines::{add_lines, add_paragraphs};
pub use marks::{Mark, Marker};
pub use named_words::{FIELD_END, add_named_words, named_word, split_named};
pub use passage::{Form, Passages, Place, add_passages, text_at};
pub use path_rules::{PathRules, PatternError, Sense};
pub use query::{QueryFields, read_query};
pub use query_fault::{Fault, QueryFault};
pub use query_tree::QueryTree;
pub use row::{Row, RowField};
pub use snippet::{Snippet, snippet_of};
pub use words::WordReader;
