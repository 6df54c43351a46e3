//! What a query is asked of and asked in: the fields of a schema, the terms of its texts, how a
//! clause of a Boolean query occurs, and the error of every call that can be refused.
//!
//! Names and behaviour are those of tantivy's documentation; where they differ, `docs/DIFFERENCES.md`
//! says so.
#![tactic(auto)]

mod error;
mod field;
mod occur;
mod schema;
mod term;

pub use error::QueryError;
pub use field::Field;
pub use occur::Occur;
pub use schema::{FieldEntry, IndexRecordOption, Schema, SchemaBuilder};
pub use term::Term;
