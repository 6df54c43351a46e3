//! Queries as texts, for programs in other languages: in the language that people type, or in that of scripts.
//!
//! Either is read to a query of qm_script, which counts what it finds, and finds the best of it and a page.
#![tactic(auto)]

mod fields;
mod laid_words;
mod language;
mod named_words;
mod read;
mod refusal;
mod refusal_texts;
mod translated;

pub use laid_words::LaidWords;
pub use language::Language;
pub use named_words::query_words;
pub use read::query_of_text;
pub use refusal::QueryRefusal;
pub use refusal_texts::query_status_text;
