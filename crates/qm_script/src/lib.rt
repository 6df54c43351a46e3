//! The language of scripts: lines that add documents, delete them and ask for what queries find, and
//! what a script of such lines is answered.
//!
//! `docs/SCRIPT.md` has the language. [`run`] answers a script from any input to any output; the
//! program `qm_search` joins it to standard input and output.
#![tactic(auto)]

mod answer;
mod asked_terms;
mod best;
mod corpus;
mod counting;
mod cut_prefixes;
mod decimal;
mod document_line;
mod form;
mod item_writer;
mod lines;
mod listing;
mod matching;
mod narrowed;
mod non_negative_score;
mod paging;
mod parse;
mod pruning;
mod query_builder;
mod question;
mod read_query;
mod row_places;
mod runner;
mod searching;
mod spelled_query;
mod terms;
mod terms_alone;
mod unparsed;
mod words;

pub use cut_prefixes::has_cut;
pub use non_negative_score::NonNegativeScore;
pub use paging::page_hits;
pub use parse::parse_query_text;
pub use query_builder::build_query;
pub use runner::{RunError, run, run_buffered, text_of};
pub use searching::{Hit, best_hits, count_hits};
pub use spelled_query::SpelledQuery;
pub use unparsed::Unparsed;
