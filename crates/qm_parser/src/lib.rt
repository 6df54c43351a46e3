//! The language in which people type queries: words, phrases, fields, boosts, and what joins them.
//!
//! `docs/QUERIES.md` has the language. [`parse_query`] makes a tree of a text, or says what in it isn't
//! understood, and where. The tree knows nothing of an index: who calls makes queries of it.
#![tactic(auto)]

mod characters;
mod cut_tokens;
mod letters;
mod levels;
mod numbers;
mod outer_levels;
mod parse;
mod parse_error;
mod parsed_query;
mod pieces;
mod place_characters;
mod read_tokens;
mod refusal_kind;
mod token;

pub use parse::parse_query;
pub use parse_error::{ParseError, Refusal};
pub use parsed_query::{ParsedLeaf, ParsedQuery, Sign};
pub use refusal_kind::RefusalKind;
