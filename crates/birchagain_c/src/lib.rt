//! What C calls of an index: each function takes a handle that lies in the caller's memory, of which all zero bytes
//! are an empty one, and answers a status, of which 0 says that it is done.
//!
//! A `Global` takes no bytes, so C passes nothing for it, and for a slice it passes a pointer and a length. The header
//! `bindings/c/birchagain.h` says what a caller owes. A number of [`birchagain::Refusal::status`], or of
//! [`birchagain_queries::QueryRefusal::status`], says why a call was refused, and 64 that the handle is empty; then
//! what the index holds is as it was.
#![tactic(auto)]

mod bytes;
mod documents;
mod lengths;
mod lifetime;
mod merging;
mod pages;
mod placed;
mod queries;
mod query_statuses;
mod query_texts;
mod statuses;
mod words;

pub use bytes::{birchagain_from_bytes, birchagain_to_bytes};
pub use documents::{
    birchagain_add_text, birchagain_add_words, birchagain_delete, birchagain_documents,
    birchagain_end_segment, birchagain_refresh,
};
pub use lengths::birchagain_set_norms;
pub use lifetime::{birchagain_free, birchagain_open};
pub use merging::birchagain_merge;
pub use pages::birchagain_page;
pub use placed::birchagain_add_placed;
pub use queries::{birchagain_count, birchagain_top};
pub use query_texts::{birchagain_check_query, birchagain_query_words};
pub use statuses::birchagain_status_text;
pub use words::{birchagain_frequencies, birchagain_rarity, birchagain_weigh};
