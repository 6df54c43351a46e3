//! Documents that are added, deleted and searched in any order: segments, of which the last is open.
//!
//! A [`SegmentBuilder`](qm_postings::SegmentBuilder) makes a segment once, and a built one takes no
//! document. An [`Index`] keeps what it was given of the documents of its open segment, and builds of them what
//! is to be searched, when it is.
#![tactic(auto)]

mod addresses;
mod deleted_count;
mod file_names;
mod given_document;
mod index;
mod open_document;
mod plan_writing;
mod saved_files;
mod saving_plan;
mod stored_files;

pub use addresses::{address_of, number_of};
pub use given_document::GivenDocument;
pub use index::Index;
