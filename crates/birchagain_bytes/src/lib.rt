//! An index as bytes, and back: the files that a folder has of a saved index, one behind the other.
//!
//! The files are those that `docs/FORMAT.md` tells of, so whoever has the bytes may write them into a folder, from which
//! [`Index::open`](qm_index::Index::open) reads the index, and [`from_bytes`] takes the files of a folder.
#![tactic(auto)]

mod deleted_count;
mod index_files;
mod manifest_keeper;
mod numbering;
mod open_documents;
mod packed_files;
mod packing;
mod reading;
mod refusal;
mod words;
mod writing;

pub use reading::from_bytes;
pub use refusal::{BytesRefusal, status_text};
pub use writing::{to_bytes, write_bytes};
