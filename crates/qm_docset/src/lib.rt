//! Cursors over the documents of a segment: what each call of a [`DocSet`] answers and leaves,
//! the cursors that stand on plain lists and on bit sets, and the sets that they are made of.
#![tactic(auto)]

mod alive_bitset;
mod bitset;
mod bitset_docset;
mod boxed;
mod docset;
mod document_list;
mod exclusion;
mod galloping;
mod has_len;
mod left;
mod numbers;
mod steps;
mod tiny_set;
mod vec_docset;

pub use alive_bitset::AliveBitSet;
pub use bitset::BitSet;
pub use bitset_docset::BitSetDocSet;
pub use docset::{DocSet, SeekDangerResult, seek_answer};
pub use document_list::are_documents;
pub use exclusion::ExclusionSet;
pub use galloping::gallop;
pub use has_len::HasLen;
pub use left::documents_left;
pub use numbers::{COLLECT_BLOCK_BUFFER_LEN, DocId, Score, TERMINATED};
pub use steps::seek_by_steps;
pub use tiny_set::TinySet;
pub use vec_docset::VecDocSet;
