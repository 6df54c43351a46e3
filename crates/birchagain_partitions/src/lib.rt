//! What several indexes answer together, each of which holds a part of the documents: the best of all are the best of
//! each one's best.
#![tactic(auto)]

mod merge_refusal;
mod merging;

pub use merge_refusal::{MergeRefusal, merge_status_text};
pub use merging::merge_hits;
