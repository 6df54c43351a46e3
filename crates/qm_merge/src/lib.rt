//! One segment out of two, or out of one without its deleted documents, by the rows that they keep. No text is read.
#![tactic(auto)]

mod alike;
mod alive;
mod alive_columns;
mod alive_rows;
mod deletions;
mod error;
mod joined_columns;
mod joined_rows;
mod leaving_out;
mod made_of_rows;
mod merging;
mod new_numbers;

pub use error::MergeError;
pub use leaving_out::leave_out_deleted;
pub use merging::merge;
