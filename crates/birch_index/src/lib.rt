//! The files that the search command reads, and the index of them: made in one run, or kept between runs.
#![tactic(auto)]

mod environment;
mod files;
mod ignoring;
mod index;
mod indexer;
mod kept;
mod left_out;
mod lengths;
mod reading;
mod stamps;
mod walk;

pub use environment::variable;
pub use files::{Source, read_piece};
pub use index::{Fields, Index, Tally, held_in};
pub use indexer::read_all;
pub use kept::{KeptSegments, Trouble, Use, after_trouble, forget_kept, kept_index};
pub use left_out::{LeftOut, Notes, note};
pub use reading::{Keeping, Reading};
