//! Runs that pass over the blocks whose documents cannot score above a threshold.
//!
//! They make the calls of the plain loop, with the same thresholds, and score only documents whose
//! blocks' bounds are above the threshold together.

pub(crate) mod cells;
mod conjunction;
mod drain;
mod front;
pub(crate) mod heads;
mod rows;
mod run;
mod single;
mod stretches;
mod ticks;

pub use conjunction::block_wand_all;
pub use front::{TermScorerWithMaxScore, score_front};
pub use run::{WandRun, block_wand};
pub use single::block_wand_single_scorer;
pub use ticks::{Ticks, WandCount};
