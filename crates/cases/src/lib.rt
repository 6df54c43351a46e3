//! What programs of cases have in common: files of blocks and rows, cursors of the cases' own, what
//! plays rows on any scorer, and the report. `docs/CASES.md` has the language.
#![tactic(auto)]

mod answer;
mod asked;
mod block;
mod call;
mod documents;
mod fault;
mod file;
mod leaf;
mod listing;
mod memory;
mod moves;
mod play;
mod pruning;
mod repeat;
mod report;
mod row;
mod words;

pub use asked::{Asker, play_asked};
pub use block::{Block, Player};
pub use documents::read_documents;
pub use fault::{Done, Fault};
pub use file::play_cases;
pub use leaf::{Leaf, read_leaf, read_leaves};
pub use listing::Listing;
pub use memory::{Memory, end_refusals, is_awaited, is_heard};
pub use moves::Moves;
pub use play::{Desk, play_scores};
pub use pruning::{Pruning, Reply, replies_of, threshold_of};
pub use report::Report;
pub use row::Row;
pub use words::{behind, number, read_document, score, word, words_of};
