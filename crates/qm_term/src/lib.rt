//! What a term scores: its weight over the lengths of documents, and the scorer over its postings.
//!
//! Names and behaviour are those of tantivy's documentation; where they differ, `docs/DIFFERENCES.md`
//! says so.
#![tactic(auto)]

mod bm25;
mod explanation;
mod norms;
mod term_scorer;
mod wand;

pub use bm25::Bm25Weight;
pub use explanation::Explanation;
pub use norms::Norms;
pub use term_scorer::TermScorer;
pub use wand::{
    TermScorerWithMaxScore, Ticks, WandCount, WandRun, block_wand, block_wand_all,
    block_wand_single_scorer, score_front,
};
