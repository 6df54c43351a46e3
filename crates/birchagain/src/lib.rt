//! What programs in other languages do to an index: documents of one field, whose words spaces part or are
//! handed in with their places, what words weigh, and how many documents hold one.
//!
//! Nothing here knows of C: [`birchagain_c`] hands these calls an index that a handle holds, and bytes that lie in the
//! caller's memory.
#![tactic(auto)]

mod body;
mod cut_words;
mod documents;
mod holders;
mod lengths;
mod placed;
mod refusal;
mod segments;
mod start;
mod weights;

pub use documents::{add_text, add_words, delete};
pub use holders::frequencies;
pub use lengths::set_norms;
pub use placed::add_placed;
pub use refusal::{Refusal, status_text};
pub use segments::{end_segment, refresh};
pub use start::new_index;
pub use weights::{rarity, weigh};
