//! What blocks of weights and of queries have in common: the segments that rows `given` make, forms in front form,
//! and what a weight and a scorer of a segment answer to rows. `docs/CASES.md` has the language.
#![tactic(auto)]

mod alive;
mod asked;
mod documents;
mod explained;
mod form;
mod front;
mod given;
mod given_player;
mod kinds;
mod phrase_counts;
mod runs;
mod schema_rows;
mod segment_scorer;
mod terms;
mod weight_calls;
mod world;

pub use alive::add_all;
pub use asked::{Asked, read_asked};
pub use explained::write_values;
pub use form::{Form, has_word};
pub use front::{Clause, Language, read_front, take_clause, take_clauses};
pub use given::first_word;
pub use given_player::{GivenBlocks, GivenPlayer};
pub use runs::run_each;
pub use segment_scorer::play_segment_scorer;
pub use terms::{read_placed, read_term};
pub use weight_calls::{ask_weight, read_number};
pub use world::{Manner, World};
