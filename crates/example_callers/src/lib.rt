//! What a user writes over this library: functions whose own contracts follow from those of the library,
//! and from nothing else. Whoever wants to use a contract reads here how.
#![tactic(auto)]

mod best;
mod bytes_callers;
mod callers;
mod cursor_callers;
mod file_callers;
mod given_callers;
mod index_callers;
mod joining_callers;
mod laws;
mod library_use;
mod partition_callers;
mod phrase_callers;
mod place_callers;
mod query_callers;
mod row_callers;
mod saved_callers;
mod spelled_callers;
mod term_callers;
mod top_docs_callers;
mod weight_callers;

pub use best::{BestPairs, best_pairs};
pub use bytes_callers::row_through_bytes;
pub use callers::{Joined, collect_calls, collect_matches, count_calls, join_slices};
pub use cursor_callers::{documents_in_enough, documents_with_term};
pub use file_callers::{row_through_file, wanted_through_file, whole_through_file};
pub use given_callers::add_placed_term;
pub use index_callers::{replace_document, searched_segments, unsearched_documents};
pub use joining_callers::join_all_segments;
pub use laws::{
    Both, collect_boosted, collect_reordered, join_and_collect, join_scored_and_unscored,
};
pub use library_use::phrase_and_word;
pub use partition_callers::{PartitionError, best_of_both, count_in_both};
pub use phrase_callers::{count_behind_buffer, positions_behind_buffer, scored_phrase};
pub use place_callers::{PlaceError, place_of_best, place_through_file};
pub use query_callers::{best_document, matches, matching_documents};
pub use row_callers::{join_matches_of_terms, with_terms_alone};
pub use saved_callers::index_through_folder;
pub use spelled_callers::count_uncut;
pub use term_callers::{best_of_term, end_of_block};
pub use top_docs_callers::{best_address, first_page};
pub use weight_callers::{best_matches, holders_of_both, join_matches};
