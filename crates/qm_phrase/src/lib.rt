//! Phrases and unions of postings: where the terms of a phrase stand together in a document, and the
//! cursors over the documents where they do.
//!
//! Names and behaviour are those of tantivy's documentation; where they differ, `docs/DIFFERENCES.md`
//! says so.
#![tactic(auto)]

mod common_places;
mod counting;
mod full_terms;
mod pair;
mod phrase_prefix_scorer;
mod phrase_scorer;
mod phrase_terms;
mod places;
mod postings_with_offset;
mod prefix;
mod prefix_terms;
mod row;
mod suffixes;
mod term_row;
mod terms;
mod union;

pub use phrase_prefix_scorer::PhrasePrefixScorer;
pub use phrase_scorer::PhraseScorer;
pub use phrase_terms::PhraseTerms;
pub use postings_with_offset::PostingsWithOffset;
pub use prefix::prefix_end;
pub use union::{BitSetPostingUnion, SimpleUnion};
