//! Queries: what is asked for, whatever segment it is asked of, and what it is asked under.
//!
//! Names and behaviour are those of tantivy's documentation; where they differ, `docs/DIFFERENCES.md`
//! says so.
#![tactic(auto)]

mod all_query;
mod any_query;
mod boolean_query;
mod boost_query;
mod boxed;
mod const_score_query;
mod disjunction_max_query;
mod empty_query;
mod enable_scoring;
mod factor;
mod fields;
mod fitting;
mod leaf_weight;
mod offsets;
mod phrase_prefix_query;
mod phrase_query;
mod query;
mod rescoring;
mod scorers;
mod searches;
mod term_query;
mod top_docs;
mod visits;

pub use all_query::AllQuery;
pub use any_query::AnyQuery;
pub use boolean_query::BooleanQuery;
pub use boost_query::BoostQuery;
pub use const_score_query::ConstScoreQuery;
pub use disjunction_max_query::DisjunctionMaxQuery;
pub use empty_query::EmptyQuery;
pub use enable_scoring::EnableScoring;
pub use fitting::fitting_weight;
pub use phrase_prefix_query::PhrasePrefixQuery;
pub use phrase_query::PhraseQuery;
pub use query::{Query, QueryClone};
pub use scorers::query_scorer;
pub use term_query::TermQuery;
pub use top_docs::{CountedDocs, TopDocs};
