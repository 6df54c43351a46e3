//! Scorers, what combines the scores of several of them on one document, and the cursors that are
//! made of other cursors. All are generic over every member that keeps the laws of its trait.
#![tactic(auto)]

mod all_scorer;
mod boost_scorer;
mod bounded_by_sum;
mod const_scorer;
mod counted;
mod disjunction;
mod disjunction_max_combiner;
mod do_nothing_combiner;
mod empty_scorer;
mod exclude;
mod intersection;
mod left;
mod members;
mod reqopt_scorer;
mod score_combiner;
mod scorer;
mod sum_combiner;
mod union;

pub use all_scorer::AllScorer;
pub use boost_scorer::BoostScorer;
pub use bounded_by_sum::BoundedBySum;
pub use const_scorer::ConstScorer;
pub use counted::Counted;
pub use disjunction::Disjunction;
pub use disjunction_max_combiner::DisjunctionMaxCombiner;
pub use do_nothing_combiner::DoNothingCombiner;
pub use empty_scorer::EmptyScorer;
pub use exclude::Exclude;
pub use intersection::Intersection;
pub use left::scores_left;
pub use members::{by_cost, least_document, seek_below, seek_each, sum_of_bounds};
pub use reqopt_scorer::RequiredOptionalScorer;
pub use score_combiner::ScoreCombiner;
pub use scorer::Scorer;
pub use sum_combiner::SumCombiner;
pub use union::{
    AnyMember, AtLeast, BufferedDisjunction, BufferedUnion, BufferedUnionScorer, FIRST_SPAN,
    HORIZON, LeastMembers, SEEK_SPAN, Window, WindowedUnion,
};
