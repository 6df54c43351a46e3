//! One type for every cursor that a query is made of: a tree whose leaves are terms, phrases, sets and
//! a caller's own scorers, and whose nodes combine what stands below them.
#![tactic(auto)]

mod any_combiner;
mod any_scorer;
mod boost_node;
mod bounds;
mod builders;
mod const_node;
mod estimates;
mod exclude_node;
mod group_builders;
mod group_node;
mod intersection_node;
mod least_docs;
mod leaves;
mod optional_node;
mod passing;
mod union_node;

pub use any_combiner::AnyCombiner;
pub use any_scorer::AnyScorer;
pub use boost_node::BoostNode;
pub use builders::{boost, constant, exclude, required_optional};
pub use const_node::ConstNode;
pub use exclude_node::ExcludeNode;
pub use group_builders::{at_least, intersect_scorers, union};
pub use group_node::GroupNode;
pub use intersection_node::IntersectionNode;
pub use optional_node::OptionalNode;
pub use union_node::UnionNode;
