//! Estimates over a tree of scorers, on which no answer of a query depends: about how many documents
//! remain, and about what it costs to go through them. One walk serves both.

ghost use Rattle.std.specs.Prelude.{All};
ghost use Rattle.qm_combine.specs.Window.{IsUntil};
ghost use Rattle.qm_scorer.specs.Tree.{IsTree};

use crate::any_scorer::AnyScorer;
use crate::group_node::GroupNode;
use crate::union_node::UnionNode;
use qm_combine::Scorer;
use qm_docset::DocSet;

// What is estimated.
#[derive(Clone, Copy)]
pub(crate) enum Estimate {
    // About how many documents remain.
    Remaining,
    // About what it costs to go through them.
    Cost,
}

// The estimate of a leaf is its own.
fn estimate_leaf<D: DocSet>(leaf: &D, estimate: Estimate) -> u64
    requires { D.valid leaf.now }
{
    match estimate {
        Estimate::Remaining => u64::from(leaf.size_hint()),
        Estimate::Cost => leaf.cost(),
    }
}

// What two members of a group or a union come to: the larger is all that remain where each has the same
// documents, and each is gone through.
fn join_estimates(one: u64, other: u64, estimate: Estimate) -> u64 {
    match estimate {
        Estimate::Remaining => one.max(other),
        Estimate::Cost => one.saturating_add(other),
    }
}

// What an intersection comes to of what its leader does: no more remain than the segment has.
fn estimate_shared(leader: u64, num_docs: u32, estimate: Estimate) -> u64 {
    match estimate {
        Estimate::Remaining => leader.min(u64::from(num_docs)),
        Estimate::Cost => leader,
    }
}

// The estimate of a tree.
#[cycle(estimates)]
pub(crate) fn estimate_tree<'a, S: Scorer>(scorer: &AnyScorer<'a, S>, estimate: Estimate) -> u64
    requires valid { IsTree S.DocSet scorer.now }
{
    match scorer {
        AnyScorer::Empty(leaf) => estimate_leaf(leaf, estimate),
        AnyScorer::All(leaf) => estimate_leaf(leaf, estimate),
        AnyScorer::Own(leaf) => estimate_leaf(leaf, estimate),
        AnyScorer::Term(leaf) => estimate_leaf(&**leaf, estimate),
        AnyScorer::BitSet(leaf) => estimate_leaf(&**leaf, estimate),
        AnyScorer::Phrase(leaf) => estimate_leaf(&**leaf, estimate),
        AnyScorer::PhrasePrefix(leaf) => estimate_leaf(&**leaf, estimate),
        AnyScorer::Boost(node) => estimate_tree(&node.inner, estimate),
        AnyScorer::Const(node) => estimate_tree(&node.inner, estimate),
        AnyScorer::RequiredOptional(node) => estimate_tree(&node.required, estimate),
        AnyScorer::Exclude(node) => estimate_tree(&node.inner, estimate),
        AnyScorer::Union(node) => estimate_union(node, estimate),
        AnyScorer::Disjunction(node) => estimate_group(node, estimate),
        AnyScorer::Intersection(node) => {
            estimate_shared(
                estimate_tree(&node.leader, estimate),
                node.num_docs,
                estimate,
            )
        }
    }
}

// The estimate of a group.
#[cycle(estimates)]
fn estimate_group<'a, S: Scorer>(node: &GroupNode<'a, S>, estimate: Estimate) -> u64
    requires members { All (IsTree S.DocSet) node.now.members.items }
{
    let mut sum = 0;
    // the estimates of the members before this one, joined
    for member in &node.members {
        sum = join_estimates(sum, estimate_tree(member, estimate), estimate);
    }
    sum
}

// The estimate of a union: besides what its members have left, what its window holds of them.
#[cycle(estimates)]
fn estimate_union<'a, S: Scorer>(node: &UnionNode<'a, S>, estimate: Estimate) -> u64
    requires members { All (IsTree S.DocSet) node.now.members.items }
    requires until { IsUntil node.now.window }
{
    let mut sum = 0;
    // what the members before come to
    for member in &node.members {
        sum = join_estimates(sum, estimate_tree(member, estimate), estimate);
    }
    sum.saturating_add(u64::from(node.window.len_from(node.doc)))
}
