//! What builds the nodes over several scorers.

ghost use Rattle.std.specs.Prelude.{◌≡◌, ◌<◌, ◌≤◌, [], All, IfErr, IfOk, IsOkUnless, length, map};
ghost use Rattle.qm_docset.specs.Gather.{gather};
ghost use Rattle.qm_docset.specs.Lists.{ArePlaced, IsPlaced};
ghost use Rattle.qm_combine.specs.HeldSum.{held_sum};
ghost use Rattle.qm_combine.specs.Union.{IsBoundOrMemory, IsRefusedByBounds};
ghost use Rattle.qm_scorer.specs.Built.{IsAtLeastOf, IsUnionOf};
ghost use Rattle.qm_scorer.specs.Bare.{IsBounded};
ghost use Rattle.qm_scorer.specs.Group.{IsGroupNode, IsGroupOver, IsMadeOf, group_entries};
ghost use Rattle.qm_scorer.specs.Intersection.{ListsShared};
ghost use Rattle.qm_scorer.specs.Tree.{AreMemberHeads, HasRoom, IsTree, gathered_list, tree_entries, tree_top};
ghost use Rattle.qm_scorer.specs.United.{IsUnitedOf};

use crate::any_combiner::AnyCombiner;
use crate::any_scorer::{AnyScorer, doc_tree};
use crate::bounds::GREATEST_SCORE;
use crate::builders::bound_of;
use crate::group_node::{GroupNode, Shape, next_match};
use crate::intersection_node::{IntersectionNode, align};
use crate::least_docs::LeastDocs;
use crate::union_node::{UnionNode, go_on};
use qm_combine::{
    DoNothingCombiner, EmptyScorer, FIRST_SPAN, Scorer, Window, by_cost, least_document,
    sum_of_bounds,
};
use qm_docset::DocSet;
use qm_schema::QueryError;
use std::alloc::{AllocError, Global};

/// The documents that any of several scorers has, each with what the combiner, cleared, makes of the
/// scores there: none where there are no scorers. A scorer that is given twice counts twice.
///
/// Refuses with [`QueryError::ScoreBound`] exactly where the `max_score` of the scorers add up to more
/// than 9223372036854775807, and else with [`QueryError::Memory`] alone, where there is no room for a
/// node and a [`Window`]. The scorers are moved past the first window, which is filled out of 64 documents
/// from their least on. A step or a seek of the union asks the window alone, and where that has nothing
/// more, the scorers for each of their documents and scores in the next.
pub fn union<'a, S: Scorer>(
    alloc: Global,
    members: Vec<AnyScorer<'a, S>>,
    combiner: AnyCombiner,
) -> Result<AnyScorer<'a, S>, QueryError>
    requires placed { ArePlaced ⟦<AnyScorer<'a, S> as DocSet>⟧ members.items }
    ensures refused { IsRefusedByBounds ⟦<AnyScorer<'a, S> as DocSet>⟧ members.entry.items result }
    ensures only { IfErr result IsBoundOrMemory }
    ensures lists { IfOk result (IsUnionOf ⟦<AnyScorer<'a, S> as DocSet>⟧ combiner members.entry.items) }
{
    let node = union_of(alloc, members, combiner)?;
    Ok(AnyScorer::Union(Box::new(alloc, node)?))
}

// A union of the members, on its first document.
fn union_of<'a, S: Scorer>(
    alloc: Global,
    members: Vec<AnyScorer<'a, S>>,
    combiner: AnyCombiner,
) -> Result<UnionNode<'a, S>, QueryError>
    requires placed { ArePlaced ⟦<AnyScorer<'a, S> as DocSet>⟧ members.items }
    ensures refused { IsRefusedByBounds ⟦<AnyScorer<'a, S> as DocSet>⟧ members.entry.items result }
    ensures only { IfErr result IsBoundOrMemory }
    ensures made { IfOk result (IsUnitedOf S.DocSet combiner members.entry.items) }
{
    let Some(sum) = sum_of_bounds(&members) else {
        return Err(QueryError::ScoreBound);
    };
    let window = Window::new(alloc, combiner)?;
    let ahead = least_document(&members);
    let mut node = UnionNode {
        members,
        window,
        ahead,
        doc: 0,
        span: FIRST_SPAN,
        top: sum.max(1) as u64,
    };
    go_on(&mut node, FIRST_SPAN);
    Ok(node)
}

/// The documents that at least `minimum` of several scorers have, each with what the combiner, cleared,
/// makes of the scores there: none where there are fewer scorers. A scorer that is given twice counts
/// twice. Asks for a minimum of 1 or more, which may be `usize::MAX`.
///
/// Refuses with [`QueryError::ScoreBound`] exactly where the `max_score` of the scorers add up to more
/// than 9223372036854775807, and else with [`QueryError::Memory`] alone, where there is no room for a
/// node and some four bytes a scorer. A minimum of 1 makes the scorer that [`union`] makes. Fewer scorers
/// than the minimum are not moved. Else they go on up to the first document that enough of them have. A
/// step or a seek then costs a move of each scorer for each of its documents up to the next that enough
/// have, and a score one of those that have it; to find each of these costs a look at some 64 documents,
/// and at one more for each 1,024 scorers.
pub fn at_least<'a, S: Scorer>(
    alloc: Global,
    members: Vec<AnyScorer<'a, S>>,
    combiner: AnyCombiner,
    minimum: usize,
) -> Result<AnyScorer<'a, S>, QueryError>
    requires placed { ArePlaced ⟦<AnyScorer<'a, S> as DocSet>⟧ members.items }
    requires minimum { 1 ≤ minimum }
    ensures refused { IsRefusedByBounds ⟦<AnyScorer<'a, S> as DocSet>⟧ members.entry.items result }
    ensures only { IfErr result IsBoundOrMemory }
    ensures lists { IfOk result (IsAtLeastOf ⟦<AnyScorer<'a, S> as DocSet>⟧ minimum combiner members.entry.items) }
{
    if minimum == 1 {
        return union(alloc, members, combiner);
    }
    let node = group_of(alloc, members, combiner, minimum)?;
    Ok(AnyScorer::Disjunction(Box::new(alloc, node)?))
}

// A group of the members, on its first document.
fn group_of<'a, S: Scorer>(
    alloc: Global,
    members: Vec<AnyScorer<'a, S>>,
    combiner: AnyCombiner,
    minimum: usize,
) -> Result<GroupNode<'a, S>, QueryError>
    requires placed { ArePlaced ⟦<AnyScorer<'a, S> as DocSet>⟧ members.items }
    requires minimum { 1 ≤ minimum }
    ensures refused { IsRefusedByBounds ⟦<AnyScorer<'a, S> as DocSet>⟧ members.entry.items result }
    ensures only { IfErr result IsBoundOrMemory }
    ensures made { IfOk result (IsMadeOf S.DocSet minimum combiner members.entry.items) }
{
    let Some(sum) = sum_of_bounds(&members) else {
        return Err(QueryError::ScoreBound);
    };
    let shape = Shape {
        minimum,
        combiner,
        top: sum.max(1) as u64,
    };
    let members = needed_members(members, minimum);
    Ok(first_match(alloc, members, shape)?)
}

// The members, or none where they are fewer than each document needs: then none of them has to move.
fn needed_members<'a, S: Scorer>(
    members: Vec<AnyScorer<'a, S>>,
    minimum: usize,
) -> Vec<AnyScorer<'a, S>>
    ensures kept { minimum ≤ length members.entry.items → result.items ≡ members.entry.items }
    ensures none { length members.entry.items < minimum → result.items ≡ [] }
{
    let mut members = members;
    if members.len() < minimum {
        members.clear();
    }
    members
}

// A group of the documents that any of the members has, whose scores nobody asks for: so they may add up
// to any number.
pub(crate) fn any_of<'a, S: Scorer>(
    alloc: Global,
    members: Vec<AnyScorer<'a, S>>,
) -> Result<GroupNode<'a, S>, AllocError>
    requires placed { ArePlaced ⟦<AnyScorer<'a, S> as DocSet>⟧ members.items }
    ensures { IfOk result (λ node. IsGroupNode S.DocSet node ×
        (group_entries S.DocSet node ≡ gather 1 (λ _. 1) (map (tree_entries S.DocSet) members.entry.items))) }
{
    let shape = Shape {
        minimum: 1,
        combiner: AnyCombiner::DoNothing(DoNothingCombiner),
        top: 1,
    };
    first_match(alloc, members, shape)
}

// A group of this shape over the members, which leave nothing behind but what comes before its first
// document.
fn first_match<'a, S: Scorer>(
    alloc: Global,
    members: Vec<AnyScorer<'a, S>>,
    shape: Shape,
) -> Result<GroupNode<'a, S>, AllocError>
    requires placed { ArePlaced ⟦<AnyScorer<'a, S> as DocSet>⟧ members.items }
    requires some { 1 ≤ shape.minimum }
    requires room { HasRoom shape.combiner (map (tree_entries S.DocSet) members.items) }
    requires bounded { IsBounded shape.top (gathered_list shape (map (tree_entries S.DocSet) members.items)) }
    ensures { IfOk result (IsGroupOver S.DocSet shape members.entry.items) }
{
    let heads = heads_of(alloc, &members)?;
    let mut node = GroupNode {
        members,
        heads,
        shape,
        current: 0,
    };
    node.current = next_match(&mut node, 0);
    Ok(node)
}

// The documents that scorers stand on.
fn heads_of<'a, S: Scorer>(
    alloc: Global,
    members: &[AnyScorer<'a, S>],
) -> Result<LeastDocs, AllocError>
    requires placed { ArePlaced ⟦<AnyScorer<'a, S> as DocSet>⟧ members.now }
    ensures { IfOk result (λ heads. AreMemberHeads heads (map (tree_entries S.DocSet) members.now)) }
{
    let mut docs = Vec::with_capacity(alloc, members.len())?;
    // those of the members before are there
    for member in members {
        docs.push(doc_tree(member))?;
    }
    LeastDocs::new(alloc, docs)
}

/// The documents that all of several scorers have, each with the sum of the scores there, held at
/// 9223372036854775807. No scorer gives the empty scorer, and one is given back as it is. Only the size
/// hint depends on `num_docs_segment`, the number of the segment's documents.
///
/// Refused with [`QueryError::Memory`] alone. Of two or more scorers the one of least
/// [`cost`](DocSet::cost) leads: the others are only asked for its documents, the cheaper ones first.
/// No scorer is moved further than the first common document needs.
pub fn intersect_scorers<'a, S: Scorer>(
    alloc: Global,
    members: Vec<AnyScorer<'a, S>>,
    num_docs_segment: u32,
) -> Result<AnyScorer<'a, S>, QueryError>
    requires placed { ArePlaced ⟦<AnyScorer<'a, S> as DocSet>⟧ members.items }
    ensures refused { IsOkUnless result QueryError.Memory }
    ensures placed { IfOk result (IsPlaced ⟦<AnyScorer<'a, S> as DocSet>⟧) }
    ensures lists { IfOk result (ListsShared ⟦<AnyScorer<'a, S> as DocSet>⟧ members.entry.items) }
{
    let mut members = members;
    if members.len() < 2 {
        return Ok(members.pop().unwrap_or(AnyScorer::Empty(EmptyScorer)));
    }
    let top = held_bound(&members);
    let mut others = by_cost(alloc, members)?;
    let leader = others.remove(0);
    let first = doc_tree(&leader);
    let mut node = IntersectionNode {
        leader,
        others,
        num_docs: num_docs_segment,
        top,
    };
    align(&mut node, first);
    Ok(AnyScorer::Intersection(Box::new(alloc, node)?))
}

// The sum of the scorers' greatest scores, held at the greatest score.
fn held_bound<'a, S: Scorer>(members: &[AnyScorer<'a, S>]) -> u64
    requires valid { All (IsTree S.DocSet) members.now }
    ensures { result ≡ held_sum (map (tree_top S.DocSet) members.now) }
{
    let mut sum = 0;
    // the sum of the bounds of the members before this one, held at the greatest score
    for member in members {
        sum = (sum + bound_of(member)).min(GREATEST_SCORE);
    }
    sum
}
