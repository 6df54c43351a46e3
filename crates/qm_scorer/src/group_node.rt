//! A node over several scorers, of which a minimum has each document.
//!
//! Members' documents stand in a row with the least of each 32, and not in a heap, so no proof goes by permutations.

ghost use Rattle.std.specs.Prelude.{◌≡◌, ◌<◌, ◌≤◌, ◌↔◌, length, map, true};
ghost use Rattle.qm_docset.specs.Entry.{from, greatest_score, head_document, head_score};
ghost use Rattle.qm_docset.specs.Gather.{scores_at};
ghost use Rattle.qm_combine.specs.Union.{least_head};
ghost use Rattle.qm_scorer.specs.AnyCombiner.{AnyHasRoom, any_step};
ghost use Rattle.qm_scorer.specs.Group.{AreStanding, IsGroupNode, group_entries, group_lists};
ghost use Rattle.qm_scorer.specs.Tree.{HasRoom};
ghost use Rattle.qm_scorer.specs.declared.group_node.GroupNode.{size-GroupNode};

use crate::any_combiner::AnyCombiner;
use crate::any_scorer::{AnyScorer, score_tree, seek_tree};
use crate::least_docs::LeastDocs;
use qm_combine::{AllScorer, ConstScorer, ScoreCombiner, Scorer};
use qm_docset::{DocId, Score, TERMINATED};

/// Which documents a group lists, what it makes of their scores, and the bound on that.
#[derive(Clone, Copy)]
pub(crate) struct Shape {
    pub(crate) minimum: usize,
    pub(crate) combiner: AnyCombiner,
    pub(crate) top: u64,
}

/// The documents that at least a minimum of its members have, each with what a combiner makes of the
/// members' scores there.
///
/// Beside the members it keeps the documents that they stand on, with the least of each 32 and of each
/// 1,024 of them. So a step or a seek moves the members below the target without a look at the others,
/// and a score asks those alone that stand on the document. A seek at or below the document does
/// nothing.
#[cycle(any)]
#[derive(Drop)]
pub struct GroupNode<'a, S> {
    pub(crate) members: Vec<AnyScorer<'a, S>>,
    pub(crate) heads: LeastDocs,
    pub(crate) shape: Shape,
    pub(crate) current: DocId,
}

// Moves those members that stand below the target to their first document at or past it, and answers
// the least document that one of them then stands on.
#[cycle(moves)]
#[tactic(auto, using(crate::specs::MoveFacts::moves))]
pub(crate) fn reach_members<'a, S: Scorer>(node: &mut GroupNode<'a, S>, target: DocId) -> DocId
    requires members { AreStanding S.DocSet node.old }
    requires target { target ≤ TERMINATED }
    ensures least { result ≡ least_head (group_lists S.DocSet node.new) }
    ensures lists { group_lists S.DocSet node.new ≡ map (from target) (group_lists S.DocSet node.old) }
    ensures members { AreStanding S.DocSet node.new }
    ensures shape { node.new.shape ≡ node.old.shape }
    ensures current { node.new.current ≡ node.old.current }
    ensures depth { size-GroupNode _ node.new ≤ size-GroupNode _ node.old }
{
    let mut place = node.heads.next_below(0, target);
    // the members before this one stand at or past the target
    while place < node.members.len() {
        let doc = seek_tree(&mut node.members[place], target);
        node.heads.put(place, doc);
        place = node.heads.next_below(place + 1, target);
    }
    node.heads.least()
}

// Whether at least a minimum of the members, all of which stand at or past a document, has it.
fn has_enough<'a, S: Scorer>(node: &GroupNode<'a, S>, doc: DocId) -> bool
    requires members { AreStanding S.DocSet node.now }
    requires doc { doc < TERMINATED }
    requires least { doc ≡ least_head (group_lists S.DocSet node.now) }
    ensures { (result ≡ true) ↔ (node.now.shape.minimum ≤ length (scores_at doc (group_lists S.DocSet node.now))) }
{
    node.shape.minimum <= 1 || node.heads.has_times(doc, node.shape.minimum)
}

// Moves the members to the first document at or past the target that enough of them have, and
// answers it. The node's own document is not changed.
#[cycle(moves)]
#[tactic(auto, using(crate::specs::MoveFacts::moves))]
pub(crate) fn next_match<'a, S: Scorer>(node: &mut GroupNode<'a, S>, target: DocId) -> DocId
    requires members { AreStanding S.DocSet node.old }
    requires some { 1 ≤ node.old.shape.minimum }
    requires room { HasRoom node.old.shape.combiner (group_lists S.DocSet node.old) }
    requires target { target ≤ TERMINATED }
    ensures head { result ≡ head_document (group_entries S.DocSet node.new) }
    ensures least { result ≡ least_head (group_lists S.DocSet node.new) }
    ensures entries { group_entries S.DocSet node.new ≡ from target (group_entries S.DocSet node.old) }
    ensures members { AreStanding S.DocSet node.new }
    ensures room { HasRoom node.new.shape.combiner (group_lists S.DocSet node.new) }
    ensures shape { node.new.shape ≡ node.old.shape }
    ensures depth { size-GroupNode _ node.new ≤ size-GroupNode _ node.old }
{
    let mut doc = reach_members(node, target);
    // no document before this one is left in any member
    while doc < TERMINATED && !has_enough(node, doc) {
        doc = reach_members(node, doc + 1);
    }
    doc
}

// Moves the node to its first document at or past the target.
#[cycle(moves)]
#[tactic(auto, using(crate::specs::MoveFacts::moves))]
pub(crate) fn seek_group<'a, S: Scorer>(node: &mut GroupNode<'a, S>, target: DocId) -> DocId
    requires valid { IsGroupNode S.DocSet node.old }
    requires target { target ≤ TERMINATED }
    ensures head { result ≡ head_document (group_entries S.DocSet node.new) }
    ensures entries { group_entries S.DocSet node.new ≡ from target (group_entries S.DocSet node.old) }
    ensures valid { IsGroupNode S.DocSet node.new }
    ensures shape { node.new.shape ≡ node.old.shape }
    ensures depth { size-GroupNode _ node.new ≤ size-GroupNode _ node.old }
{
    if node.current < target {
        node.current = next_match(node, target);
    }
    node.current
}

// Hands a score to a combiner.
fn take_score(combiner: &mut AnyCombiner, score: u64)
    requires score { score ≤ greatest_score }
    requires room { AnyHasRoom combiner.old score }
    ensures { combiner.new ≡ any_step combiner.old score }
{
    combiner.update(&mut ConstScorer::new(AllScorer::new(1), score as Score));
}

// The score of the node's document: what the combiner, cleared, makes of those of the members that
// stand on it.
#[cycle(moves)]
#[tactic(auto, using(crate::specs::MoveFacts::scores))]
pub(crate) fn score_group<'a, S: Scorer>(node: &mut GroupNode<'a, S>) -> u64
    requires valid { IsGroupNode S.DocSet node.old }
    requires here { node.old.current < TERMINATED }
    ensures score { result ≡ head_score (group_entries S.DocSet node.old) }
    ensures fits { result ≤ greatest_score }
    ensures lists { group_lists S.DocSet node.new ≡ group_lists S.DocSet node.old }
    ensures valid { IsGroupNode S.DocSet node.new }
    ensures shape { node.new.shape ≡ node.old.shape }
    ensures current { node.new.current ≡ node.old.current }
    ensures depth { size-GroupNode _ node.new ≤ size-GroupNode _ node.old }
{
    let past = node.current + 1;
    let mut combiner = node.shape.combiner;
    combiner.clear();
    let mut place = node.heads.next_below(0, past);
    // the scores of the members before this one are taken in
    while place < node.members.len() {
        take_score(&mut combiner, score_tree(&mut node.members[place]));
        place = node.heads.next_below(place + 1, past);
    }
    combiner.score() as u64
}
