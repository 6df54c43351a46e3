//! A node over several scorers, any of which has each document, with a window that is filled from them.
//!
//! The window is that of qm_combine, with its lemmas. It takes in scores as members move, so moves and scores of a tree
//! are one cycle of calls.

ghost use Rattle.std.specs.Prelude.{◌≡◌, ◌<◌, ◌≤◌, ℕ, map, true};
ghost use Rattle.qm_docset.specs.Entry.{from, greatest_score, head_document, head_score};
ghost use Rattle.qm_docset.specs.Gather.{gather};
ghost use Rattle.qm_combine.specs.Added.{IsAdded};
ghost use Rattle.qm_combine.specs.Combiner.{HasRoomFor, IsCleared};
ghost use Rattle.qm_combine.specs.Union.{least_head, total_top};
ghost use Rattle.qm_combine.specs.Window.{IsUntil, window_combiner, window_end, window_has, window_start, window_state};
ghost use Rattle.qm_scorer.specs.AnyCombiner.{any_cleared, any_combined, any_step};
ghost use Rattle.qm_scorer.specs.Moves.{Swept};
ghost use Rattle.qm_scorer.specs.Tree.{HasUnionParts, IsTree, IsTreePlaced, tree_entries, tree_top};
ghost use Rattle.qm_scorer.specs.United.{AreMembersStanding, IsUnionNode, union_limits, union_list, union_lists, union_shown};
ghost use Rattle.qm_scorer.specs.UnitedFacts.{union-going};
ghost use Rattle.qm_scorer.specs.declared.any_scorer.AnyScorer.{size-AnyScorer};
ghost use Rattle.qm_scorer.specs.declared.union_node.UnionNode.{size-UnionNode};

use crate::any_combiner::AnyCombiner;
use crate::any_scorer::{AnyScorer, doc_tree, reach_tree, score_tree, seek_tree};
use crate::leaves::{is_leaf, take_leaf};
use qm_combine::{SEEK_SPAN, Scorer, Window, WindowedUnion};
use qm_docset::{DocId, Score, TERMINATED};

/// The documents that any of its members has, each with what a combiner makes of the members' scores
/// there.
///
/// It goes by windows as [`BufferedUnionScorer`](qm_combine::BufferedUnionScorer) does: the documents of
/// all members are taken into a [`Window`], with their scores where the combiner takes scores, out of
/// [`FIRST_SPAN`](qm_combine::FIRST_SPAN) documents at first, and then as
/// [`next_span`](Window::next_span) says. The members stand behind the window, ahead of the node's own
/// document. A seek in the window moves no member, one past the least document that the members stand on
/// sends those below its target there, and begins with [`SEEK_SPAN`] documents. A seek at or below the
/// document does nothing.
#[cycle(any)]
#[derive(Drop)]
pub struct UnionNode<'a, S> {
    pub(crate) members: Vec<AnyScorer<'a, S>>,
    pub(crate) window: Window<AnyCombiner>,
    // the least document that the members stand on, behind the window
    pub(crate) ahead: DocId,
    pub(crate) doc: DocId,
    // out of how many documents the window was filled
    pub(crate) span: u32,
    pub(crate) top: u64,
}

// Adds, for each document below `bound` that a tree has left, its score there, and leaves the tree at
// or past `bound`. Answers the document that it then stands on.
// A term comes first, in a body that is inlined, as in a seek.
#[cycle(moves)]
#[inline(always)]
#[tactic(auto, using(crate::specs::MoveFacts::moves))]
fn take_tree<'a, S: Scorer>(
    window: &mut Window<AnyCombiner>,
    member: &mut AnyScorer<'a, S>,
    bound: DocId,
) -> DocId
    requires valid { IsTree S.DocSet member.old }
    requires placed { IsTreePlaced S.DocSet member.old }
    requires bound { bound ≤ window_end window.old }
    requires first { window_start window.old ≤ head_document (tree_entries S.DocSet member.old) }
    requires room { (d : ℕ) → HasRoomFor any_step any_cleared (tree_top S.DocSet member.old) (window_state window.old d) }
    ensures { Swept S.DocSet window.old window.new bound member.old member.new result }
{
    match member {
        AnyScorer::Term(leaf) => window.take_in(leaf, bound),
        _ => take_other(window, member, bound),
    }
}

// The same, whatever the tree is.
#[cycle(moves)]
#[inline(never)]
#[tactic(auto, using(crate::specs::MoveFacts::moves))]
fn take_other<'a, S: Scorer>(
    window: &mut Window<AnyCombiner>,
    member: &mut AnyScorer<'a, S>,
    bound: DocId,
) -> DocId
    requires valid { IsTree S.DocSet member.old }
    requires placed { IsTreePlaced S.DocSet member.old }
    requires bound { bound ≤ window_end window.old }
    requires first { window_start window.old ≤ head_document (tree_entries S.DocSet member.old) }
    requires room { (d : ℕ) → HasRoomFor any_step any_cleared (tree_top S.DocSet member.old) (window_state window.old d) }
    ensures { Swept S.DocSet window.old window.new bound member.old member.new result }
{
    if is_leaf(member) {
        take_leaf(window, member, bound)
    } else {
        take_by_steps(window, member, bound)
    }
}

// The same by seeks, whatever the tree is.
#[cycle(moves)]
#[tactic(auto, using(crate::specs::MoveFacts::moves))]
fn take_by_steps<'a, S: Scorer>(
    window: &mut Window<AnyCombiner>,
    member: &mut AnyScorer<'a, S>,
    bound: DocId,
) -> DocId
    requires valid { IsTree S.DocSet member.old }
    requires placed { IsTreePlaced S.DocSet member.old }
    requires bound { bound ≤ window_end window.old }
    requires first { window_start window.old ≤ head_document (tree_entries S.DocSet member.old) }
    requires room { (d : ℕ) → HasRoomFor any_step any_cleared (tree_top S.DocSet member.old) (window_state window.old d) }
    ensures { Swept S.DocSet window.old window.new bound member.old member.new result }
{
    let mut doc = doc_tree(member);
    // what the tree had below the document is added
    while doc < bound && doc < TERMINATED {
        take_document(window, member, doc);
        doc = seek_tree(member, doc + 1);
    }
    doc
}

// Adds the document that a tree stands on, with its score there: a window that keeps no states takes
// none, and none is asked for.
#[cycle(moves)]
#[tactic(auto, using(crate::specs::MoveFacts::moves))]
fn take_document<'a, S: Scorer>(
    window: &mut Window<AnyCombiner>,
    member: &mut AnyScorer<'a, S>,
    doc: DocId,
)
    requires valid { IsTree S.DocSet member.old }
    requires placed { IsTreePlaced S.DocSet member.old }
    requires here { doc ≡ head_document (tree_entries S.DocSet member.old) }
    requires some { doc < TERMINATED }
    requires span { (window_start window.old ≤ doc) × (doc < window_end window.old) }
    requires room { HasRoomFor any_step any_cleared (tree_top S.DocSet member.old) (window_state window.old doc) }
    ensures entries { tree_entries S.DocSet member.new ≡ tree_entries S.DocSet member.old }
    ensures top { tree_top S.DocSet member.new ≡ tree_top S.DocSet member.old }
    ensures valid { IsTree S.DocSet member.new }
    ensures placed { IsTreePlaced S.DocSet member.new }
    ensures depth { size-AnyScorer _ member.new ≤ size-AnyScorer _ member.old }
    ensures added { IsAdded any_step window.old window.new doc (head_score (tree_entries S.DocSet member.old)) }
{
    if window.keeps_no_states() {
        window.mark(doc);
    } else {
        let score = score_tree(member);
        window.add(doc, score as Score);
    }
}

// Lets the window begin at the node's document, and takes into it all that the members have in its
// first `span` documents. Answers the least document that they then stand on.
#[cycle(moves)]
#[tactic(auto, using(crate::specs::MoveFacts::moves))]
fn refill<'a, S: Scorer>(node: &mut UnionNode<'a, S>, span: u32) -> DocId
    requires members { AreMembersStanding S.DocSet node.old }
    requires room { total_top (union_limits S.DocSet node.old) ≤ greatest_score }
    requires until { IsUntil node.old.window }
    requires cleared { IsCleared any_cleared (window_combiner node.old.window) }
    requires first { node.old.doc ≡ least_head (union_lists S.DocSet node.old) }
    requires some { node.old.doc < TERMINATED }
    requires span { (1 ≤ span) × (span ≤ 4096) }
    ensures entries { union_list S.DocSet node.new ≡ gather 1 (any_combined (window_combiner node.old.window)) (union_lists S.DocSet node.old) }
    ensures least { result ≡ least_head (union_lists S.DocSet node.new) }
    ensures behind { (d : ℕ) → window_has node.new.window d ≡ true → d < result }
    ensures here { window_has node.new.window node.old.doc ≡ true }
    ensures until { IsUntil node.new.window }
    ensures combiner { window_combiner node.new.window ≡ window_combiner node.old.window }
    ensures limits { union_limits S.DocSet node.new ≡ union_limits S.DocSet node.old }
    ensures members { AreMembersStanding S.DocSet node.new }
    ensures doc { node.new.doc ≡ node.old.doc }
    ensures top { node.new.top ≡ node.old.top }
    ensures depth { size-UnionNode _ node.new ≤ size-UnionNode _ node.old }
{
    let first = node.doc;
    node.window.reset_until_last(first);
    let mut least = TERMINATED;
    // the window has what the members before have below its bound, and they stand at or past it
    for i in 0..node.members.len() {
        least = take_tree(&mut node.window, &mut node.members[i], first + span).min(least);
    }
    least
}

// Goes to the least document of the members, and fills the window from there on, out of so many
// documents.
#[cycle(moves)]
#[tactic(auto, using(crate::specs::MoveFacts::moves))]
pub(crate) fn go_on<'a, S: Scorer>(node: &mut UnionNode<'a, S>, span: u32) -> DocId
    requires members { AreMembersStanding S.DocSet node.old }
    requires parts { HasUnionParts node.old.window node.old.top (union_limits S.DocSet node.old) }
    requires span { (1 ≤ span) × (span ≤ 4096) }
    requires ahead { node.old.ahead ≡ least_head (union_lists S.DocSet node.old) }
    requires behind { (d : ℕ) → window_has node.old.window d ≡ true → d < node.old.ahead }
    ensures head { result ≡ head_document (union_list S.DocSet node.new) }
    ensures entries { union_list S.DocSet node.new ≡ gather 1 (any_combined (window_combiner node.old.window)) (union_lists S.DocSet node.old) }
    ensures limits { union_limits S.DocSet node.new ≡ union_limits S.DocSet node.old }
    ensures valid { IsUnionNode S.DocSet node.new }
    ensures top { node.new.top ≡ node.old.top }
    ensures depth { size-UnionNode _ node.new ≤ size-UnionNode _ node.old }
{
    node.doc = node.ahead;
    if node.doc == TERMINATED {
        return TERMINATED;
    }
    node.span = span;
    node.ahead = refill(node, span);
    node.doc
}

// Moves those members that stand below the target to their first document at or past it, and answers
// the least document that one of them then stands on.
#[cycle(moves)]
#[tactic(auto, using(crate::specs::MoveFacts::moves))]
fn reach_each<'a, S: Scorer>(node: &mut UnionNode<'a, S>, target: DocId) -> DocId
    requires members { AreMembersStanding S.DocSet node.old }
    requires target { target ≤ TERMINATED }
    ensures least { result ≡ least_head (union_lists S.DocSet node.new) }
    ensures lists { union_lists S.DocSet node.new ≡ map (from target) (union_lists S.DocSet node.old) }
    ensures limits { union_limits S.DocSet node.new ≡ union_limits S.DocSet node.old }
    ensures members { AreMembersStanding S.DocSet node.new }
    ensures window { node.new.window ≡ node.old.window }
    ensures top { node.new.top ≡ node.old.top }
    ensures depth { size-UnionNode _ node.new ≤ size-UnionNode _ node.old }
{
    let mut least = TERMINATED;
    // the members before stand at or past the target
    for i in 0..node.members.len() {
        least = reach_tree(&mut node.members[i], target).min(least);
    }
    least
}

// Moves the node to its first document at or past the target.
#[cycle(moves)]
#[tactic(auto, using(crate::specs::MoveFacts::moves))]
pub(crate) fn seek_union<'a, S: Scorer>(node: &mut UnionNode<'a, S>, target: DocId) -> DocId
    requires valid { IsUnionNode S.DocSet node.old }
    requires target { target ≤ TERMINATED }
    ensures head { result ≡ head_document (union_list S.DocSet node.new) }
    ensures entries { union_list S.DocSet node.new ≡ from target (union_list S.DocSet node.old) }
    ensures valid { IsUnionNode S.DocSet node.new }
    ensures top { node.new.top ≡ node.old.top }
    ensures depth { size-UnionNode _ node.new ≤ size-UnionNode _ node.old }
{
    if target <= node.doc {
        return node.doc;
    }
    if let Some(doc) = node.window.next_until_last(target) {
        node.doc = doc;
        return doc;
    }
    if target <= node.ahead {
        let span = node.window.next_span(node.span);
        return go_on(node, span);
    }
    node.ahead = reach_each(node, target);
    go_on(node, SEEK_SPAN)
}

// The score of the node's document.
pub(crate) fn score_union<'a, S: Scorer>(node: &mut UnionNode<'a, S>) -> u64
    requires valid { IsUnionNode S.DocSet node.old }
    requires here { node.old.doc < TERMINATED }
    ensures score { result ≡ head_score (union_list S.DocSet node.old) }
    ensures fits { result ≤ greatest_score }
    ensures same { node.new ≡ node.old }
{
    node.window.score(node.doc) as u64
}

impl<'a, S: Scorer> WindowedUnion<AnyCombiner> for UnionNode<'a, S> {
    ghost shown = { λ node. union_shown S.DocSet node };

    ghost standing = { λ node. IsUnionNode S.DocSet node };

    fn window(&self) -> &Window<AnyCombiner> {
        &self.window
    }

    fn document(&self) -> DocId {
        self.doc
    }

    fn next_span(&self) -> u32 {
        self.window.next_span(self.span)
    }

    fn stand_on(&mut self, doc: DocId) {
        self.doc = doc;
    }

    fn go_on(&mut self, span: u32) -> DocId {
        go_on(self, span)
    }

    ghost going = { λ node h.
        union-going (record { entries = S.entries; limits = S.limits; keeps = S.keeps; placed = S.placed; valid = S.valid }) S.ascending node h };
}
