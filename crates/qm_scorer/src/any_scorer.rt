//! The tree of scorers.
//!
//! Each node over several members has a form of its own. One form for all would look at every member for each document.

ghost use Rattle.std.specs.Prelude.{◌≡◌, ◌≤◌, ◌<◌, pos};
ghost use Rattle.qm_docset.specs.Cursor.{IsSeekAnswer, OnFound};
ghost use Rattle.qm_docset.specs.Entry.{from, greatest_score, head_document, head_score};
ghost use Rattle.qm_scorer.specs.Moves.{Answered, Scored, Sought};
ghost use Rattle.qm_scorer.specs.Tree.{IsTree, IsTreePlaced, tree_entries, tree_head, tree_limits, tree_top};
ghost use Rattle.qm_scorer.specs.TreeFacts.{tree-ascends};
ghost use Rattle.qm_scorer.specs.declared.any_scorer.AnyScorer.{size-AnyScorer};

use crate::boost_node::{BoostNode, score_boost};
use crate::const_node::{ConstNode, score_const};
use crate::estimates::{Estimate, estimate_tree};
use crate::exclude_node::{ExcludeNode, danger_exclude, score_exclude, seek_exclude};
use crate::group_node::{GroupNode, score_group, seek_group};
use crate::intersection_node::{
    IntersectionNode, advance_intersection, danger_intersection, score_intersection,
    seek_intersection,
};
use crate::leaves::{danger_leaf, score_leaf, seek_leaf};
use crate::optional_node::{OptionalNode, score_optional};
use crate::passing::{advance_tree, count_tree, fill_tree, total_tree};
use crate::union_node::{UnionNode, score_union, seek_union};
use qm_combine::{AllScorer, ConstScorer, EmptyScorer, Scorer};
use qm_docset::{
    AliveBitSet, BitSetDocSet, COLLECT_BLOCK_BUFFER_LEN, DocId, DocSet, Score, SeekDangerResult,
    TERMINATED, seek_answer,
};
use qm_phrase::{PhrasePrefixScorer, PhraseScorer};
use qm_postings::SegmentPostings;
use qm_term::TermScorer;

/// A scorer of a query, as a tree: a leaf lists documents by itself, and a node makes one list of those
/// of the scorers below it. It borrows from the segment whose terms it goes through, and its leaves may
/// be scorers of the caller's own type `S`. A leaf is made by its variant, a node by its builder.
///
/// A call costs the choice of the variant in each node that it comes through, and what the same call of
/// the combinator of that name in `qm_combine` costs; but a `Disjunction` keeps where its members stand in
/// rows, and no heap. A leaf answers each call as its cursor does, and so does a `Boost` or a
/// `Const` over it; a `Union` steps, fills buffers and counts all its documents by its window; an
/// `Intersection` goes to its next document by a step of its leader, every other node by a seek, and
/// these fill buffers and count by such steps. No call takes memory; each takes stack for every level
/// of the tree that it goes down.
#[cycle(any)]
#[derive(Drop)]
pub enum AnyScorer<'a, S> {
    /// No document.
    Empty(EmptyScorer),
    /// Every document, with the score 1.
    All(AllScorer),
    /// What a scorer of the caller's own lists.
    Own(S),
    /// The documents that hold a term.
    Term(Box<TermScorer<'a>>),
    /// The members of a bit set, each with one score.
    BitSet(Box<ConstScorer<BitSetDocSet>>),
    /// The documents where a phrase stands.
    Phrase(Box<PhraseScorer<'a, SegmentPostings<'a>>>),
    /// The documents where a phrase stands whose last term begins with a prefix.
    PhrasePrefix(Box<PhrasePrefixScorer<'a, SegmentPostings<'a>>>),
    /// The documents of another scorer, with their scores times a whole number.
    Boost(Box<BoostNode<'a, S>>),
    /// The documents of another scorer, each with one score.
    Const(Box<ConstNode<'a, S>>),
    /// The documents of one scorer, with the scores that another adds to.
    RequiredOptional(Box<OptionalNode<'a, S>>),
    /// The documents of one scorer that another does not have.
    Exclude(Box<ExcludeNode<'a, S>>),
    /// The documents that any of several scorers has, with their scores combined.
    Union(Box<UnionNode<'a, S>>),
    /// The documents that a minimum of several scorers has, with their scores combined.
    Disjunction(Box<GroupNode<'a, S>>),
    /// The documents that all of several scorers have, with the sums of their scores.
    Intersection(Box<IntersectionNode<'a, S>>),
}

// The document that a placed tree stands on.
#[tactic(auto, using(crate::specs::MoveFacts::moves))]
pub(crate) fn doc_tree<'a, S: Scorer>(scorer: &AnyScorer<'a, S>) -> DocId
    requires valid { IsTree S.DocSet scorer.now }
    requires placed { IsTreePlaced S.DocSet scorer.now }
    ensures { result ≡ tree_head S.DocSet scorer.now }
{
    match scorer {
        AnyScorer::Empty(leaf) => leaf.doc(),
        AnyScorer::All(leaf) => leaf.doc(),
        AnyScorer::Own(leaf) => leaf.doc(),
        AnyScorer::Term(leaf) => (**leaf).doc(),
        AnyScorer::BitSet(leaf) => (**leaf).doc(),
        AnyScorer::Phrase(leaf) => (**leaf).doc(),
        AnyScorer::PhrasePrefix(leaf) => (**leaf).doc(),
        AnyScorer::Boost(node) => doc_tree(&node.inner),
        AnyScorer::Const(node) => doc_tree(&node.inner),
        AnyScorer::RequiredOptional(node) => doc_tree(&node.required),
        AnyScorer::Exclude(node) => doc_tree(&node.inner),
        AnyScorer::Union(node) => node.doc,
        AnyScorer::Disjunction(node) => node.current,
        AnyScorer::Intersection(node) => doc_tree(&node.leader),
    }
}

// Moves a tree to its first document at or past the target.
// A term and a scorer of the caller's own come first, in a body that is inlined: most of what nodes move are terms, and
// those of a weight of terms are scorers of its own.
#[cycle(moves)]
#[inline(always)]
#[tactic(auto, using(crate::specs::MoveFacts::moves))]
pub(crate) fn seek_tree<'a, S: Scorer>(scorer: &mut AnyScorer<'a, S>, target: DocId) -> DocId
    requires valid { IsTree S.DocSet scorer.old }
    requires target { target ≤ TERMINATED }
    ensures { Sought S.DocSet target scorer.old scorer.new result }
{
    match scorer {
        AnyScorer::Term(leaf) => leaf.seek(target),
        AnyScorer::Own(leaf) => leaf.seek(target),
        _ => seek_other(scorer, target),
    }
}

// The same, whatever the tree is.
#[cycle(moves)]
#[inline(never)]
#[tactic(auto, using(crate::specs::MoveFacts::moves))]
fn seek_other<'a, S: Scorer>(scorer: &mut AnyScorer<'a, S>, target: DocId) -> DocId
    requires valid { IsTree S.DocSet scorer.old }
    requires target { target ≤ TERMINATED }
    ensures { Sought S.DocSet target scorer.old scorer.new result }
{
    match scorer {
        AnyScorer::Boost(node) => seek_tree(&mut node.inner, target),
        AnyScorer::Const(node) => seek_tree(&mut node.inner, target),
        AnyScorer::RequiredOptional(node) => seek_tree(&mut node.required, target),
        AnyScorer::Exclude(node) => seek_exclude(node, target),
        AnyScorer::Union(node) => seek_union(node, target),
        AnyScorer::Disjunction(node) => seek_group(node, target),
        AnyScorer::Intersection(node) => seek_intersection(node, target),
        _ => seek_leaf(scorer, target),
    }
}

// The same of a placed tree, which is not sent where it stands there already.
#[cycle(moves)]
#[tactic(auto, using(crate::specs::MoveFacts::moves))]
pub(crate) fn reach_tree<'a, S: Scorer>(scorer: &mut AnyScorer<'a, S>, target: DocId) -> DocId
    requires valid { IsTree S.DocSet scorer.old }
    requires placed { IsTreePlaced S.DocSet scorer.old }
    requires target { target ≤ TERMINATED }
    ensures sought { Sought S.DocSet target scorer.old scorer.new result }
    ensures stands { tree_head S.DocSet scorer.new ≡ result }
{
    let doc = doc_tree(scorer);
    if doc < target {
        seek_tree(scorer, target)
    } else {
        doc
    }
}

// Drops what lies below the target, and says whether the target is the first that is left; where it is
// not, the tree may stand nowhere.
#[cycle(moves)]
#[inline(always)]
#[tactic(auto, using(crate::specs::MoveFacts::moves))]
pub(crate) fn danger_tree<'a, S: Scorer>(
    scorer: &mut AnyScorer<'a, S>,
    target: DocId,
) -> SeekDangerResult
    requires valid { IsTree S.DocSet scorer.old }
    requires target { target ≤ TERMINATED }
    ensures { Answered S.DocSet target scorer.old scorer.new result }
{
    match scorer {
        AnyScorer::Term(leaf) => leaf.seek_danger(target),
        AnyScorer::Own(leaf) => leaf.seek_danger(target),
        _ => danger_other(scorer, target),
    }
}

// The same, whatever the tree is.
#[cycle(moves)]
#[inline(never)]
#[tactic(auto, using(crate::specs::MoveFacts::moves))]
fn danger_other<'a, S: Scorer>(scorer: &mut AnyScorer<'a, S>, target: DocId) -> SeekDangerResult
    requires valid { IsTree S.DocSet scorer.old }
    requires target { target ≤ TERMINATED }
    ensures { Answered S.DocSet target scorer.old scorer.new result }
{
    match scorer {
        AnyScorer::Boost(node) => danger_tree(&mut node.inner, target),
        AnyScorer::Const(node) => danger_tree(&mut node.inner, target),
        AnyScorer::RequiredOptional(node) => danger_tree(&mut node.required, target),
        AnyScorer::Exclude(node) => danger_exclude(node, target),
        AnyScorer::Union(_) | AnyScorer::Disjunction(_) => danger_by_seek(scorer, target),
        AnyScorer::Intersection(node) => danger_intersection(node, target),
        _ => danger_leaf(scorer, target),
    }
}

// The same by a seek, of a tree that can tell by nothing less: it is placed in either case.
#[cycle(moves)]
#[tactic(auto, using(crate::specs::MoveFacts::moves))]
fn danger_by_seek<'a, S: Scorer>(scorer: &mut AnyScorer<'a, S>, target: DocId) -> SeekDangerResult
    requires valid { IsTree S.DocSet scorer.old }
    requires target { target ≤ TERMINATED }
    ensures { Answered S.DocSet target scorer.old scorer.new result }
{
    let doc = seek_other(scorer, target);
    seek_answer(target, doc)
}

// The score of the document that a tree stands on.
#[cycle(moves)]
#[inline(always)]
#[tactic(auto, using(crate::specs::MoveFacts::scores))]
pub(crate) fn score_tree<'a, S: Scorer>(scorer: &mut AnyScorer<'a, S>) -> u64
    requires valid { IsTree S.DocSet scorer.old }
    requires placed { IsTreePlaced S.DocSet scorer.old }
    requires here { tree_head S.DocSet scorer.old < TERMINATED }
    ensures { Scored S.DocSet scorer.old scorer.new result }
{
    match scorer {
        AnyScorer::Term(leaf) => leaf.score() as u64,
        AnyScorer::Own(leaf) => leaf.score() as u64,
        _ => score_other(scorer),
    }
}

// The same, whatever the tree is.
#[cycle(moves)]
#[inline(never)]
#[tactic(auto, using(crate::specs::MoveFacts::scores))]
fn score_other<'a, S: Scorer>(scorer: &mut AnyScorer<'a, S>) -> u64
    requires valid { IsTree S.DocSet scorer.old }
    requires placed { IsTreePlaced S.DocSet scorer.old }
    requires here { tree_head S.DocSet scorer.old < TERMINATED }
    ensures { Scored S.DocSet scorer.old scorer.new result }
{
    match scorer {
        AnyScorer::Boost(node) => score_boost(node),
        AnyScorer::Const(node) => score_const(node),
        AnyScorer::RequiredOptional(node) => score_optional(node),
        AnyScorer::Exclude(node) => score_exclude(node),
        AnyScorer::Union(node) => score_union(node),
        AnyScorer::Disjunction(node) => score_group(node),
        AnyScorer::Intersection(node) => score_intersection(node),
        _ => score_leaf(scorer),
    }
}

impl<'a, S: Scorer> AnyScorer<'a, S> {
    // The bound on its scores.
    fn top(&self) -> Score
        requires valid { IsTree S.DocSet self.now }
        ensures { result ≡ pos (tree_top S.DocSet self.now) }
    {
        match self {
            AnyScorer::Empty(leaf) => leaf.max_score(),
            AnyScorer::All(leaf) => leaf.max_score(),
            AnyScorer::Own(leaf) => leaf.max_score(),
            AnyScorer::Term(leaf) => Scorer::max_score(&**leaf),
            AnyScorer::BitSet(leaf) => (**leaf).max_score(),
            AnyScorer::Phrase(leaf) => (**leaf).max_score(),
            AnyScorer::PhrasePrefix(leaf) => (**leaf).max_score(),
            AnyScorer::Boost(node) => node.top as Score,
            AnyScorer::Const(node) => node.score as Score,
            AnyScorer::RequiredOptional(node) => node.top as Score,
            AnyScorer::Exclude(node) => node.top as Score,
            AnyScorer::Union(node) => node.top as Score,
            AnyScorer::Disjunction(node) => node.shape.top as Score,
            AnyScorer::Intersection(node) => node.top as Score,
        }
    }
}

impl<'a, S: Scorer> DocSet for AnyScorer<'a, S> {
    ghost entries = { λ x. tree_entries S.DocSet x };

    ghost limits = { λ x. tree_limits S.DocSet x };

    ghost placed = { λ x. IsTreePlaced S.DocSet x };

    ghost valid = { λ x. IsTree S.DocSet x };

    fn doc(&self) -> DocId {
        doc_tree(self)
    }

    // The root of most trees is an intersection: here it is reached without the choice among all
    // variants. A member is asked by `advance_tree`, whose one test is for a term.
    fn advance(&mut self) -> DocId {
        match self {
            AnyScorer::Intersection(node) => advance_intersection(node),
            _ => advance_tree(self),
        }
    }

    fn seek(&mut self, target: DocId) -> DocId {
        seek_tree(self, target)
    }

    fn seek_danger(&mut self, target: DocId) -> SeekDangerResult {
        danger_tree(self, target)
    }

    fn fill_buffer(&mut self, buffer: &mut [DocId; COLLECT_BLOCK_BUFFER_LEN]) -> usize {
        fill_tree(self, buffer)
    }

    fn size_hint(&self) -> u32 {
        estimate_tree(self, Estimate::Remaining).min(u64::from(u32::MAX)) as u32
    }

    fn cost(&self) -> u64 {
        estimate_tree(self, Estimate::Cost)
    }

    fn count(&mut self, alive: &AliveBitSet) -> u32 {
        count_tree(self, alive)
    }

    fn count_including_deleted(&mut self) -> u32 {
        total_tree(self)
    }

    ghost ascending = { λ x h.
        tree-ascends (record { entries = S.entries; limits = S.limits; keeps = S.keeps; placed = S.placed; valid = S.valid }) S.ascending x h };
}

impl<'a, S: Scorer> Scorer for AnyScorer<'a, S> {
    // As in `advance`.
    fn score(&mut self) -> Score {
        match self {
            AnyScorer::Intersection(node) => score_intersection(node) as Score,
            _ => score_tree(self) as Score,
        }
    }

    fn max_score(&self) -> Score {
        self.top()
    }
}
