//! The calls of the leaves of a tree, which their own cursors answer. They go through no other tree, so
//! they stand beside the calls that do, and are proved by themselves.

ghost use Rattle.std.specs.Prelude.{◌≡◌, ◌≤◌, ◌<◌, ℕ, length, true};
ghost use Rattle.qm_docset.specs.AliveBitSet.{alive_entries};
ghost use Rattle.qm_docset.specs.Entry.{head_document};
ghost use Rattle.qm_combine.specs.Combiner.{HasRoomFor};
ghost use Rattle.qm_combine.specs.Window.{window_end, window_start, window_state};
ghost use Rattle.qm_scorer.specs.AnyCombiner.{any_cleared, any_step};
ghost use Rattle.qm_scorer.specs.Leaf.{IsLeaf};
ghost use Rattle.qm_scorer.specs.Moves.{Answered, Counted, Filled, Scored, Sought, Stepped, Swept};
ghost use Rattle.qm_scorer.specs.Tree.{IsTree, IsTreePlaced, tree_entries, tree_head, tree_top};

use crate::any_combiner::AnyCombiner;
use crate::any_scorer::AnyScorer;
use qm_combine::{Scorer, Window};
use qm_docset::{
    AliveBitSet, COLLECT_BLOCK_BUFFER_LEN, DocId, DocSet, SeekDangerResult, TERMINATED,
};

// Whether a tree is a leaf.
#[inline]
pub(crate) fn is_leaf<'a, S: Scorer>(scorer: &AnyScorer<'a, S>) -> bool
    ensures { result ≡ true → IsLeaf scorer.now }
{
    match scorer {
        AnyScorer::Boost(_)
        | AnyScorer::Const(_)
        | AnyScorer::RequiredOptional(_)
        | AnyScorer::Exclude(_)
        | AnyScorer::Union(_)
        | AnyScorer::Disjunction(_)
        | AnyScorer::Intersection(_) => false,
        _ => true,
    }
}

// Moves a leaf to its first document at or past the target.
#[inline]
#[tactic(auto, using(crate::specs::MoveFacts::moves))]
pub(crate) fn seek_leaf<'a, S: Scorer>(scorer: &mut AnyScorer<'a, S>, target: DocId) -> DocId
    requires leaf { IsLeaf scorer.old }
    requires valid { IsTree S.DocSet scorer.old }
    requires target { target ≤ TERMINATED }
    ensures { Sought S.DocSet target scorer.old scorer.new result }
{
    match scorer {
        AnyScorer::Empty(leaf) => leaf.seek(target),
        AnyScorer::All(leaf) => leaf.seek(target),
        AnyScorer::Own(leaf) => leaf.seek(target),
        AnyScorer::Term(leaf) => (**leaf).seek(target),
        AnyScorer::BitSet(leaf) => (**leaf).seek(target),
        AnyScorer::Phrase(leaf) => (**leaf).seek(target),
        AnyScorer::PhrasePrefix(leaf) => (**leaf).seek(target),
        _ => unreachable!(),
    }
}

// Drops what lies below the target, and says whether the target is the first that is left.
#[inline]
#[tactic(auto, using(crate::specs::MoveFacts::moves))]
pub(crate) fn danger_leaf<'a, S: Scorer>(
    scorer: &mut AnyScorer<'a, S>,
    target: DocId,
) -> SeekDangerResult
    requires leaf { IsLeaf scorer.old }
    requires valid { IsTree S.DocSet scorer.old }
    requires target { target ≤ TERMINATED }
    ensures { Answered S.DocSet target scorer.old scorer.new result }
{
    match scorer {
        AnyScorer::Empty(leaf) => leaf.seek_danger(target),
        AnyScorer::All(leaf) => leaf.seek_danger(target),
        AnyScorer::Own(leaf) => leaf.seek_danger(target),
        AnyScorer::Term(leaf) => (**leaf).seek_danger(target),
        AnyScorer::BitSet(leaf) => (**leaf).seek_danger(target),
        AnyScorer::Phrase(leaf) => (**leaf).seek_danger(target),
        AnyScorer::PhrasePrefix(leaf) => (**leaf).seek_danger(target),
        _ => unreachable!(),
    }
}

// The score of the document that a leaf stands on.
#[inline]
#[tactic(auto, using(crate::specs::MoveFacts::scores))]
pub(crate) fn score_leaf<'a, S: Scorer>(scorer: &mut AnyScorer<'a, S>) -> u64
    requires leaf { IsLeaf scorer.old }
    requires valid { IsTree S.DocSet scorer.old }
    requires placed { IsTreePlaced S.DocSet scorer.old }
    requires here { tree_head S.DocSet scorer.old < TERMINATED }
    ensures { Scored S.DocSet scorer.old scorer.new result }
{
    match scorer {
        AnyScorer::Empty(leaf) => leaf.score() as u64,
        AnyScorer::All(leaf) => leaf.score() as u64,
        AnyScorer::Own(leaf) => leaf.score() as u64,
        AnyScorer::Term(leaf) => (**leaf).score() as u64,
        AnyScorer::BitSet(leaf) => (**leaf).score() as u64,
        AnyScorer::Phrase(leaf) => (**leaf).score() as u64,
        AnyScorer::PhrasePrefix(leaf) => (**leaf).score() as u64,
        _ => unreachable!(),
    }
}

// Adds, for each document below `bound` that a leaf has left, its score there, and leaves the leaf at
// or past `bound`. Answers the document that it then stands on.
#[inline]
#[tactic(auto, using(crate::specs::MoveFacts::moves))]
pub(crate) fn take_leaf<'a, S: Scorer>(
    window: &mut Window<AnyCombiner>,
    member: &mut AnyScorer<'a, S>,
    bound: DocId,
) -> DocId
    requires leaf { IsLeaf member.old }
    requires valid { IsTree S.DocSet member.old }
    requires placed { IsTreePlaced S.DocSet member.old }
    requires bound { bound ≤ window_end window.old }
    requires first { window_start window.old ≤ head_document (tree_entries S.DocSet member.old) }
    requires room { (d : ℕ) → HasRoomFor any_step any_cleared (tree_top S.DocSet member.old) (window_state window.old d) }
    ensures { Swept S.DocSet window.old window.new bound member.old member.new result }
{
    match member {
        AnyScorer::Empty(leaf) => window.take_in(leaf, bound),
        AnyScorer::All(leaf) => window.take_in(leaf, bound),
        AnyScorer::Own(leaf) => window.take_in(leaf, bound),
        AnyScorer::Term(leaf) => window.take_in(&mut **leaf, bound),
        AnyScorer::BitSet(leaf) => window.take_in(&mut **leaf, bound),
        AnyScorer::Phrase(leaf) => window.take_in(&mut **leaf, bound),
        AnyScorer::PhrasePrefix(leaf) => window.take_in(&mut **leaf, bound),
        _ => unreachable!(),
    }
}

// Goes to the next document.
#[inline]
#[tactic(auto, using(crate::specs::PassingFacts::passing))]
pub(crate) fn advance_leaf<'a, S: Scorer>(scorer: &mut AnyScorer<'a, S>) -> DocId
    requires leaf { IsLeaf scorer.old }
    requires valid { IsTree S.DocSet scorer.old }
    requires placed { IsTreePlaced S.DocSet scorer.old }
    ensures { Stepped S.DocSet scorer.old scorer.new result }
{
    match scorer {
        AnyScorer::Empty(leaf) => leaf.advance(),
        AnyScorer::All(leaf) => leaf.advance(),
        AnyScorer::Own(leaf) => leaf.advance(),
        AnyScorer::Term(leaf) => (**leaf).advance(),
        AnyScorer::BitSet(leaf) => (**leaf).advance(),
        AnyScorer::Phrase(leaf) => (**leaf).advance(),
        AnyScorer::PhrasePrefix(leaf) => (**leaf).advance(),
        _ => unreachable!(),
    }
}

// Takes the next documents, as many as the buffer has room for.
#[inline]
#[tactic(auto, using(crate::specs::PassingFacts::passing))]
pub(crate) fn fill_leaf<'a, S: Scorer>(
    scorer: &mut AnyScorer<'a, S>,
    buffer: &mut [DocId; COLLECT_BLOCK_BUFFER_LEN],
) -> usize
    requires leaf { IsLeaf scorer.old }
    requires valid { IsTree S.DocSet scorer.old }
    requires placed { IsTreePlaced S.DocSet scorer.old }
    ensures { Filled S.DocSet buffer.new scorer.old scorer.new result }
{
    match scorer {
        AnyScorer::Empty(leaf) => leaf.fill_buffer(buffer),
        AnyScorer::All(leaf) => leaf.fill_buffer(buffer),
        AnyScorer::Own(leaf) => leaf.fill_buffer(buffer),
        AnyScorer::Term(leaf) => (**leaf).fill_buffer(buffer),
        AnyScorer::BitSet(leaf) => (**leaf).fill_buffer(buffer),
        AnyScorer::Phrase(leaf) => (**leaf).fill_buffer(buffer),
        AnyScorer::PhrasePrefix(leaf) => (**leaf).fill_buffer(buffer),
        _ => unreachable!(),
    }
}

// The number of alive documents; leaves none.
#[inline]
pub(crate) fn count_leaf<'a, S: Scorer>(scorer: &mut AnyScorer<'a, S>, alive: &AliveBitSet) -> u32
    requires leaf { IsLeaf scorer.old }
    requires valid { IsTree S.DocSet scorer.old }
    requires placed { IsTreePlaced S.DocSet scorer.old }
    ensures { Counted S.DocSet (λ es. length (alive_entries alive.now es)) scorer.old scorer.new result }
{
    match scorer {
        AnyScorer::Empty(leaf) => leaf.count(alive),
        AnyScorer::All(leaf) => leaf.count(alive),
        AnyScorer::Own(leaf) => leaf.count(alive),
        AnyScorer::Term(leaf) => (**leaf).count(alive),
        AnyScorer::BitSet(leaf) => (**leaf).count(alive),
        AnyScorer::Phrase(leaf) => (**leaf).count(alive),
        AnyScorer::PhrasePrefix(leaf) => (**leaf).count(alive),
        _ => unreachable!(),
    }
}

// The number of documents, deleted ones too; leaves none.
#[inline]
pub(crate) fn total_leaf<'a, S: Scorer>(scorer: &mut AnyScorer<'a, S>) -> u32
    requires leaf { IsLeaf scorer.old }
    requires valid { IsTree S.DocSet scorer.old }
    requires placed { IsTreePlaced S.DocSet scorer.old }
    ensures { Counted S.DocSet length scorer.old scorer.new result }
{
    match scorer {
        AnyScorer::Empty(leaf) => leaf.count_including_deleted(),
        AnyScorer::All(leaf) => leaf.count_including_deleted(),
        AnyScorer::Own(leaf) => leaf.count_including_deleted(),
        AnyScorer::Term(leaf) => (**leaf).count_including_deleted(),
        AnyScorer::BitSet(leaf) => (**leaf).count_including_deleted(),
        AnyScorer::Phrase(leaf) => (**leaf).count_including_deleted(),
        AnyScorer::PhrasePrefix(leaf) => (**leaf).count_including_deleted(),
        _ => unreachable!(),
    }
}
