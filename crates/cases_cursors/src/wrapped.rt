//! Blocks of what is made of one cursor or of two.

ghost use Rattle.qm_docset.specs.Lists.{IsPlaced};

use crate::cursors::{play_made, play_new};
use cases::{
    Block, Desk, Done, Fault, Leaf, Moves, Report, behind, read_leaf, read_leaves, score, word,
};
use qm_combine::{
    BoostScorer, ConstScorer, DisjunctionMaxCombiner, DoNothingCombiner, Exclude,
    RequiredOptionalScorer, ScoreCombiner, SumCombiner,
};
use qm_docset::{AliveBitSet, DocSet, ExclusionSet};
use std::alloc::Global;

/// Plays `const S LEAF`.
pub fn play_const(
    alloc: Global,
    alive: &AliveBitSet,
    block: Block<'_>,
    report: &mut Report,
) -> Done {
    let moves = &Moves::new();
    let desk = Desk { alive, moves };
    let Some(score) = score(block.words, 1) else {
        return Err(Fault::NotUnderstood);
    };
    let leaf = read_leaf(alloc, behind(block.words, 2), true, moves)?;
    block.memory.begin(alloc);
    play_made(alloc, &desk, ConstScorer::new(leaf, score), block, report)
}

/// Plays `boost K LEAF`.
pub fn play_boost(
    alloc: Global,
    alive: &AliveBitSet,
    block: Block<'_>,
    report: &mut Report,
) -> Done {
    let moves = &Moves::new();
    let desk = Desk { alive, moves };
    let Some(boost) = score(block.words, 1) else {
        return Err(Fault::NotUnderstood);
    };
    let leaf = read_leaf(alloc, behind(block.words, 2), true, moves)?;
    block.memory.begin(alloc);
    play_new(alloc, &desk, BoostScorer::new(leaf, boost), block, report)
}

/// Plays `boxedscorer LEAF`.
pub fn play_boxed_scorer(
    alloc: Global,
    alive: &AliveBitSet,
    block: Block<'_>,
    report: &mut Report,
) -> Done {
    let moves = &Moves::new();
    let desk = Desk { alive, moves };
    let leaf = read_leaf(alloc, behind(block.words, 1), true, moves)?;
    let boxed = Box::new(alloc, leaf)?;
    play_made(alloc, &desk, boxed, block, report)
}

/// Plays `exclude LEAF ; LEAF ..`.
pub fn play_exclude(
    alloc: Global,
    alive: &AliveBitSet,
    block: Block<'_>,
    report: &mut Report,
) -> Done {
    let moves = &Moves::new();
    let desk = Desk { alive, moves };
    let mut leaves = read_leaves(alloc, behind(block.words, 1), moves)?;
    if leaves.len() < 2 {
        return Err(Fault::NotUnderstood);
    }
    let first = leaves.remove(0);
    if leaves.len() == 1 {
        let other = leaves.swap_remove(0);
        exclude(alloc, &desk, first, other, block, report)
    } else {
        exclude(alloc, &desk, first, leaves, block, report)
    }
}

fn exclude<'a, E: ExclusionSet>(
    alloc: Global,
    desk: &Desk<'_>,
    leaf: Leaf<'a>,
    exclusion: E,
    block: Block<'_>,
    report: &mut Report,
) -> Done
    requires placed { IsPlaced ⟦<Leaf<'a> as DocSet>⟧ leaf }
    requires usable { E.usable exclusion }
{
    block.memory.begin(alloc);
    play_made(alloc, desk, Exclude::new(leaf, exclusion), block, report)
}

/// Plays `optional COMBINER LEAF ; LEAF`; of the maximum combiners there is the default alone, `max 0`.
pub fn play_optional(
    alloc: Global,
    alive: &AliveBitSet,
    block: Block<'_>,
    report: &mut Report,
) -> Done {
    match (word(block.words, 1), word(block.words, 2)) {
        ("sum", _) => optional::<SumCombiner>(alloc, alive, 2, block, report),
        ("nothing", _) => optional::<DoNothingCombiner>(alloc, alive, 2, block, report),
        ("max", "0") => optional::<DisjunctionMaxCombiner>(alloc, alive, 3, block, report),
        _ => Err(Fault::NotUnderstood),
    }
}

fn optional<C: ScoreCombiner>(
    alloc: Global,
    alive: &AliveBitSet,
    at: usize,
    block: Block<'_>,
    report: &mut Report,
) -> Done {
    let moves = &Moves::new();
    let desk = Desk { alive, moves };
    let mut leaves = read_leaves(alloc, behind(block.words, at), moves)?;
    if leaves.len() != 2 {
        return Err(Fault::NotUnderstood);
    }
    let required = leaves.remove(0);
    let optional = leaves.swap_remove(0);
    block.memory.begin(alloc);
    play_new(
        alloc,
        &desk,
        RequiredOptionalScorer::<Leaf<'_>, Leaf<'_>, C>::new(required, optional),
        block,
        report,
    )
}
