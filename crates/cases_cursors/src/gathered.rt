//! Blocks of what is made of several scorers.

ghost use Rattle.std.specs.Prelude.{◌≤◌};
ghost use Rattle.qm_docset.specs.Lists.{ArePlaced};

use crate::constants::read_constants;
use crate::cursors::play_new;
use cases::{Block, Desk, Done, Fault, Moves, Report, behind, number, read_leaves, word};
use qm_combine::{
    BufferedDisjunction, BufferedUnionScorer, Disjunction, DisjunctionMaxCombiner,
    DoNothingCombiner, Intersection, ScoreCombiner, Scorer, SumCombiner,
};
use qm_docset::AliveBitSet;
use std::alloc::Global;

/// Plays `intersection MAX MEMBERS`.
pub fn play_intersection(
    alloc: Global,
    alive: &AliveBitSet,
    block: Block<'_>,
    report: &mut Report,
) -> Done {
    let moves = &Moves::new();
    let desk = Desk { alive, moves };
    let Some(num_docs) = number(block.words, 1) else {
        return Err(Fault::NotUnderstood);
    };
    let words = behind(block.words, 2);
    if word(words, 0) == "const" {
        let members = read_constants(alloc, words)?;
        intersect(alloc, &desk, members, num_docs, block, report)
    } else {
        let members = read_leaves(alloc, words, moves)?;
        intersect(alloc, &desk, members, num_docs, block, report)
    }
}

fn intersect<S: Scorer>(
    alloc: Global,
    desk: &Desk<'_>,
    members: Vec<S>,
    num_docs: u32,
    block: Block<'_>,
    report: &mut Report,
) -> Done
    requires { ArePlaced S.DocSet members.items }
{
    if members.len() < 2 {
        return Err(Fault::NotAllowed);
    }
    block.memory.begin(alloc);
    play_new(
        alloc,
        desk,
        Intersection::new(alloc, members, num_docs),
        block,
        report,
    )
}

/// Plays `union COMBINER MAX MEMBERS`.
pub fn play_union(
    alloc: Global,
    alive: &AliveBitSet,
    block: Block<'_>,
    report: &mut Report,
) -> Done {
    match word(block.words, 1) {
        "sum" => unite(alloc, alive, SumCombiner::default(), 2, block, report),
        "nothing" => unite(alloc, alive, DoNothingCombiner, 2, block, report),
        "max" => {
            let combiner = read_maximum(block.words, 2)?;
            unite(alloc, alive, combiner, 3, block, report)
        }
        _ => Err(Fault::NotUnderstood),
    }
}

/// The combiner with the tie breaker that a word spells.
pub fn read_maximum(words: &[&str], at: usize) -> Result<DisjunctionMaxCombiner, Fault> {
    let Some(tie_breaker) = number(words, at) else {
        return Err(Fault::NotUnderstood);
    };
    match DisjunctionMaxCombiner::with_tie_breaker(tie_breaker) {
        Ok(combiner) => Ok(combiner),
        Err(error) => Err(Fault::Refused(error)),
    }
}

fn unite<C: ScoreCombiner>(
    alloc: Global,
    alive: &AliveBitSet,
    combiner: C,
    at: usize,
    block: Block<'_>,
    report: &mut Report,
) -> Done {
    let moves = &Moves::new();
    let desk = Desk { alive, moves };
    let Some(num_docs) = number(block.words, at) else {
        return Err(Fault::NotUnderstood);
    };
    let words = behind(behind(block.words, at), 1);
    if word(words, 0) == "const" {
        let members = read_constants(alloc, words)?;
        unite_members(alloc, &desk, members, combiner, num_docs, block, report)
    } else {
        let members = read_leaves(alloc, words, moves)?;
        unite_members(alloc, &desk, members, combiner, num_docs, block, report)
    }
}

fn unite_members<S: Scorer, C: ScoreCombiner>(
    alloc: Global,
    desk: &Desk<'_>,
    members: Vec<S>,
    combiner: C,
    num_docs: u32,
    block: Block<'_>,
    report: &mut Report,
) -> Done
    requires { ArePlaced S.DocSet members.items }
{
    block.memory.begin(alloc);
    play_new(
        alloc,
        desk,
        BufferedUnionScorer::build(alloc, members, combiner, num_docs),
        block,
        report,
    )
}

/// Plays `atleast MIN COMBINER MEMBERS`, `unforetold MIN COMBINER MEMBERS`, whose members come from an
/// iterator that does not foretell how many it gives, and `enough MIN COMBINER MAX MEMBERS`, which goes
/// over a window.
pub fn play_at_least(
    alloc: Global,
    alive: &AliveBitSet,
    block: Block<'_>,
    report: &mut Report,
) -> Done {
    match word(block.words, 2) {
        "sum" => gather(alloc, alive, SumCombiner::default(), 3, block, report),
        "nothing" => gather(alloc, alive, DoNothingCombiner, 3, block, report),
        "max" => {
            let combiner = read_maximum(block.words, 3)?;
            gather(alloc, alive, combiner, 4, block, report)
        }
        _ => Err(Fault::NotUnderstood),
    }
}

fn gather<C: ScoreCombiner>(
    alloc: Global,
    alive: &AliveBitSet,
    combiner: C,
    at: usize,
    block: Block<'_>,
    report: &mut Report,
) -> Done {
    let moves = &Moves::new();
    let desk = Desk { alive, moves };
    let words = if word(block.words, 0) == "enough" {
        behind(behind(block.words, at), 1)
    } else {
        behind(block.words, at)
    };
    if word(words, 0) == "const" {
        let members = read_constants(alloc, words)?;
        gather_members(alloc, &desk, members, combiner, at, block, report)
    } else {
        let members = read_leaves(alloc, words, moves)?;
        gather_members(alloc, &desk, members, combiner, at, block, report)
    }
}

fn gather_members<S: Scorer, C: ScoreCombiner>(
    alloc: Global,
    desk: &Desk<'_>,
    members: Vec<S>,
    combiner: C,
    at: usize,
    block: Block<'_>,
    report: &mut Report,
) -> Done
    requires { ArePlaced S.DocSet members.items }
{
    let Some(minimum) = word(block.words, 1).parse::<usize>().ok() else {
        return Err(Fault::NotUnderstood);
    };
    if word(block.words, 0) == "enough" {
        let Some(num_docs) = number(block.words, at) else {
            return Err(Fault::NotUnderstood);
        };
        if minimum == 0 {
            return Err(Fault::NotAllowed);
        }
        block.memory.begin(alloc);
        let built = BufferedDisjunction::build(alloc, members, combiner, minimum, num_docs);
        return play_new(alloc, desk, built, block, report);
    }
    if minimum < 2 {
        return Err(Fault::NotAllowed);
    }
    if word(block.words, 0) == "unforetold" {
        play_unforetold(alloc, desk, members, combiner, minimum, block, report)
    } else {
        play_foretold(alloc, desk, members, combiner, minimum, block, report)
    }
}

fn play_foretold<S: Scorer, C: ScoreCombiner>(
    alloc: Global,
    desk: &Desk<'_>,
    members: Vec<S>,
    combiner: C,
    minimum: usize,
    block: Block<'_>,
    report: &mut Report,
) -> Done
    requires minimum { 2 ≤ minimum }
    requires placed { ArePlaced S.DocSet members.items }
{
    block.memory.begin(alloc);
    play_new(
        alloc,
        desk,
        Disjunction::new(alloc, members, combiner, minimum),
        block,
        report,
    )
}

fn play_unforetold<S: Scorer, C: ScoreCombiner>(
    alloc: Global,
    desk: &Desk<'_>,
    members: Vec<S>,
    combiner: C,
    minimum: usize,
    block: Block<'_>,
    report: &mut Report,
) -> Done
    requires minimum { 2 ≤ minimum }
    requires placed { ArePlaced S.DocSet members.items }
{
    let each = members.into_iter().filter(|_| true);
    block.memory.begin(alloc);
    play_new(
        alloc,
        desk,
        Disjunction::new(alloc, each, combiner, minimum),
        block,
        report,
    )
}
