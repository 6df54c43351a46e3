//! Which block is played how.

use crate::scorer_blocks::{play_found, play_tree, play_weight_scorer};
use crate::tree::Source;
use crate::tree_runs::RunAsker;
use crate::weight::read_weight;
use crate::weight_rows::WeightAsker;
use cases::{Block, Done, Fault, Memory, Moves, Report, behind, play_asked, score, word};
use cases_given::{GivenBlocks, World};
use std::alloc::Global;

/// Plays the blocks of trees and weights.
#[derive(Drop)]
pub struct WeightBlocks;

impl GivenBlocks for WeightBlocks {
    fn play_block(
        &self,
        alloc: Global,
        world: &World,
        block: Block<'_>,
        report: &mut Report,
    ) -> Done {
        let words = behind(block.words, 1);
        match word(block.words, 0) {
            "tree" => play_tree(alloc, world, block, words, report),
            "run" => play_runs(alloc, world, block, words, report),
            "found" => play_found(alloc, world, block, words, report),
            "weight" => play_weight(alloc, world, block, words, report),
            "scorer" => play_scorer(alloc, world, block, words, report),
            _ => Err(Fault::NotUnderstood),
        }
    }
}

// `run T`
fn play_runs(
    alloc: Global,
    world: &World,
    block: Block<'_>,
    words: &[&str],
    report: &mut Report,
) -> Done {
    let moves = Moves::new();
    let source = Source {
        world,
        moves: &moves,
        memory: Memory::Ample,
    };
    let mut asker = RunAsker { source, words };
    play_asked(alloc, &mut asker, block.rows, report)
}

// `weight V`
fn play_weight(
    alloc: Global,
    world: &World,
    block: Block<'_>,
    words: &[&str],
    report: &mut Report,
) -> Done {
    let weight = read_weight(alloc, &world.searcher, words)?;
    let mut asker = WeightAsker {
        world,
        weight: &weight,
        segment: 0,
    };
    play_asked(alloc, &mut asker, block.rows, report)
}

// `scorer BOOST weight V`
fn play_scorer(
    alloc: Global,
    world: &World,
    block: Block<'_>,
    words: &[&str],
    report: &mut Report,
) -> Done {
    let boost = score(words, 0).ok_or(Fault::NotUnderstood)?;
    if word(words, 1) != "weight" {
        return Err(Fault::NotUnderstood);
    }
    let weight = read_weight(alloc, &world.searcher, behind(words, 2))?;
    play_weight_scorer(alloc, world, &weight, boost, block, report)
}
