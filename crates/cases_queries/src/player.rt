//! Which block is played how.

use crate::ask_query::QueryAsker;
use crate::ask_scoring::{ScoringAsker, scoring_of};
use crate::query::read_query;
use crate::query_scorers::play_query_scorer;
use crate::weigh::Scales;
use cases::{Block, Done, Fault, Memory, Report, behind, play_asked, score, word};
use cases_given::{GivenBlocks, World};
use std::alloc::Global;
use std::cell::Cell;

/// Plays the blocks of queries.
#[derive(Drop)]
pub struct QueryBlocks;

impl GivenBlocks for QueryBlocks {
    fn play_block(
        &self,
        alloc: Global,
        world: &World,
        block: Block<'_>,
        report: &mut Report,
    ) -> Done {
        let words = behind(block.words, 1);
        match word(block.words, 0) {
            "query" => play_query(alloc, world, block, true, words, report),
            "unscored" => play_query(alloc, world, block, false, words, report),
            "scorer" => play_scorer(alloc, world, block, words, report),
            "scoring" => {
                let scoring = scoring_of(&world.searcher, word(words, 0))?;
                let mut asker = ScoringAsker { scoring };
                play_asked(alloc, &mut asker, block.rows, report)
            }
            _ => Err(Fault::NotUnderstood),
        }
    }
}

// `query Q` or `unscored Q`
fn play_query(
    alloc: Global,
    world: &World,
    block: Block<'_>,
    is_scored: bool,
    words: &[&str],
    report: &mut Report,
) -> Done {
    let asked = Cell::new(0);
    let scales = Scales {
        world,
        is_scored,
        asked: &asked,
    };
    let query = read_query(alloc, world.searcher.schema(), words, block.memory)?;
    let mut asker = QueryAsker {
        scales,
        query,
        original: None,
        segment: 0,
    };
    play_asked(alloc, &mut asker, block.rows, report)
}

// `scorer BOOST query Q` or `scorer BOOST unscored Q`
fn play_scorer(
    alloc: Global,
    world: &World,
    block: Block<'_>,
    words: &[&str],
    report: &mut Report,
) -> Done {
    let boost = score(words, 0).ok_or(Fault::NotUnderstood)?;
    let is_scored = word(words, 1) == "query";
    if !is_scored && word(words, 1) != "unscored" {
        return Err(Fault::NotUnderstood);
    }
    let asked = Cell::new(0);
    let scales = Scales {
        world,
        is_scored,
        asked: &asked,
    };
    let schema = world.searcher.schema();
    let query = read_query(alloc, schema, behind(words, 2), Memory::Ample)?;
    play_query_scorer(alloc, scales, &query, boost, block, report)
}
