//! Blocks whose rows are on a scorer.

ghost use Rattle.std.specs.Prelude.{◌≤ℤ◌, IfOk, pos};
ghost use Rattle.qm_docset.specs.Lists.{IsPlaced};
ghost use Rattle.qm_weight.specs.TermScorers.{IsOfTerm};

use crate::similarity::read_similarity;
use crate::tree::{Source, Tree, read_tree};
use cases::{Block, Desk, Done, Fault, Leaf, Moves, Report, Row, number, play_scores, word};
use cases_given::{World, play_segment_scorer, read_term};
use qm_combine::AllScorer;
use qm_docset::{DocSet, Score, TERMINATED};
use qm_postings::{Searcher, SegmentReader};
use qm_schema::IndexRecordOption;
use qm_scorer::AnyScorer;
use qm_term::TermScorer;
use qm_weight::{AnyWeight, TermOrEmptyOrAllScorer, Weight};
use std::alloc::Global;

/// Plays rows on the tree of words.
pub fn play_tree(
    alloc: Global,
    world: &World,
    block: Block<'_>,
    words: &[&str],
    report: &mut Report,
) -> Done {
    let moves = Moves::new();
    let source = Source {
        world,
        moves: &moves,
        memory: block.memory,
    };
    match read_tree(alloc, source, words) {
        Ok(tree) => play_made(alloc, source, tree, block.rows, report),
        Err(fault) => Err(fault),
    }
}

// Holds the tree alone.
fn play_made<'a>(
    alloc: Global,
    source: Source<'a>,
    mut tree: Tree<'a>,
    rows: &[Row<'_>],
    report: &mut Report,
) -> Done
    requires { IsPlaced ⟦<AnyScorer<'a, Leaf<'a>> as DocSet>⟧ tree }
{
    let desk = Desk {
        alive: &source.world.alive,
        moves: source.moves,
    };
    play_scores(alloc, &desk, &mut tree, rows, report)
}

/// Plays rows on the scorer of a weight.
pub fn play_weight_scorer(
    alloc: Global,
    world: &World,
    weight: &AnyWeight,
    boost: Score,
    block: Block<'_>,
    report: &mut Report,
) -> Done
    requires { pos 0 ≤ℤ boost }
{
    let segment = world.segment(0)?;
    block.memory.begin(alloc);
    match weight.scorer(alloc, segment, boost) {
        Ok(scorer) => play_segment_scorer(alloc, world, scorer, block.rows, report),
        Err(error) => Err(Fault::Refused(error)),
    }
}

/// Plays rows on what the scorer of a term is in a tree: `all N`, `none` or `basic W WEIGHT`.
pub fn play_found(
    alloc: Global,
    world: &World,
    block: Block<'_>,
    words: &[&str],
    report: &mut Report,
) -> Done {
    match word(words, 0) {
        "none" => play_term(
            alloc,
            world,
            TermOrEmptyOrAllScorer::Empty,
            block.rows,
            report,
        ),
        "all" => match number(words, 1) {
            Some(max_doc) if max_doc <= TERMINATED => {
                let all = TermOrEmptyOrAllScorer::AllMatch(AllScorer::new(max_doc));
                play_term(alloc, world, all, block.rows, report)
            }
            _ => Err(Fault::NotUnderstood),
        },
        "basic" => {
            let segment = world.segment(0)?;
            let found = find_term(alloc, segment, &world.searcher, words)?;
            play_term(alloc, world, found, block.rows, report)
        }
        _ => Err(Fault::NotUnderstood),
    }
}

fn find_term<'a>(
    alloc: Global,
    segment: &'a SegmentReader,
    searcher: &Searcher,
    words: &[&str],
) -> Result<TermOrEmptyOrAllScorer<'a>, Fault>
    ensures { IfOk result IsOfTerm }
{
    let term = read_term(alloc, searcher.schema(), word(words, 1))?;
    let weight = read_similarity(searcher, word(words, 2))?;
    match TermScorer::for_term(segment, &term, IndexRecordOption::Basic, &weight) {
        Some(found) => Ok(TermOrEmptyOrAllScorer::TermScorer(Box::new(alloc, found)?)),
        None => Ok(TermOrEmptyOrAllScorer::Empty),
    }
}

fn play_term(
    alloc: Global,
    world: &World,
    found: TermOrEmptyOrAllScorer<'_>,
    rows: &[Row<'_>],
    report: &mut Report,
) -> Done
    requires { IsOfTerm found }
{
    let scorer = found.into_boxed_scorer();
    play_segment_scorer(alloc, world, scorer, rows, report)
}
