//! Rows on the scorer of a query.

ghost use Rattle.std.specs.Prelude.{◌≤ℤ◌, pos};

use crate::weigh::Scales;
use cases::{Block, Done, Fault, Report};
use cases_given::{Manner, World, play_segment_scorer};
use qm_docset::Score;
use qm_postings::{Bm25StatisticsProvider, Searcher};
use qm_query::{AnyQuery, EnableScoring, query_scorer};
use std::alloc::Global;

/// Plays rows on the scorer of a query, by `query_scorer`.
pub fn play_query_scorer(
    alloc: Global,
    scales: Scales<'_>,
    query: &AnyQuery,
    boost: Score,
    block: Block<'_>,
    report: &mut Report,
) -> Done
    requires { pos 0 ≤ℤ boost }
{
    let world = scales.world;
    let searcher = &world.searcher;
    let provider = scales.provider();
    if !scales.is_scored {
        let off = EnableScoring::<Searcher>::disabled_from_searcher(searcher);
        return play_under(alloc, world, query, off, boost, block, report);
    }
    match world.manner {
        Manner::Searcher => {
            let on = EnableScoring::enabled_from_searcher(searcher);
            play_under(alloc, world, query, on, boost, block, report)
        }
        _ => {
            let on = EnableScoring::enabled_from_statistics_provider(&provider, searcher);
            play_under(alloc, world, query, on, boost, block, report)
        }
    }
}

fn play_under<P: Bm25StatisticsProvider>(
    alloc: Global,
    world: &World,
    query: &AnyQuery,
    scoring: EnableScoring<'_, P>,
    boost: Score,
    block: Block<'_>,
    report: &mut Report,
) -> Done
    requires { pos 0 ≤ℤ boost }
{
    let segment = world.segment(0)?;
    block.memory.begin(alloc);
    match query_scorer(query, alloc, scoring, segment, boost) {
        Ok(scorer) => play_segment_scorer(alloc, world, scorer, block.rows, report),
        Err(error) => Err(Fault::Refused(error)),
    }
}
