//! Rows on the scorer of a segment.

ghost use Rattle.qm_docset.specs.Lists.{IsPlaced};

use crate::world::World;
use cases::{Desk, Done, Moves, Report, Row, end_refusals, play_scores};
use qm_combine::EmptyScorer;
use qm_docset::DocSet;
use qm_scorer::AnyScorer;
use std::alloc::Global;

/// Plays rows on the scorer of a segment, which it holds alone, and ends the refusals of memory before that.
pub fn play_segment_scorer<'a>(
    alloc: Global,
    world: &World,
    mut scorer: AnyScorer<'a, EmptyScorer>,
    rows: &[Row<'_>],
    report: &mut Report,
) -> Done
    requires { IsPlaced ⟦<AnyScorer<'a, EmptyScorer> as DocSet>⟧ scorer }
{
    end_refusals(alloc);
    let (alive, moves) = (&world.alive, &Moves::new());
    play_scores(alloc, &Desk { alive, moves }, &mut scorer, rows, report)
}
