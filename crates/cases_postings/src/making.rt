//! Blocks of cursors.

ghost use Rattle.qm_docset.specs.Lists.{IsPlaced};

use crate::cursor::{Played, play_cursor};
use cases::{Done, Report, Row, end_refusals};
use qm_docset::AliveBitSet;
use std::alloc::Global;

/// Plays rows on a cursor, and lets it go; before that it ends the refusals of memory.
pub fn play_owned<C: Played + Drop>(
    alloc: Global,
    alive: &AliveBitSet,
    cursor: C,
    rows: &[Row<'_>],
    report: &mut Report,
) -> Done
    requires { IsPlaced C.DocSet cursor }
{
    end_refusals(alloc);
    let mut cursor = cursor;
    play_cursor(alloc, alive, &mut cursor, rows, report)
}
