//! The run over the cells of a stretch.

ghost use Rattle.std.specs.Prelude.{◌≡◌, ℕ, ◌+◌, ◌*◌, ◌<◌, ◌≤◌, ◌^◌, false, length, pos, true};
ghost use Rattle.qm_docset.specs.Entry.{greatest_score};
ghost use Rattle.qm_term.specs.Cells.{AreClear, LackAll, all_shown, cells_clear, cells_end, cells_has, cells_start, entries_shown};
ghost use Rattle.qm_term.specs.RunCounts.{one_if_above};
ghost use Rattle.qm_term.specs.Runs.{InRange, MayPrune, MayTurn, Turn};
ghost use Rattle.qm_term.specs.RunScorers.{ticks_of};
ghost use Rattle.qm_term.specs.Stretches.{AreTidy, AreWithin, Drains, GoesOn, TakenOut};

use crate::wand::cells::{Cell, Cells};
use crate::wand::single::{call_at, is_above};
use crate::wand::ticks::Ticks;
use qm_combine::BoundedBySum;
use qm_docset::{DocId, Score};

/// Goes over the documents of the first words, ascending, and takes them out: one whose bound is above the
/// threshold is a tick, and is called where its score is above it. Answers the threshold after them.
pub(super) fn drain<C: BoundedBySum, F: FnMut(DocId, Score) -> Score>(
    cells: &mut Cells<C>,
    words: usize,
    threshold: Score,
    ticks: &mut Ticks,
    callback: &mut F,
) -> Score
    requires tidy { AreTidy cells.old }
    requires inside { (d : ℕ) → cells_has cells.old d ≡ true → d < cells_end cells.old }
    requires within { AreWithin (all_shown C.value cells.old) }
    requires words { words ≤ 64 }
    requires beyond { (d : ℕ) → cells_start cells.old + 64 * words ≤ d → cells_has cells.old d ≡ false }
    requires room { ticks_of ticks.old + 4096 < 2 ^ 128 }
    requires callable { MayPrune (InRange F.step) F.pre threshold callback.old (entries_shown (all_shown C.value cells.old)) }
    ensures clear { AreClear cells.new }
    ensures same { cells_clear cells.new ≡ cells_clear cells.old }
    ensures few { ticks_of ticks.new ≤ ticks_of ticks.old + 4096 }
    ensures run { Drains (InRange F.step) C.value threshold callback.old cells.old (ticks_of ticks.old) result callback.new (ticks_of ticks.new) }
{
    let mut threshold = threshold;
    // the words before are empty, and a run over what is left is one over all
    for word in 0..words {
        threshold = drain_word(cells, word, threshold, ticks, callback);
    }
    threshold
}

// The same over one word, before which none has a document.
fn drain_word<C: BoundedBySum, F: FnMut(DocId, Score) -> Score>(
    cells: &mut Cells<C>,
    word: usize,
    threshold: Score,
    ticks: &mut Ticks,
    callback: &mut F,
) -> Score
    requires tidy { AreTidy cells.old }
    requires inside { (d : ℕ) → cells_has cells.old d ≡ true → d < cells_end cells.old }
    requires within { AreWithin (all_shown C.value cells.old) }
    requires word { word < 64 }
    requires before { LackAll cells.old 0 (cells_start cells.old + 64 * word) }
    requires room { ticks_of ticks.old + length (all_shown C.value cells.old) < 2 ^ 128 }
    requires callable { MayPrune (InRange F.step) F.pre threshold callback.old (entries_shown (all_shown C.value cells.old)) }
    ensures taken { TakenOut cells.old cells.new }
    ensures within { AreWithin (all_shown C.value cells.new) }
    ensures before { LackAll cells.new 0 (cells_start cells.old + 64 * (word + 1)) }
    ensures room { ticks_of ticks.new + length (all_shown C.value cells.new) ≤ ticks_of ticks.old + length (all_shown C.value cells.old) }
    ensures callable { MayPrune (InRange F.step) F.pre result callback.new (entries_shown (all_shown C.value cells.new)) }
    ensures run { GoesOn (InRange F.step) C.value threshold callback.old cells.old (ticks_of ticks.old)
        result callback.new cells.new (ticks_of ticks.new) }
{
    let mut threshold = threshold;
    // as before
    while let Some(taken) = cells.pop_first(word) {
        threshold = score_cell(taken.doc, taken.cell, threshold, ticks, callback);
    }
    threshold
}

// One document, whose scores and bounds come to these: a tick where its bound is above the threshold. Answers the
// threshold after it.
#[inline(always)]
fn score_cell<C: BoundedBySum, F: FnMut(DocId, Score) -> Score>(
    doc: DocId,
    cell: Cell<C>,
    threshold: Score,
    ticks: &mut Ticks,
    callback: &mut F,
) -> Score
    requires within { C.value cell.state ≤ cell.bound }
    requires bound { cell.bound ≤ greatest_score }
    requires room { ticks_of ticks.old + 1 < 2 ^ 128 }
    requires callable { MayTurn F.pre threshold callback.old doc (C.value cell.state) }
    ensures turn { Turn (InRange F.step) threshold callback.old doc (pos (C.value cell.state)) result callback.new }
    ensures ticks { ticks_of ticks.new ≡ ticks_of ticks.old + one_if_above threshold cell.bound }
{
    if !is_above(cell.bound, threshold) {
        return threshold;
    }
    ticks.add();
    call_at(threshold, doc, cell.state.score(), callback)
}
