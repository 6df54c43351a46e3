//! The run over several terms, turn by turn.
//!
//! A turn looks at the lists in the order of the documents that they stand at. With a threshold of 60:
//!
//! | list | stands at | its greatest score | so far | |
//! |---|---|---|---|---|
//! | apple | 12 | 20 | 20 | before the pivot |
//! | old | 15 | 25 | 45 | before the pivot |
//! | red | 31 | 30 | 75, above 60 | the pivot is 31 |
//! | tree | 31 | 10 | | on it too |
//! | fox | 40 | 15 | | behind it |
//!
//! No document before the pivot can score above the threshold: only lists before it have one, and their greatest scores
//! add up to no more. Then a turn does one of three things:
//!
//! - The blocks in which the lists before and on the pivot would have it are bounded together by the threshold. The
//!   list of the greatest score goes on past the first end of these blocks, or to the next list's document where that
//!   is nearer.
//! - Some list stands before the pivot. The last such is moved to it, then the one before; the turn ends with the first
//!   that has passed it.
//! - All of them stand on the pivot. It is scored, and they go on.
//!
//! A run scores its pivot where the scorers stand, and each turn goes one way: shorter ways cost more where most turns
//! skip.

ghost use Rattle.std.specs.Prelude.{◌≡◌, ◌+◌, ◌<◌, ◌≤◌, ◌^◌, ◌↔◌, cond, true, false};
ghost use Rattle.std.specs.Prelude.{All, IfErr, IfOk, IsErrOf, OnErr, drop, length, map, pos, sum_by, take};
ghost use Rattle.std.specs.List.Sorted.{IsPermutation};
ghost use Rattle.qm_combine.specs.Union.{IsBoundOrMemory};
ghost use Rattle.qm_docset.specs.Entry.{greatest_score};
ghost use Rattle.qm_term.specs.HeadRow.{IsRow, row_lists};
ghost use Rattle.qm_term.specs.Heads.{IsLevel};
ghost use Rattle.qm_term.specs.RunCounts.{NoneAbove};
ghost use Rattle.qm_term.specs.Members.{united};
ghost use Rattle.qm_term.specs.Pivot.{LeavesAll, front_scores, head, past, postings, total_top};
ghost use Rattle.qm_term.specs.Runs.{InRange, MayPrune, MayTurn, Turn};
ghost use Rattle.qm_term.specs.RunScorers.{IsRunScorer, first_score, ticks_of, wand_member};
ghost use Rattle.qm_term.specs.TermBlocks.{member_of};
ghost use Rattle.qm_term.specs.TermScorer.{IsTermScorer};
ghost use Rattle.qm_term.specs.WandRun.{IsNewRun, IsRun, PrunesTerms, RunLeavesAll, RunTakesTurn, TurnsRow, terms_left};
ghost use Rattle.qm_term.specs.WandRun.{run_combiner, run_lists, run_threshold, run_ticks, run_turns, run_union};

use crate::norms::Norms;
use crate::term_scorer::TermScorer;
use crate::wand::cells::Cells;
use crate::wand::front::{TermScorerWithMaxScore, score_level};
use crate::wand::heads::{Head, align, bounds_at, find_pivot, front_len, pass, settle, skip_one};
use crate::wand::rows::{heads_of, row_of, tops_fit};
use crate::wand::single::{call_at, is_above};
use crate::wand::stretches::run_stretches;
use crate::wand::ticks::{Ticks, WandCount};
use qm_combine::BoundedBySum;
use qm_docset::{DocId, Score, TERMINATED};
use qm_schema::QueryError;
use std::alloc::Global;

/// A run over the scorers of several terms.
#[derive(Debug, Drop)]
pub struct WandRun<'a, C, N: Norms = [u32; 256]> {
    heads: Vec<Head>,
    scorers: Vec<TermScorerWithMaxScore<'a, N>>,
    combiner: C,
    threshold: Score,
    turns: u128,
    ticks: Ticks,
}

impl<'a, C: BoundedBySum, N: Norms> WandRun<'a, C, N> {
    /// A run over what the scorers have left, from a threshold on. Refused where their greatest scores
    /// add up past the greatest score, and else for want of memory alone.
    pub fn new(
        alloc: Global,
        scorers: Vec<TermScorer<'a, N>>,
        combiner: C,
        threshold: Score,
    ) -> Result<WandRun<'a, C, N>, QueryError>
        requires { All IsTermScorer scorers.items }
        ensures made { IfOk result (IsNewRun combiner threshold (map member_of scorers.entry.items)) }
        ensures refused { IsErrOf result QueryError.ScoreBound ↔ (greatest_score < total_top (map member_of scorers.entry.items)) }
        ensures only { IfErr result IsBoundOrMemory }
    {
        if !tops_fit(&scorers) {
            return Err(QueryError::ScoreBound);
        }
        let row = row_of(alloc, scorers)?;
        let mut heads = heads_of(alloc, &row)?;
        let len = heads.len();
        settle(&mut heads, len);
        Ok(WandRun {
            heads,
            scorers: row,
            combiner,
            threshold,
            turns: 0,
            ticks: Ticks::new(),
        })
    }

    /// One turn. False where no document can score above the threshold any more.
    #[inline]
    pub fn turn<F: FnMut(DocId, Score) -> Score>(&mut self, callback: &mut F) -> bool
        requires valid { IsRun self.old }
        requires callable { MayPrune (InRange F.step) F.pre (run_threshold self.old) callback.old (run_union C.combined self.old) }
        ensures valid { IsRun self.new }
        ensures combiner { run_combiner self.new ≡ run_combiner self.old }
        ensures none { result ≡ false → RunLeavesAll callback.old self.old callback.new self.new }
        ensures done { result ≡ false → NoneAbove (run_threshold self.old) (run_union C.combined self.old) }
        ensures turn { result ≡ true → RunTakesTurn (InRange F.step) C.combined callback.old self.old callback.new self.new }
        ensures turns { run_turns self.new ≡ run_turns self.old + cond result 1 0 }
        ensures no_tick { result ≡ false → run_ticks self.new ≡ run_ticks self.old }
    {
        let turned = turn_row(
            &mut self.heads,
            &mut self.scorers,
            self.combiner,
            self.threshold,
            &mut self.ticks,
            callback,
        );
        self.threshold = turned.threshold;
        self.turns += turned.found as u128;
        turned.found
    }

    /// What it took so far.
    pub fn count(&self) -> WandCount
        ensures turns { result.turns ≡ run_turns self.now }
        ensures ticks { result.ticks ≡ run_ticks self.now }
    {
        WandCount {
            turns: self.turns,
            ticks: self.ticks.get(),
        }
    }
}

/// Runs over what the scorers have left: calls `callback` for each document that scores above the
/// threshold, ascending, with what the combiner makes of its scores; its answer is the threshold from
/// then on. It makes the calls of the plain loop, with the same thresholds, and counts as scored only documents
/// whose blocks' bounds add up to more than the threshold of that moment. It takes memory only before the first call:
/// for a scorer its size and a record, and for the documents of a stretch, of which there are at most 4096, a word and a
/// combiner each. A scorer that keeps its norms is moved with them, a kilobyte; one that borrows them is not.
///
/// It goes by stretches: while the blocks that the scorers are at are bounded together by the threshold, it passes
/// to where the first of them ends. Else it takes all documents from there to that end, or some 64 for each
/// scorer, each with its scores and the bounds of its blocks. So a stretch costs a look at each scorer, and a
/// division and an addition for each posting in it; a block that is passed costs one division.
///
/// Asks that the callback may be called so, whatever the calls before answered and left of it. Refused
/// where the scorers' greatest scores add up past the greatest score, and else for want of memory alone.
pub fn block_wand<C: BoundedBySum, F: FnMut(DocId, Score) -> Score, N: Norms>(
    alloc: Global,
    scorers: Vec<TermScorer<'_, N>>,
    combiner: C,
    threshold: Score,
    callback: &mut F,
) -> Result<WandCount, QueryError>
    requires valid { All IsTermScorer scorers.items }
    requires callable { MayPrune (InRange F.step) F.pre threshold callback.old (terms_left (C.combined combiner) scorers.items) }
    ensures turns { IfOk result (λ count. count.turns ≤ postings (map member_of scorers.entry.items)) }
    ensures scored { IfOk result (λ count. count.ticks ≤ count.turns) }
    ensures run { IfOk result (λ count.
        PrunesTerms (InRange F.step) (C.combined combiner) threshold callback.old scorers.entry.items count.ticks callback.new) }
    ensures refused { IsErrOf result QueryError.ScoreBound ↔ (greatest_score < total_top (map member_of scorers.entry.items)) }
    ensures only { IfErr result IsBoundOrMemory }
    ensures untouched { OnErr result (callback.new ≡ callback.old) }
{
    if !tops_fit(&scorers) {
        return Err(QueryError::ScoreBound);
    }
    let mut row = row_of(alloc, scorers)?;
    let mut heads = heads_of(alloc, &row)?;
    let mut cells = Cells::new(alloc, combiner)?;
    let mut ticks = Ticks::new();
    run_stretches(
        &mut heads, &mut row, &mut cells, threshold, &mut ticks, callback,
    );
    let ticks = ticks.get();
    Ok(WandCount {
        turns: ticks,
        ticks,
    })
}

// What a turn did.
#[derive(Clone, Copy)]
pub(super) struct Turned {
    pub(super) found: bool,
    pub(super) ticked: bool,
    pub(super) threshold: Score,
}

// One turn over a row. It finds no pivot where no document can score above the threshold any more.
pub(super) fn turn_row<C: BoundedBySum, F: FnMut(DocId, Score) -> Score, N: Norms>(
    heads: &mut [Head],
    scorers: &mut [TermScorerWithMaxScore<'_, N>],
    combiner: C,
    threshold: Score,
    ticks: &mut Ticks,
    callback: &mut F,
) -> Turned
    requires row { IsRow scorers.old heads.old }
    requires fits { total_top (row_lists scorers.old heads.old) ≤ greatest_score }
    requires room { ticks_of ticks.old + 1 < 2 ^ 128 }
    requires callable { MayPrune (InRange F.step) F.pre threshold callback.old (united (C.combined combiner) (row_lists scorers.old heads.old)) }
    ensures row { IsRow scorers.new heads.new }
    ensures fits { total_top (row_lists scorers.new heads.new) ≡ total_top (row_lists scorers.old heads.old) }
    ensures ticks { ticks_of ticks.new ≡ ticks_of ticks.old + cond result.ticked 1 0 }
    ensures none { result.found ≡ false →
        LeavesAll threshold callback.old (row_lists scorers.old heads.old) result.threshold callback.new (row_lists scorers.new heads.new) }
    ensures no_tick { result.found ≡ false → result.ticked ≡ false }
    ensures turn { TurnsRow (InRange F.step) (C.combined combiner) threshold callback.old scorers.old heads.old result callback.new scorers.new heads.new }
{
    let p = find_pivot(heads, threshold);
    if p >= TERMINATED {
        return Turned {
            found: false,
            ticked: false,
            threshold,
        };
    }
    let n = front_len(heads, p);
    let bounds = bounds_at(heads, scorers, n, p);
    if !is_above(bounds, threshold) {
        skip_one(heads, scorers, n);
        return Turned {
            found: true,
            ticked: false,
            threshold,
        };
    }
    if !align(heads, scorers, n, p) {
        return Turned {
            found: true,
            ticked: false,
            threshold,
        };
    }
    let pivot = Pivot { doc: p, lists: n };
    let after = score_pivot(heads, scorers, pivot, combiner, threshold, ticks, callback);
    Turned {
        found: true,
        ticked: true,
        threshold: after,
    }
}

// A pivot, and how many scorers stand on it, which are the first ones.
#[derive(Clone, Copy)]
struct Pivot {
    doc: DocId,
    lists: usize,
}

// Scores the pivot, on which the first scorers stand, and moves them past it. Answers the threshold after
// it.
fn score_pivot<C: BoundedBySum, F: FnMut(DocId, Score) -> Score, N: Norms>(
    heads: &mut [Head],
    scorers: &mut [TermScorerWithMaxScore<'_, N>],
    pivot: Pivot,
    combiner: C,
    threshold: Score,
    ticks: &mut Ticks,
    callback: &mut F,
) -> Score
    requires row { IsRow scorers.old heads.old }
    requires level { IsLevel pivot.lists pivot.doc heads.old }
    requires below { pivot.doc < TERMINATED }
    requires fits { total_top (row_lists scorers.old heads.old) ≤ greatest_score }
    requires room { ticks_of ticks.old + 1 < 2 ^ 128 }
    requires callable { MayTurn F.pre threshold callback.old pivot.doc (C.combined combiner (front_scores pivot.doc (row_lists scorers.old heads.old))) }
    ensures row { IsRow scorers.new heads.new }
    ensures lists { IsPermutation (map (past pivot.doc) (row_lists scorers.old heads.old)) (row_lists scorers.new heads.new) }
    ensures tick { ticks_of ticks.new ≡ ticks_of ticks.old + 1 }
    ensures turn { Turn (InRange F.step)
        threshold callback.old pivot.doc (pos (C.combined combiner (front_scores pivot.doc (row_lists scorers.old heads.old)))) result callback.new }
{
    let score = score_level(heads, scorers, pivot.lists, combiner, ticks);
    let after = call_at(threshold, pivot.doc, score, callback);
    pass(heads, scorers, pivot.lists);
    after
}
