//! The run over one term.

ghost use Rattle.std.specs.Prelude.{◌≡◌, ℕ, ℤ, ◌+◌, ◌<◌, ◌≤◌, ◌<ℤ◌, ◌≤ℤ◌, ◌^◌, length, pos, suc, true, false};
ghost use Rattle.qm_docset.specs.Entry.{greatest_score};
ghost use Rattle.qm_term.specs.Members.{bound_at, end_at};
ghost use Rattle.qm_term.specs.Pivot.{head, looked_at};
ghost use Rattle.qm_term.specs.Runs.{InRange, MayPrune, Turn};
ghost use Rattle.qm_term.specs.RunScorers.{IsRunScorer, looked_by, ticks_of, wand_member};
ghost use Rattle.qm_term.specs.SingleRun.{IsQuietTo, IsSingle, PassesBlocks, PrunesList};
ghost use Rattle.qm_term.specs.TermBlocks.{PrunesTerm};
ghost use Rattle.qm_term.specs.TermScorer.{IsTermScorer, scored_blocks, scored_left};

use crate::norms::Norms;
use crate::term_scorer::TermScorer;
use crate::wand::front::TermScorerWithMaxScore;
use crate::wand::ticks::{Ticks, WandCount};
use qm_docset::{DocId, Score, TERMINATED};

// What is known of a block: its last document and its bound.
#[derive(Clone, Copy)]
pub(super) struct Looked {
    pub(super) end: DocId,
    pub(super) bound: u64,
}

// The end of a stretch of blocks, and how many they are.
#[derive(Clone, Copy)]
struct Stretch {
    end: DocId,
    blocks: u32,
}

// What a turn did: how many documents it scored, and as how many turns it counts, which are these or the blocks that
// it passed.
#[derive(Clone, Copy)]
struct Turned {
    ticks: u32,
    turns: u32,
    threshold: Score,
}

/// Runs over what one scorer has left: calls `callback` for each document that scores above the
/// threshold, ascending; its answer is the threshold from then on. It makes the calls of the plain loop,
/// with the same thresholds, and scores only documents whose block is bounded above the threshold. Its
/// turns are the documents scored and the blocks passed. Takes no memory.
///
/// Asks that the callback may be called so, whatever the calls before answered and left of it.
pub fn block_wand_single_scorer<F: FnMut(DocId, Score) -> Score, N: Norms>(
    scorer: TermScorer<'_, N>,
    threshold: Score,
    callback: &mut F,
) -> WandCount
    requires valid { IsTermScorer scorer }
    requires callable { MayPrune (InRange F.step) F.pre threshold callback.old (scored_left scorer) }
    ensures run { PrunesTerm (InRange F.step) threshold callback.old scorer.entry result.ticks result.turns callback.new }
    ensures turns { result.turns ≤ result.ticks + length (scored_blocks scorer.entry) }
{
    let mut bounded = TermScorerWithMaxScore::from(scorer);
    bounded.seek_block(0);
    run_over(&mut bounded, threshold, callback)
}

// The run over a scorer, which looks at the block of its document.
pub(super) fn run_over<F: FnMut(DocId, Score) -> Score, N: Norms>(
    scorer: &mut TermScorerWithMaxScore<'_, N>,
    threshold: Score,
    callback: &mut F,
) -> WandCount
    requires valid { IsRunScorer scorer.old }
    requires looking { looked_by scorer.old ≡ looked_at 0 (wand_member scorer.old) }
    requires few { length (wand_member scorer.old).entries ≤ TERMINATED }
    requires callable { MayPrune (InRange F.step) F.pre threshold callback.old (wand_member scorer.old).entries }
    ensures run { (last : ℤ) × PrunesList (InRange F.step) threshold callback.old (wand_member scorer.old) result.ticks result.turns last callback.new }
{
    let mut threshold = threshold;
    let mut ticks = Ticks::new();
    let mut turns: u128 = 0;
    let mut doc = scorer.doc();
    let mut known = Looked { end: 0, bound: 0 };
    if doc < TERMINATED {
        known = look(scorer);
    }
    // a run over what the scorer has from its document on, from this threshold on, is one over all
    while doc < TERMINATED {
        let turned = single_turn(scorer, doc, known, threshold, &mut ticks, callback);
        threshold = turned.threshold;
        turns += u128::from(turned.turns);
        doc = scorer.doc();
        known = look_from(scorer, doc, known);
    }
    WandCount {
        turns,
        ticks: ticks.get(),
    }
}

// The block looked at.
fn look<N: Norms>(scorer: &TermScorerWithMaxScore<'_, N>) -> Looked
    requires valid { IsRunScorer scorer.now }
    ensures end { result.end ≡ (looked_by scorer.now).last }
    ensures bound { result.bound ≡ (looked_by scorer.now).bound }
{
    Looked {
        end: scorer.last_doc_in_block(),
        bound: scorer.block_max_score() as u64,
    }
}

// The block of a document: the one that is known, up to its end.
fn look_from<N: Norms>(scorer: &TermScorerWithMaxScore<'_, N>, doc: DocId, known: Looked) -> Looked
    requires valid { IsRunScorer scorer.now }
    ensures same { doc ≤ known.end → result ≡ known }
    ensures end { known.end < doc → result.end ≡ (looked_by scorer.now).last }
    ensures bound { known.end < doc → result.bound ≡ (looked_by scorer.now).bound }
{
    if doc <= known.end {
        known
    } else {
        look(scorer)
    }
}

// One document: a call where it scores above the threshold. Answers the threshold after it.
pub(super) fn call_at<F: FnMut(DocId, Score) -> Score>(
    threshold: Score,
    doc: DocId,
    score: Score,
    callback: &mut F,
) -> Score
    requires { threshold <ℤ score → F.pre callback.old doc score }
    ensures { Turn (InRange F.step) threshold callback.old doc score result callback.new }
{
    if score > threshold {
        callback(doc, score)
    } else {
        threshold
    }
}

// Whether a bound is above the threshold.
pub(super) fn is_above(bound: u64, threshold: Score) -> bool
    requires { bound ≤ greatest_score }
    ensures yes { result ≡ true → threshold <ℤ pos bound }
    ensures no { result ≡ false → pos bound ≤ℤ threshold }
{
    bound as Score > threshold
}

// The blocks, from the known one on, up to the first that reaches above the threshold. The scorer looks at
// them one by one, and moves nowhere.
fn quiet_blocks<N: Norms>(
    scorer: &mut TermScorerWithMaxScore<'_, N>,
    known: Looked,
    threshold: Score,
) -> Stretch
    requires valid { IsRunScorer scorer.old }
    requires below { head (wand_member scorer.old) < TERMINATED }
    requires end { known.end ≡ end_at (head (wand_member scorer.old)) (wand_member scorer.old).blocks }
    requires bound { known.bound ≡ bound_at (head (wand_member scorer.old)) (wand_member scorer.old).blocks }
    requires low { pos known.bound ≤ℤ threshold }
    ensures valid { IsRunScorer scorer.new }
    ensures same { wand_member scorer.new ≡ wand_member scorer.old }
    ensures from { known.end ≤ result.end }
    ensures quiet { IsQuietTo threshold result.end (wand_member scorer.old) }
    ensures some { 0 < result.blocks }
    ensures passed { PassesBlocks threshold (suc result.end) result.blocks (wand_member scorer.old) }
{
    let mut end = known.end;
    let mut blocks: u32 = 1;
    // no block up to this end reaches above the threshold, and so many end there
    while end < TERMINATED {
        scorer.seek_block(end + 1);
        let next = look(scorer);
        if is_above(next.bound, threshold) {
            break;
        }
        end = next.end;
        blocks += 1;
    }
    Stretch { end, blocks }
}

// One turn: documents are scored where their block reaches above the threshold, and else the block is passed, and
// all behind it that do not reach above it either.
fn single_turn<F: FnMut(DocId, Score) -> Score, N: Norms>(
    scorer: &mut TermScorerWithMaxScore<'_, N>,
    doc: DocId,
    known: Looked,
    threshold: Score,
    ticks: &mut Ticks,
    callback: &mut F,
) -> Turned
    requires valid { IsRunScorer scorer.old }
    requires looking { looked_by scorer.old ≡ looked_at 0 (wand_member scorer.old) }
    requires here { doc ≡ head (wand_member scorer.old) }
    requires below { doc < TERMINATED }
    requires few { length (wand_member scorer.old).entries ≤ TERMINATED }
    requires end { known.end ≡ end_at doc (wand_member scorer.old).blocks }
    requires bound { known.bound ≡ bound_at doc (wand_member scorer.old).blocks }
    requires room { ticks_of ticks.old + TERMINATED < 2 ^ 128 }
    requires callable { MayPrune (InRange F.step) F.pre threshold callback.old (wand_member scorer.old).entries }
    ensures valid { IsRunScorer scorer.new }
    ensures looking { looked_by scorer.new ≡ looked_at 0 (wand_member scorer.new) }
    ensures blocks { (wand_member scorer.new).blocks ≡ (wand_member scorer.old).blocks }
    ensures some { 0 < result.turns }
    ensures fewer { result.turns + length (wand_member scorer.new).entries ≤ length (wand_member scorer.old).entries }
    ensures later { doc < head (wand_member scorer.new) }
    ensures turn { IsSingle (InRange F.step) threshold callback.old
        (wand_member scorer.old) result.threshold callback.new (wand_member scorer.new) result.ticks result.turns }
    ensures most { result.ticks ≤ result.turns }
    ensures ticks { ticks_of ticks.new ≡ ticks_of ticks.old + result.ticks }
{
    if is_above(known.bound, threshold) {
        return block_turn(scorer, doc, known.end, threshold, ticks, callback);
    }
    let quiet = quiet_blocks(scorer, known, threshold);
    scorer.seek(quiet.end.saturating_add(1).min(TERMINATED));
    Turned {
        ticks: 0,
        turns: quiet.blocks,
        threshold,
    }
}

// A turn in a block, up to this document, that reaches above the threshold: its documents up to the first that scores
// above the threshold are scored, or that one is.
fn block_turn<F: FnMut(DocId, Score) -> Score, N: Norms>(
    scorer: &mut TermScorerWithMaxScore<'_, N>,
    doc: DocId,
    last: DocId,
    threshold: Score,
    ticks: &mut Ticks,
    callback: &mut F,
) -> Turned
    requires valid { IsRunScorer scorer.old }
    requires looking { looked_by scorer.old ≡ looked_at 0 (wand_member scorer.old) }
    requires here { doc ≡ head (wand_member scorer.old) }
    requires below { doc < TERMINATED }
    requires few { length (wand_member scorer.old).entries ≤ TERMINATED }
    requires last { last ≡ end_at doc (wand_member scorer.old).blocks }
    requires above { threshold <ℤ pos (bound_at doc (wand_member scorer.old).blocks) }
    requires room { ticks_of ticks.old + TERMINATED < 2 ^ 128 }
    requires callable { MayPrune (InRange F.step) F.pre threshold callback.old (wand_member scorer.old).entries }
    ensures valid { IsRunScorer scorer.new }
    ensures looking { looked_by scorer.new ≡ looked_at 0 (wand_member scorer.new) }
    ensures blocks { (wand_member scorer.new).blocks ≡ (wand_member scorer.old).blocks }
    ensures some { 0 < result.turns }
    ensures fewer { result.turns + length (wand_member scorer.new).entries ≤ length (wand_member scorer.old).entries }
    ensures later { doc < head (wand_member scorer.new) }
    ensures turn { IsSingle (InRange F.step) threshold callback.old
        (wand_member scorer.old) result.threshold callback.new (wand_member scorer.new) result.ticks result.turns }
    ensures most { result.ticks ≤ result.turns }
    ensures ticks { ticks_of ticks.new ≡ ticks_of ticks.old + result.ticks }
{
    let passed = scorer.pass_low(last.saturating_add(1).min(TERMINATED), threshold, ticks);
    if passed > 0 {
        return Turned {
            ticks: passed,
            turns: passed,
            threshold,
        };
    }
    let score = scorer.score_counted(ticks);
    let threshold = call_at(threshold, doc, score, callback);
    scorer.advance();
    Turned {
        ticks: 1,
        turns: 1,
        threshold,
    }
}
