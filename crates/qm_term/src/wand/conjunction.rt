//! The run over the documents that all of several terms have.

ghost use Rattle.std.specs.Prelude.{◌≡◌, ◌+◌, ◌<◌, ◌≤◌, ◌∷◌, ◌^◌, All, IsPermutation, length, map, pos, vec_len};
ghost use Rattle.qm_combine.specs.HeldSum.{held_sum};
ghost use Rattle.qm_docset.specs.Entry.{greatest_score, head_document, head_score};
ghost use Rattle.qm_term.specs.Conjunction.{IsBoundedIn, PrunesBy, TurnsInto, common_left, led_left};
ghost use Rattle.qm_term.specs.Runs.{InRange, MayPrune};
ghost use Rattle.qm_term.specs.TermScorer.{IsTermScorer, scored_left};

use crate::norms::Norms;
use crate::term_scorer::TermScorer;
use crate::wand::single::{call_at, is_above};
use crate::wand::ticks::WandCount;
use qm_combine::seek_each;
use qm_docset::{DocId, DocSet, Score, SeekDangerResult, TERMINATED};

// The greatest score that there is.
const GREATEST_SCORE: u64 = Score::MAX as u64;

// The most documents that a run goes through without a look at blocks.
const LONGEST_PAUSE: u32 = 31;

// How long a run goes without a look at blocks. One that passes over nothing costs as much as a seek of each scorer: behind
// it come documents that are sought without, twice as many each time.
#[derive(Clone, Copy)]
struct Pause {
    // those that are still to come
    left: u32,
    len: u32,
}

impl Pause {
    // The pause behind a look.
    fn behind(self, passes: bool) -> Pause {
        let len = if passes {
            0
        } else {
            self.len
                .saturating_mul(2)
                .saturating_add(1)
                .min(LONGEST_PAUSE)
        };
        Pause { left: len, len }
    }
}

// Documents before the next, none of which scores above the bound.
#[derive(Clone, Copy)]
struct Stretch {
    next: DocId,
    bound: u64,
}

// What a turn did, and where the leader then stands.
#[derive(Clone, Copy)]
struct Turned {
    doc: DocId,
    ticked: bool,
    threshold: Score,
}

/// Runs over the documents that all of the scorers have left: calls `callback` for each that scores above the
/// threshold, ascending, with the sum of its scores, held at the greatest score; its answer is the threshold from then
/// on. It makes the calls of the plain loop, with the same thresholds, and scores only documents that all have. Takes no
/// memory.
///
/// The scorer of the fewest documents leads. While the blocks that the scorers are at are bounded together by the
/// threshold, it passes to where the first of them ends. Else the others are sought at its documents up to there, and
/// where looks at blocks pass over nothing, at up to 31 more without a look. So each document of the leader that is not
/// passed costs at most a look at each scorer and a seek of each.
///
/// Asks for at least one scorer, and that the callback may be called so, whatever the calls before answered and left of
/// it.
pub fn block_wand_all<F: FnMut(DocId, Score) -> Score, N: Norms>(
    scorers: Vec<TermScorer<'_, N>>,
    threshold: Score,
    callback: &mut F,
) -> WandCount
    requires valid { All IsTermScorer scorers.items }
    requires some { 0 < vec_len scorers }
    requires callable { MayPrune (InRange F.step) F.pre threshold callback.old (common_left scorers.items) }
    ensures run { PrunesBy F.step (common_left scorers.entry.items) threshold callback.old result callback.new }
{
    let mut scorers = scorers;
    let place = rarest(&scorers);
    let mut leader = scorers.swap_remove(place);
    let others = scorers.as_mut_slice();
    bring_rarest_first(others);
    run_all(&mut leader, others, threshold, callback)
}

// Brings a scorer of the fewest documents to the front: sought first, it leaves the others the fewest seeks.
fn bring_rarest_first<N: Norms>(scorers: &mut [TermScorer<'_, N>])
    requires valid { All IsTermScorer scorers.old }
    ensures { IsPermutation scorers.old scorers.new }
{
    if !scorers.is_empty() {
        let place = rarest(scorers);
        scorers.swap(0, place);
    }
}

// The place of a scorer that has the fewest documents.
fn rarest<N: Norms>(scorers: &[TermScorer<'_, N>]) -> usize
    requires valid { All IsTermScorer scorers.now }
    requires some { 0 < length scorers.now }
    ensures { result < length scorers.now }
{
    let mut place = 0;
    let mut least = scorers[0].cost();
    // of the scorers before this one, the one at that place is the first that has the fewest
    for (other, scorer) in scorers.iter().enumerate() {
        let cost = scorer.cost();
        if cost < least {
            least = cost;
            place = other;
        }
    }
    place
}

// The run over what a leader and the others have left.
fn run_all<F: FnMut(DocId, Score) -> Score, N: Norms>(
    leader: &mut TermScorer<'_, N>,
    others: &mut [TermScorer<'_, N>],
    threshold: Score,
    callback: &mut F,
) -> WandCount
    requires valid { All IsTermScorer (leader.old ∷ others.old) }
    requires callable { MayPrune (InRange F.step) F.pre threshold callback.old (led_left leader.old others.old) }
    ensures run { PrunesBy F.step (led_left leader.old others.old) threshold callback.old result callback.new }
{
    let mut threshold = threshold;
    let mut ticks: u128 = 0;
    let mut doc = leader.doc();
    let mut stretch = Stretch { next: 0, bound: 0 };
    let mut pause = Pause { left: 0, len: 0 };
    // a run over what all have left, from this threshold on, is one over what they had
    while doc < TERMINATED {
        stretch = stretch_at(leader, others, doc, stretch, threshold, &mut pause);
        let turned = turn_all(leader, others, doc, stretch, threshold, callback);
        threshold = turned.threshold;
        ticks += turned.ticked as u128;
        doc = turned.doc;
    }
    WandCount {
        turns: ticks,
        ticks,
    }
}

// The stretch of a document: the one that is known, before its next document, and in a pause the document alone.
fn stretch_at<N: Norms>(
    leader: &mut TermScorer<'_, N>,
    others: &mut [TermScorer<'_, N>],
    doc: DocId,
    known: Stretch,
    threshold: Score,
    pause: &mut Pause,
) -> Stretch
    requires valid { All IsTermScorer (leader.old ∷ others.old) }
    requires below { doc < TERMINATED }
    requires end { known.next ≤ TERMINATED }
    requires bound { known.bound ≤ greatest_score }
    requires bounded { IsBoundedIn doc known.next known.bound (led_left leader.old others.old) }
    ensures valid { All IsTermScorer (leader.new ∷ others.new) }
    ensures lists { map scored_left (leader.new ∷ others.new) ≡ map scored_left (leader.old ∷ others.old) }
    ensures past { doc < result.next }
    ensures end { result.next ≤ TERMINATED }
    ensures bound { result.bound ≤ greatest_score }
    ensures bounded { IsBoundedIn doc result.next result.bound (led_left leader.old others.old) }
{
    if doc < known.next {
        return known;
    }
    if pause.left > 0 {
        pause.left -= 1;
        return Stretch {
            next: doc + 1,
            bound: GREATEST_SCORE,
        };
    }
    let stretch = look_at_all(leader, others, doc);
    *pause = pause.behind(!is_above(stretch.bound, threshold));
    stretch
}

// Looks at the blocks of a document: up to where the first of them ends none that all have scores more than their
// bounds together.
fn look_at_all<N: Norms>(
    leader: &mut TermScorer<'_, N>,
    others: &mut [TermScorer<'_, N>],
    doc: DocId,
) -> Stretch
    requires valid { All IsTermScorer (leader.old ∷ others.old) }
    requires below { doc < TERMINATED }
    ensures valid { All IsTermScorer (leader.new ∷ others.new) }
    ensures lists { map scored_left (leader.new ∷ others.new) ≡ map scored_left (leader.old ∷ others.old) }
    ensures past { doc < result.next }
    ensures end { result.next ≤ TERMINATED }
    ensures bound { result.bound ≤ greatest_score }
    ensures bounded { IsBoundedIn doc result.next result.bound (led_left leader.old others.old) }
{
    let Stretch {
        mut next,
        mut bound,
    } = look_from(leader, doc);
    // no document before the next scores more in the leader and the others before this one
    for other in others.iter_mut() {
        let one = look_from(other, doc);
        next = next.min(one.next);
        bound = (bound + one.bound).min(GREATEST_SCORE);
    }
    Stretch { next, bound }
}

// Looks at the block of a document, or of the scorer's own where that is past it.
fn look_from<N: Norms>(scorer: &mut TermScorer<'_, N>, doc: DocId) -> Stretch
    requires valid { IsTermScorer scorer.old }
    requires below { doc < TERMINATED }
    ensures valid { IsTermScorer scorer.new }
    ensures same { scored_left scorer.new ≡ scored_left scorer.old }
    ensures past { doc < result.next }
    ensures end { result.next ≤ TERMINATED }
    ensures bound { result.bound ≤ greatest_score }
    ensures bounded { IsBoundedIn doc result.next result.bound (scored_left scorer.old) }
{
    scorer.seek_block(doc);
    Stretch {
        next: scorer.last_doc_in_block().saturating_add(1).min(TERMINATED),
        bound: scorer.block_max_score() as u64,
    }
}

// One turn: where no document of the stretch scores above the threshold, the leader passes it. Else the others are
// sought at its document: it is scored where all have it, and else the leader goes on to where one of them is.
fn turn_all<F: FnMut(DocId, Score) -> Score, N: Norms>(
    leader: &mut TermScorer<'_, N>,
    others: &mut [TermScorer<'_, N>],
    doc: DocId,
    stretch: Stretch,
    threshold: Score,
    callback: &mut F,
) -> Turned
    requires valid { All IsTermScorer (leader.old ∷ others.old) }
    requires here { doc ≡ head_document (scored_left leader.old) }
    requires below { doc < TERMINATED }
    requires past { doc < stretch.next }
    requires end { stretch.next ≤ TERMINATED }
    requires bound { stretch.bound ≤ greatest_score }
    requires bounded { IsBoundedIn doc stretch.next stretch.bound (led_left leader.old others.old) }
    requires callable { MayPrune (InRange F.step) F.pre threshold callback.old (led_left leader.old others.old) }
    ensures valid { All IsTermScorer (leader.new ∷ others.new) }
    ensures here { result.doc ≡ head_document (scored_left leader.new) }
    ensures later { doc < result.doc }
    ensures bounded { IsBoundedIn result.doc stretch.next stretch.bound (led_left leader.new others.new) }
    ensures run { TurnsInto F.step (led_left leader.old others.old) threshold callback.old result.ticked (led_left leader.new others.new) result.threshold callback.new }
    ensures callable { MayPrune (InRange F.step) F.pre result.threshold callback.new (led_left leader.new others.new) }
{
    if !is_above(stretch.bound, threshold) {
        let past = leader.seek(stretch.next);
        return Turned {
            doc: past,
            ticked: false,
            threshold,
        };
    }
    match seek_each(others, doc) {
        SeekDangerResult::SeekLowerBound(bound) => {
            let reached = leader.seek(bound);
            Turned {
                doc: reached,
                ticked: false,
                threshold,
            }
        }
        SeekDangerResult::Found => {
            let score = score_all(leader, others);
            let after = call_at(threshold, doc, score, callback);
            let next = leader.advance();
            Turned {
                doc: next,
                ticked: true,
                threshold: after,
            }
        }
    }
}

// The sum of the scores of the documents that the scorers stand on, held at the greatest score.
fn score_all<N: Norms>(leader: &TermScorer<'_, N>, others: &[TermScorer<'_, N>]) -> Score
    requires valid { All IsTermScorer (leader.now ∷ others.now) }
    requires here { All (λ s. head_document (scored_left s) < TERMINATED) (leader.now ∷ others.now) }
    ensures { result ≡ pos (held_sum (map head_score (map scored_left (leader.now ∷ others.now)))) }
{
    let mut sum = leader.score_here() as u64;
    // the sum of the scores of the leader and the others before this one, held at the greatest score
    for other in others {
        sum = (sum + other.score_here() as u64).min(GREATEST_SCORE);
    }
    sum as Score
}
