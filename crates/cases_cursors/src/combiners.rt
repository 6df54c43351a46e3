//! Blocks of a combiner.

ghost use Rattle.std.specs.Prelude.{◌≡◌, ◌<◌, ◌^◌};
ghost use Rattle.qm_docset.specs.Entry.{head_document, head_score};

use crate::answer::Answer;
use crate::gathered::read_maximum;
use cases::{Asker, Block, Done, Fault, Listing, Memory, Report, end_refusals, play_asked, word};
use qm_combine::{AllScorer, ConstScorer, Counted, DoNothingCombiner, ScoreCombiner, SumCombiner};
use qm_docset::{DocSet, Score};
use std::alloc::Global;

/// Plays `combiner COMBINER`.
pub fn play_combiner(alloc: Global, block: Block<'_>, report: &mut Report) -> Done {
    match word(block.words, 1) {
        "sum" => play_calls(alloc, SumCombiner::default(), block, report),
        "nothing" => play_calls(alloc, DoNothingCombiner, block, report),
        "max" => {
            let combiner = read_maximum(block.words, 2)?;
            play_calls(alloc, combiner, block, report)
        }
        _ => Err(Fault::NotUnderstood),
    }
}

fn play_calls<C: ScoreCombiner>(
    alloc: Global,
    combiner: C,
    block: Block<'_>,
    report: &mut Report,
) -> Done {
    let mut asked = AskedCombiner {
        combiner,
        calls: Vec::new(alloc),
    };
    play_asked(alloc, &mut asked, block.rows, report)
}

// A call that changes a combiner.
#[derive(Clone, Copy)]
enum Change {
    Clear,
    Update(u64),
}

// A combiner as it was made, and the calls since then, which are made again for each answer.
#[derive(Drop)]
struct AskedCombiner<C: ScoreCombiner> {
    combiner: C,
    calls: Vec<Change>,
}

impl<C: ScoreCombiner> Asker for AskedCombiner<C> {
    fn ask(&mut self, alloc: Global, call: &str, memory: Memory, text: &mut Listing) -> Done {
        if call == "clear" {
            return Ok(self.calls.push(Change::Clear)?);
        }
        if let Some(score) = call.strip_prefix("update ") {
            return match score.parse() {
                Ok(score) => Ok(self.calls.push(Change::Update(score))?),
                Err(_) => Err(Fault::NotUnderstood),
            };
        }
        memory.begin(alloc);
        let answer = match call {
            "score" => score_of(changed(self.combiner, &self.calls)),
            "counted score" => score_of(changed(Counted::new(self.combiner), &self.calls)),
            "count" => count_of(changed(Counted::new(self.combiner), &self.calls)),
            _ => Answer::NotUnderstood,
        };
        end_refusals(alloc);
        answer.write(text)
    }
}

const GREATEST: u64 = Score::MAX as u64;

fn score_of<C: ScoreCombiner>(combiner: Option<C>) -> Answer {
    match combiner {
        Some(combiner) => Answer::Score(combiner.score()),
        None => Answer::NotAllowed,
    }
}

fn count_of<C: ScoreCombiner>(combiner: Option<Counted<C>>) -> Answer {
    match combiner {
        Some(combiner) => Answer::Number(combiner.count() as u64),
        None => Answer::NotAllowed,
    }
}

// A combiner that is cleared, and then changed so, or none where a change is not allowed.
fn changed<C: ScoreCombiner>(combiner: C, calls: &[Change]) -> Option<C> {
    let mut combiner = combiner;
    combiner.clear();
    let mut total: u64 = 0;
    // the combiner stands for scores that add up to this total
    for call in calls {
        match *call {
            Change::Clear => {
                combiner.clear();
                total = 0;
            }
            Change::Update(score) => {
                if score > GREATEST - total {
                    return None;
                }
                combiner.update(&mut scored(score));
                total += score;
            }
        }
    }
    Some(combiner)
}

// A scorer that stands on a document with this score.
fn scored(score: u64) -> ConstScorer<AllScorer>
    requires { score < 2 ^ 63 }
    ensures valid { ⟦<ConstScorer<AllScorer> as DocSet>⟧.valid result }
    ensures placed { ⟦<ConstScorer<AllScorer> as DocSet>⟧.placed result }
    ensures here { head_document (⟦<ConstScorer<AllScorer> as DocSet>⟧.entries result) ≡ 0 }
    ensures score { head_score (⟦<ConstScorer<AllScorer> as DocSet>⟧.entries result) ≡ score }
    ensures top { (⟦<ConstScorer<AllScorer> as DocSet>⟧.limits result).top ≡ score }
{
    ConstScorer::new(AllScorer::new(1), score as Score)
}
