//! Blocks, by their first word.

use crate::answers::compare_answers;
use crate::asked::AskedRun;
use crate::script::Script;
use crate::setting::{Manner, take_setting};
use crate::trial::{Call, Trial};
use cases::{Block, Done, Fault, Memory, Player, Report, play_asked, word};
use std::alloc::Global;

/// What plays blocks of runs; nothing is kept from one to the next.
#[derive(Clone, Copy)]
pub struct Scripts;

impl Player for Scripts {
    fn play(&mut self, alloc: Global, block: Block<'_>, report: &mut Report) -> Done {
        let Some(call) = read_call(block.words) else {
            return Err(Fault::NotUnderstood);
        };
        if block.memory != Memory::Ample {
            return Err(Fault::NotUnderstood);
        }
        let mut script = Script::new(alloc);
        let mut manner = Manner::new();
        let rows = take_setting(alloc, block.rows, &mut script, &mut manner)?;
        let trial = Trial {
            call,
            length: script.len(),
            script: &script,
            manner,
            memory: Memory::Ample,
        };
        play_trial(alloc, trial, Block { rows, ..block }, report)
    }
}

// Makes a run, and plays the rows that ask what came of it.
fn play_trial(alloc: Global, trial: Trial<'_>, block: Block<'_>, report: &mut Report) -> Done {
    // how a run ended is always told
    match block.rows.first() {
        Some(row) if row.call == "status" => {}
        _ => return Err(Fault::NotUnderstood),
    }
    let outcome = trial.outcome(alloc)?;
    let mut asked = AskedRun { trial, outcome };
    play_outcome(alloc, &mut asked, block, report)
}

fn play_outcome(
    alloc: Global,
    asked: &mut AskedRun<'_>,
    block: Block<'_>,
    report: &mut Report,
) -> Done {
    compare_answers(block, asked.trial.script, &asked.outcome, report);
    play_asked(alloc, asked, block.rows, report)
}

fn read_call(words: &[&str]) -> Option<Call> {
    if words.len() > 1 {
        return None;
    }
    match word(words, 0) {
        "run" => Some(Call::Run),
        "run_buffered" => Some(Call::RunBuffered),
        "text_of" => Some(Call::TextOf),
        _ => None,
    }
}
