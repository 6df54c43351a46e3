//! Runs in which one call of a kind after another fails.

use crate::ending::Ending;
use crate::script::Script;
use crate::setting::Manner;
use crate::trial::{Outcome, Trial};
use cases::{Done, Fault, Listing};
use std::alloc::Global;

// how many calls of a kind a run may make
const MOST_CALLS: u64 = 10_000;

/// Which calls fail.
#[derive(Clone, Copy)]
pub enum Kind {
    Read,
    Write,
    Flush,
}

/// Makes the run again and again, with the first of such calls failing, then the second, until none does, and
/// writes how all of these runs end; or what is wrong in the first that is not as it must be.
pub fn ask_each_call(alloc: Global, trial: Trial<'_>, kind: Kind, text: &mut Listing) -> Done {
    let mut ending = Ending::Text;
    // each call before this one has failed, and such runs end alike
    for number in 1..MOST_CALLS {
        let failed = run_failing(alloc, trial, kind, number)?;
        if failed.calls < number {
            return Ok(ending.write(text));
        }
        if number > 1 && failed.ending != ending {
            write!(text, "{number}: ");
            return Ok(failed.ending.write(text));
        }
        if let Some(fault) = failed.fault {
            return Ok(write!(text, "{number}: {fault}"));
        }
        ending = failed.ending;
    }
    Ok(text.word("calls without an end"))
}

// What came of a run in which a call fails.
#[derive(Clone, Copy)]
struct FailedRun {
    ending: Ending,
    // how many such calls there were
    calls: u64,
    // what is wrong
    fault: Option<&'static str>,
}

// Makes the run in which the call of this number fails.
fn run_failing(
    alloc: Global,
    trial: Trial<'_>,
    kind: Kind,
    number: u64,
) -> Result<FailedRun, Fault> {
    let manner = with_failing(trial.manner, kind, number);
    let outcome = Trial { manner, ..trial }.outcome(alloc)?;
    Ok(FailedRun {
        ending: outcome.ending,
        calls: calls_of(&outcome, kind),
        fault: fault_of(&outcome, trial.script, kind),
    })
}

fn with_failing(manner: Manner, kind: Kind, number: u64) -> Manner {
    match kind {
        Kind::Read => Manner {
            reads: manner.reads.failing(number),
            ..manner
        },
        Kind::Write => Manner {
            writes: manner.writes.failing(number),
            ..manner
        },
        Kind::Flush => Manner {
            flushes: manner.flushes.failing(number),
            ..manner
        },
    }
}

fn calls_of(outcome: &Outcome, kind: Kind) -> u64 {
    match kind {
        Kind::Read => outcome.reads,
        Kind::Write => outcome.writes,
        Kind::Flush => outcome.flushes,
    }
}

// What is wrong in a run in which such a call failed.
fn fault_of(outcome: &Outcome, script: &Script, kind: Kind) -> Option<&'static str> {
    if outcome.calls_behind > 0 {
        return Some("calls behind the error");
    }
    if outcome.early > 0 {
        return Some("a read before the answers");
    }
    if !outcome.is_beginning(script) {
        return Some("what is written is no beginning of the answers");
    }
    match kind {
        // a write may have taken a part of what was answered
        Kind::Write => None,
        Kind::Read if outcome.text.len() == outcome.owed && outcome.is_flushed() => None,
        // of the last line, which has no end, it is not known that it was read whole
        Kind::Flush if outcome.text.len() >= outcome.owed && outcome.has_whole_lines() => None,
        _ => Some("lines that were read whole are not answered"),
    }
}
