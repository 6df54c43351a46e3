//! Runs of the beginnings of a script.

use crate::trial::{Outcome, Trial};
use cases::{Done, Fault, Listing};
use std::alloc::Global;

/// Runs each beginning of the script, cut at every byte, and writes `answered` where each is answered as it
/// must be; or what is wrong in the first that is not.
pub fn ask_each_cut(alloc: Global, trial: Trial<'_>, text: &mut Listing) -> Done {
    // all beginnings shorter than this one are answered
    for length in 0..trial.script.len() {
        if let Some(fault) = run_cut(alloc, Trial { length, ..trial })? {
            return Ok(write!(text, "{length}: {fault}"));
        }
    }
    Ok(text.word("answered"))
}

// Makes the run of a beginning, and answers what is wrong in it.
fn run_cut(alloc: Global, trial: Trial<'_>) -> Result<Option<&'static str>, Fault> {
    let outcome = trial.outcome(alloc)?;
    Ok(fault_of(&outcome, trial))
}

// What is wrong in the run of a beginning: the lines that it has whole are answered as in the whole script, and
// one that is cut is answered by one line, if any.
fn fault_of(outcome: &Outcome, trial: Trial<'_>) -> Option<&'static str> {
    if !outcome.ending.is_well() {
        return Some("the run ended before its script did");
    }
    let owed = trial.script.text.as_bytes();
    let owed = &owed[..outcome.owed.min(owed.len())];
    let Some(rest) = outcome.text.strip_prefix(owed) else {
        return Some("other answers of the whole lines");
    };
    if let Some((_end, before)) = rest.split_last()
        && before.contains(&b'\n')
    {
        return Some("more lines than answers");
    }
    if outcome.early > 0 || !outcome.is_flushed() || !outcome.has_whole_lines() {
        return Some("an answer that is not written and flushed");
    }
    None
}
