//! Runs in which one request for memory after another is refused.

use crate::ending::Ending;
use crate::script::Script;
use crate::trial::{Outcome, Trial};
use cases::{Done, Fault, Listing, Memory, is_awaited, is_heard};
use qm_script::RunError;
use std::alloc::{AllocError, Global};

// how many requests for memory a run may make
const MOST_REQUESTS: u32 = 100_000;

/// Makes the run again and again, with the first of its requests for memory refused, then the second, until none
/// is. Each time the run must end behind answers of whole lines, or answer one line `refused 13` and all others
/// as ever. Writes which of these came; or what is wrong in the first that is not so.
pub fn ask_each_request(alloc: Global, trial: Trial<'_>, text: &mut Listing) -> Done {
    if !is_heard(alloc) {
        return Ok(text.word("unheard"));
    }
    let mut seen = Seen::new(alloc);
    // each request before this one was refused, and what came is seen
    for number in 1..MOST_REQUESTS {
        let memory = Memory::Refused(number);
        match seen.take_run(alloc, Trial { memory, ..trial })? {
            Came::Refusal => {}
            Came::Answers => {
                return if is_awaited(alloc) {
                    Ok(seen.write(text))
                } else {
                    Ok(write!(text, "{number}: goes on behind a refusal"))
                };
            }
            Came::Neither => {
                return Ok(write!(text, "{number}: neither answers, nor one refusal"));
            }
        }
    }
    Ok(text.word("requests without an end"))
}

// What came of a run.
#[derive(Clone, Copy)]
enum Came {
    // all answers
    Answers,
    // a refusal as there may be
    Refusal,
    Neither,
}

// What came where a request was refused.
#[derive(Drop)]
struct Seen {
    // that the run ended so
    has_memory: bool,
    has_write: bool,
    // the lines that were refused
    lines: Vec<u64>,
}

impl Seen {
    fn new(alloc: Global) -> Seen {
        Seen {
            has_memory: false,
            has_write: false,
            lines: Vec::new(alloc),
        }
    }

    // Makes a run, and takes what came of it.
    fn take_run(&mut self, alloc: Global, trial: Trial<'_>) -> Result<Came, Fault> {
        let outcome = trial.outcome(alloc)?;
        if outcome.is_whole(trial.script) {
            return Ok(Came::Answers);
        }
        if self.take(alloc, trial.script, &outcome)? {
            Ok(Came::Refusal)
        } else {
            Ok(Came::Neither)
        }
    }

    // Takes what came of a run, if it is such that may come.
    fn take(
        &mut self,
        alloc: Global,
        script: &Script,
        outcome: &Outcome,
    ) -> Result<bool, AllocError> {
        match outcome.ending {
            Ending::Refused(RunError::Memory) => self.has_memory = true,
            Ending::Refused(RunError::Write) => self.has_write = true,
            Ending::Refused(RunError::Read) => return Ok(false),
            _ => return self.take_refusal(alloc, script, outcome),
        }
        Ok(outcome.is_beginning(script) && outcome.has_whole_lines() && outcome.is_flushed())
    }

    // Takes a run that came to its end, if it is such that one line was refused.
    fn take_refusal(
        &mut self,
        alloc: Global,
        script: &Script,
        outcome: &Outcome,
    ) -> Result<bool, AllocError> {
        let Some(line) = refused_line(alloc, script, outcome)? else {
            return Ok(false);
        };
        if self.lines.last() != Some(&line) {
            self.lines.push(line)?;
        }
        let status = script.status.max(1);
        let is_status = outcome.ending == Ending::Status(status) || outcome.ending == Ending::Text;
        Ok(is_status && outcome.is_flushed())
    }

    fn write(&self, text: &mut Listing) {
        write_part(self.has_memory, "refused Memory", text);
        write_part(self.has_write, "refused Write", text);
        write_part(!self.lines.is_empty(), "refused 13 in lines", text);
        // the numbers of the refused lines before this one are written
        for line in &self.lines {
            write!(text, " {line}");
        }
    }
}

// Writes what came behind a text, if it did.
fn write_part(came: bool, what: &str, text: &mut Listing) {
    if came {
        if !text.as_str().is_empty() {
            text.word(", ");
        }
        text.word(what);
    }
}

// The number of the line that was refused for want of memory, where all others were answered as is wanted.
fn refused_line(
    alloc: Global,
    script: &Script,
    outcome: &Outcome,
) -> Result<Option<u64>, AllocError> {
    let Ok(got) = str::from_utf8(&outcome.text) else {
        return Ok(None);
    };
    let wanted = script.text.as_str();
    if got.split('\n').count() != wanted.split('\n').count() || !outcome.has_whole_lines() {
        return Ok(None);
    }
    let mut found = None;
    // of the answers before this one at most one is a refusal, and all others are as wanted
    for ((answered, wanted), got) in script
        .answered
        .iter()
        .zip(wanted.split('\n'))
        .zip(got.split('\n'))
    {
        if wanted != got {
            let refusal = format!(in alloc; "line {}: refused 13", answered.number)?;
            if got != refusal.as_str() || found.is_some() {
                return Ok(None);
            }
            found = Some(answered.number);
        }
    }
    Ok(found)
}
