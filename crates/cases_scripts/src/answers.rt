//! The answers of lines, beside those that are wanted.

use crate::script::Script;
use crate::trial::Outcome;
use cases::{Block, Report};

/// Compares what each line was answered with what its row says. Of a run that ended before its script did,
/// that is left to a row `written`.
pub fn compare_answers(block: Block<'_>, script: &Script, outcome: &Outcome, report: &mut Report) {
    if !outcome.ending.is_well() {
        return;
    }
    let Ok(got) = str::from_utf8(&outcome.text) else {
        return report.wrong(block.line, "a text that is no UTF-8");
    };
    let wanted = script.text.as_str();
    // the answers before this one are compared
    for ((answered, wanted), got) in script
        .answered
        .iter()
        .zip(wanted.split('\n'))
        .zip(got.split('\n'))
    {
        report.compare(answered.row, shown(wanted), shown(got));
    }
    if wanted.split('\n').count() != got.split('\n').count() {
        report.compare(block.line, "a line for each answer", "more or fewer lines");
    }
}

// The answer as a row has it.
fn shown<'a>(answer: &'a str) -> &'a str {
    if answer.is_empty() { "none" } else { answer }
}
