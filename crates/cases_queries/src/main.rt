//! Plays cases of queries, which standard input has; `docs/CASES.md` has the language.
#![tactic(auto)]

mod ask_query;
mod ask_scoring;
mod changes;
mod getters;
mod kinds;
mod own_calls;
mod player;
mod provider;
mod query;
mod query_clauses;
mod query_leaves;
mod query_scorers;
mod top;
mod weigh;

use crate::player::QueryBlocks;
use cases::{Report, play_cases};
use cases_given::GivenPlayer;
use std::io;
use std::process::ExitCode;

fn main(rt: HostRuntime) -> io::Result<ExitCode> {
    let text = io::read_to_string(rt.alloc(), rt.reader())?;
    let mut report = Report::new(rt.alloc());
    let played = match GivenPlayer::new(rt.alloc(), QueryBlocks) {
        Ok(mut player) => play_cases(rt.alloc(), &mut player, text.as_str(), &mut report),
        Err(fault) => Err(fault),
    };
    let status = match played {
        Ok(()) => u8::from(!report.is_right()),
        Err(_) => 2,
    };
    print!(rt; "{}", report.text())?;
    Ok(ExitCode::from(status))
}
