//! Plays cases of scorers' trees and weights, which standard input has; `docs/CASES.md` has the language.
#![tactic(auto)]

mod combiners;
mod group_nodes;
mod leaves;
mod nodes;
mod own_calls;
mod player;
mod scorer_blocks;
mod similarity;
mod term_clauses;
mod tree;
mod tree_runs;
mod weight;
mod weight_nodes;
mod weight_rows;

use crate::player::WeightBlocks;
use cases::{Report, play_cases};
use cases_given::GivenPlayer;
use std::io;
use std::process::ExitCode;

fn main(rt: HostRuntime) -> io::Result<ExitCode> {
    let text = io::read_to_string(rt.alloc(), rt.reader())?;
    let mut report = Report::new(rt.alloc());
    let played = match GivenPlayer::new(rt.alloc(), WeightBlocks) {
        Ok(mut player) => play_cases(rt.alloc(), &mut player, text.as_str(), &mut report),
        Err(fault) => Err(fault),
    };
    let status = match played {
        Ok(()) => u8::from(!report.is_right()),
        Err(_) => 2,
    };
    print!(rt; "{}", report.text())?;
    Ok(ExitCode::from(status))
}
