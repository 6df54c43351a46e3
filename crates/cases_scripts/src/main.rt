//! Plays cases on runs of scripts: reads them from standard input, and writes which rows are wrong.
#![tactic(auto)]

mod answers;
mod asked;
mod each_call;
mod each_cut;
mod each_request;
mod ending;
mod input;
mod output;
mod player;
mod script;
mod setting;
mod spelled;
mod trial;
mod turns;
mod watch;

use crate::player::Scripts;
use cases::{Report, play_cases};
use std::io;
use std::process::ExitCode;

fn main(rt: HostRuntime) -> io::Result<ExitCode> {
    let text = io::read_to_string(rt.alloc(), rt.reader())?;
    let mut report = Report::new(rt.alloc());
    let status = match play_cases(rt.alloc(), &mut Scripts, text.as_str(), &mut report) {
        Ok(()) => u8::from(!report.is_right()),
        Err(_) => 2,
    };
    print!(rt; "{}", report.text())?;
    Ok(ExitCode::from(status))
}
