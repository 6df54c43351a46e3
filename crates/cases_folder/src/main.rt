//! Plays cases of updates of a folder, and of what has changed between files: reads them from standard input, and writes which rows are wrong.
#![tactic(auto)]

mod compared;
mod given;
mod given_files;
mod left;
mod memory;
mod names;
mod player;
mod spelled;
mod system;

use crate::player::Folders;
use cases::{Report, play_cases};
use std::io;
use std::process::ExitCode;

fn main(rt: HostRuntime) -> io::Result<ExitCode> {
    let text = io::read_to_string(rt.alloc(), rt.reader())?;
    let scratch = system::scratch(&rt)?;
    let mut report = Report::new(rt.alloc());
    let mut folders = Folders {
        files: &rt,
        scratch: scratch.as_str(),
    };
    let status = match play_cases(rt.alloc(), &mut folders, text.as_str(), &mut report) {
        Ok(()) => u8::from(!report.is_right()),
        Err(_) => 2,
    };
    print!(rt; "{}", report.text())?;
    Ok(ExitCode::from(status))
}
