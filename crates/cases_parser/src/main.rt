//! Plays cases on texts of queries: reads them from standard input, and writes which rows are wrong.
#![tactic(auto)]

mod player;
mod shown;
mod spelled;

use crate::player::Texts;
use cases::{Report, play_cases};
use std::io;
use std::process::ExitCode;

fn main(rt: HostRuntime) -> io::Result<ExitCode> {
    let text = io::read_to_string(rt.alloc(), rt.reader())?;
    let mut report = Report::new(rt.alloc());
    let status = match play_cases(rt.alloc(), &mut Texts, text.as_str(), &mut report) {
        Ok(()) => u8::from(!report.is_right()),
        Err(_) => 2,
    };
    print!(rt; "{}", report.text())?;
    Ok(ExitCode::from(status))
}
