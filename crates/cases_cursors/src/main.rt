//! Plays cases on cursors, on what is made of several cursors, and on the sets that they are made of:
//! reads them from standard input, and writes which rows are wrong.
#![tactic(auto)]

mod alive_bits;
mod anew;
mod answer;
mod bit_set;
mod combiners;
mod constants;
mod cursors;
mod document_list;
mod exclusion;
mod gathered;
mod lengths;
mod member_calls;
mod only_steps;
mod player;
mod tiny_set;
mod window;
mod window_changes;
mod wrapped;

use cases::{Done, Report, play_cases};
use player::CursorPlayer;
use std::alloc::Global;
use std::io;
use std::process::ExitCode;

fn main(rt: HostRuntime) -> io::Result<ExitCode> {
    let text = io::read_to_string(rt.alloc(), rt.reader())?;
    let mut report = Report::new(rt.alloc());
    let status = match play(rt.alloc(), text.as_str(), &mut report) {
        Ok(()) => u8::from(!report.is_right()),
        Err(_) => 2,
    };
    print!(rt; "{}", report.text())?;
    Ok(ExitCode::from(status))
}

fn play(alloc: Global, text: &str, report: &mut Report) -> Done {
    let mut player = CursorPlayer::new(alloc)?;
    play_cases(alloc, &mut player, text, report)
}
