//! Plays cases of rows and of segments as bytes, and of merged segments: reads them from standard input, and writes which
//! rows are wrong.
#![tactic(auto)]

mod asked_places;
mod asked_segment;
mod asked_wanted;
mod changed_bytes;
mod error_texts;
mod given_deletions;
mod given_manifest;
mod given_part;
mod given_places;
mod given_row;
mod given_rows;
mod given_segment;
mod given_term;
mod heard_pieces;
mod kept;
mod merged;
mod player;
mod sink;
mod spelled;
mod told_manifest;
mod writes;
mod written_file;
mod written_segment;

use crate::player::Store;
use cases::{Report, play_cases};
use std::io;
use std::process::ExitCode;

fn main(rt: HostRuntime) -> io::Result<ExitCode> {
    let text = io::read_to_string(rt.alloc(), rt.reader())?;
    let mut report = Report::new(rt.alloc());
    let status = match play_cases(
        rt.alloc(),
        &mut Store { rt: &rt },
        text.as_str(),
        &mut report,
    ) {
        Ok(()) => u8::from(!report.is_right()),
        Err(_) => 2,
    };
    print!(rt; "{}", report.text())?;
    Ok(ExitCode::from(status))
}
