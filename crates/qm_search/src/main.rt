//! Runs a script of documents and queries from standard input, and writes the answers to standard
//! output.
//!
//! All else is a library, qm_script, since no other crate can call into a program.
#![tactic(auto)]

use qm_script::run_buffered;
use std::io;
use std::process::ExitCode;

/// The exit status of a run that ended before its script did.
const ENDED_EARLY: u8 = 3;

fn main(rt: HostRuntime) -> ExitCode {
    let mut input = rt.stdin();
    match run_buffered(rt.alloc(), &mut input, io::writer(&rt)) {
        Ok((status, _output)) => ExitCode::from(status),
        Err(_) => ExitCode::from(ENDED_EARLY),
    }
}
