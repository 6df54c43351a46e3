//! Measures what stored segments cost: each step of a run, by the time of the processor.
//!
//! `write TEXT FILE` makes a segment of a text, of which each line is a document, and writes it. `query FILE WORD` opens it,
//! reads the row of a word without its positions, and scores its documents; `places FILE WORD` reads the positions too;
//! `whole FILE` reads all rows. `save TEXT FOLDER` saves an index of such a text, and `open FOLDER` opens it. Each line
//! that is printed has a step and its microseconds, or a count.
#![tactic(auto)]

mod given;
mod kept_index;
mod queried;
mod steps;
mod stopped;
mod written;

use given::KEPT;
use qm_schema::IndexRecordOption;
use std::env;
use std::process::ExitCode;
use stopped::Stopped;

fn main(rt: HostRuntime) -> ExitCode {
    match run(&rt) {
        Ok(()) => ExitCode::SUCCESS,
        Err(error) => {
            let _ = eprintln!(rt; "bench_store: {error}");
            ExitCode::FAILURE
        }
    }
}

// Does what the words of the command line ask for.
fn run(rt: &HostRuntime) -> Result<(), Stopped> {
    let words: Vec<String> = env::args(rt)?.collect(rt.alloc())?;
    match (word(&words, 1), word(&words, 2), word(&words, 3)) {
        ("write", text, file) => written::write(rt, text, file),
        ("query", file, word) => queried::query(rt, file, word, IndexRecordOption::WithFreqs),
        ("places", file, word) => queried::query(rt, file, word, KEPT),
        ("whole", file, _) => queried::read_whole(rt, file),
        ("save", text, folder) => kept_index::save(rt, text, folder),
        ("open", folder, _) => kept_index::open(rt, folder),
        _ => Err(Stopped::NoCommand),
    }
}

// The word at a place, and none behind the last.
fn word(words: &[String], place: usize) -> &str {
    match words.get(place) {
        Some(word) => word.as_str(),
        None => "",
    }
}
