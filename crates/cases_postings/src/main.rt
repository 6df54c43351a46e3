//! Plays cases of schemas, segments, postings, terms and phrases from standard input, and writes what is
//! wrong. `docs/CASES.md` has the language.
#![tactic(auto)]

mod bench;
mod blocks;
mod borrowed;
mod built_rows;
mod cursor;
mod explained;
mod given;
mod given_documents;
mod given_terms;
mod index_rows;
mod kept;
mod keys;
mod maker;
mod making;
mod member;
mod moved;
mod norm_rows;
mod offered;
mod own_postings;
mod phrases;
mod provider;
mod ranked;
mod saved_rows;
mod schema_rows;
mod searcher_rows;
mod segment_phrases;
mod segment_rows;
mod several;
mod spelled;
mod stored_rows;
mod term_rows;
mod unions;
mod weight_rows;

use crate::bench::Bench;
use cases::{Done, Report, play_cases};
use std::alloc::Global;
use std::io;
use std::process::ExitCode;

fn main(rt: HostRuntime) -> io::Result<ExitCode> {
    let text = io::read_to_string(rt.alloc(), rt.reader())?;
    let mut report = Report::new(rt.alloc());
    let status = match play(rt.alloc(), text.as_str(), &mut report) {
        Ok(()) => u8::from(!report.is_right()),
        Err(_) => 2,
    };
    print!(rt; "{}", report.text())?;
    Ok(ExitCode::from(status))
}

fn play(alloc: Global, text: &str, report: &mut Report) -> Done {
    let mut bench = Bench::new(alloc)?;
    play_cases(alloc, &mut bench, text, report)
}
