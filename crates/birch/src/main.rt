//! Searches text files: `birch [OPTIONS] QUERY [PATH..]` lists the best paragraphs, lines or rows of the
//! files below the paths.
#![tactic(auto)]

mod answer;
mod beginnings;
mod explain;
mod listing;
mod offered;
mod options;
mod run;
mod searched;
mod shown;
mod stats;
mod stop;

use anyhow::Error;
use birch_text::Cleaned;
use run::FAILED;
use std::process::ExitCode;
use stop::Stop;

fn main(rt: HostRuntime) -> ExitCode {
    match run::run(&rt) {
        Ok(status) => ExitCode::from(status),
        // whoever reads the results has read enough
        Err(Stop::Closed) => ExitCode::SUCCESS,
        Err(Stop::Failed(error)) => {
            tell_error(&rt, &error);
            ExitCode::from(FAILED)
        }
        Err(Stop::Kept(trouble)) => {
            let what = trouble.what();
            let _ = eprintln!(rt; "birch: the index: {what}");
            ExitCode::from(FAILED)
        }
    }
}

// Tells of an error, which may have words of the command line in it.
fn tell_error(rt: &HostRuntime, error: &Error) {
    match format!(in rt.alloc(); "{error:#}") {
        Ok(text) => {
            let text = Cleaned(text.as_str());
            let _ = eprintln!(rt; "birch: {text}");
        }
        Err(_) => {
            let _ = eprintln!(rt; "birch: out of memory");
        }
    }
}
