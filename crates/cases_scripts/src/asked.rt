//! Rows that ask what came of a run.

use crate::each_call::{Kind, ask_each_call};
use crate::each_cut::ask_each_cut;
use crate::each_request::ask_each_request;
use crate::spelled::show_bytes;
use crate::trial::{Call, Outcome, Trial};
use cases::{Asker, Done, Fault, Listing, Memory};
use std::alloc::Global;

/// A run, and what came of it.
#[derive(Drop)]
pub struct AskedRun<'a> {
    pub trial: Trial<'a>,
    pub outcome: Outcome,
}

impl<'a> Asker for AskedRun<'a> {
    fn ask(&mut self, alloc: Global, call: &str, memory: Memory, text: &mut Listing) -> Done {
        if memory != Memory::Ample {
            return Err(Fault::NotUnderstood);
        }
        match call {
            "status" => Ok(self.outcome.ending.write(text)),
            "written" => Ok(show_bytes(&self.outcome.text, text)),
            "each request fails" => ask_each_request(alloc, self.trial, text),
            "cut at each byte" => ask_each_cut(alloc, self.trial, text),
            // these are of an input and an output
            _ if self.trial.call == Call::TextOf => Err(Fault::NotUnderstood),
            "each read fails" => ask_each_call(alloc, self.trial, Kind::Read, text),
            "each write fails" => ask_each_call(alloc, self.trial, Kind::Write, text),
            "each flush fails" => ask_each_call(alloc, self.trial, Kind::Flush, text),
            _ => answer(&self.outcome, call, text),
        }
    }
}

fn answer(outcome: &Outcome, call: &str, text: &mut Listing) -> Done {
    match call {
        "reads" => write!(text, "{}", outcome.reads),
        "writes" => write!(text, "{}", outcome.writes),
        "flushes" => write!(text, "{}", outcome.flushes),
        "calls behind the error" => write!(text, "{}", outcome.calls_behind),
        "flushed" => {
            let flushed = outcome.flushed.min(outcome.text.len());
            show_bytes(&outcome.text[..flushed], text);
        }
        "answered before each read" => write_early(outcome.early, text),
        _ => return Err(Fault::NotUnderstood),
    }
    Ok(())
}

fn write_early(early: u64, text: &mut Listing) {
    if early == 0 {
        text.word("all")
    } else {
        write!(text, "not before read {early}")
    }
}
