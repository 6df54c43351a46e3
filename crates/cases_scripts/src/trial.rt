//! One run, and what came of it.

use crate::ending::Ending;
use crate::input::Input;
use crate::output::Output;
use crate::script::Script;
use crate::setting::Manner;
use crate::watch::Watch;
use cases::{Fault, Memory, end_refusals};
use qm_script::{run, run_buffered, text_of};
use std::alloc::Global;

/// The calls that run a script.
#[derive(Clone, Copy, PartialEq, Eq)]
pub enum Call {
    Run,
    RunBuffered,
    TextOf,
}

/// What one run is made with.
#[derive(Clone, Copy)]
pub struct Trial<'a> {
    pub call: Call,
    pub script: &'a Script,
    /// how many bytes of the script it is given
    pub length: usize,
    pub manner: Manner,
    pub memory: Memory,
}

/// What came of a run.
#[derive(Drop)]
pub struct Outcome {
    pub ending: Ending,
    /// what was written
    pub text: Vec<u8>,
    /// how many bytes of it stood there at the last flush
    pub flushed: usize,
    /// how many bytes of the wanted text are the answers of the lines that were read whole
    pub owed: usize,
    pub reads: u64,
    pub writes: u64,
    pub flushes: u64,
    /// the first read that came before an answer was flushed; 0 where none did
    pub early: u64,
    /// how many calls came behind the first that failed
    pub calls_behind: u64,
}

impl Outcome {
    /// Whether the run came to its end, and answered each line of the script as is wanted.
    pub fn is_whole(&self, script: &Script) -> bool {
        let is_well = match self.ending {
            Ending::Status(status) => status == script.status,
            Ending::Text => true,
            Ending::Refused(_) => false,
        };
        is_well && self.is_flushed() && self.text.as_slice() == script.text.as_bytes()
    }

    /// Whether what was written is answers of the first lines of the script, of each the whole or, as far as an
    /// output has taken it, the beginning.
    pub fn is_beginning(&self, script: &Script) -> bool {
        script.text.as_bytes().starts_with(&self.text)
    }

    /// Whether it ends with the end of a line.
    pub fn has_whole_lines(&self) -> bool {
        self.text.is_empty() || self.text.last() == Some(&b'\n')
    }

    /// Whether all that was written was flushed.
    pub fn is_flushed(&self) -> bool {
        self.flushed == self.text.len()
    }
}

impl<'a> Trial<'a> {
    /// Makes the run.
    pub fn outcome(self, alloc: Global) -> Result<Outcome, Fault> {
        match self.call {
            Call::TextOf => self.text(alloc),
            _ => self.written(alloc),
        }
    }

    fn written(self, alloc: Global) -> Result<Outcome, Fault> {
        let watch = Watch::new();
        let mut output = Output::new(alloc, self.manner.writes, self.manner.flushes, &watch)?;
        let mut input = Input::new(self.script, self.length, self.manner.reads, &watch);
        self.memory.begin(alloc);
        let ending = if self.call == Call::Run {
            end_of_run(alloc, &mut input, &mut output)
        } else {
            end_of_buffered(alloc, &mut input, &mut output)
        };
        end_refusals(alloc);
        let (owed, reads, early) = (input.owed(), input.reads.made, input.early);
        let (writes, flushes) = (output.writes.made, output.flushes.made);
        Ok(Outcome {
            ending,
            text: output.into_text(),
            flushed: watch.flushed.get(),
            owed,
            reads,
            writes,
            flushes,
            early,
            calls_behind: watch.calls_behind.get(),
        })
    }

    fn text(self, alloc: Global) -> Result<Outcome, Fault> {
        self.memory.begin(alloc);
        let made = text_of(alloc, self.script.beginning(self.length));
        end_refusals(alloc);
        let (ending, text) = match made {
            Ok(text) => (Ending::Text, text),
            Err(error) => (Ending::Refused(error), Vec::new(alloc)),
        };
        Ok(Outcome {
            ending,
            flushed: text.len(),
            text,
            owed: self.script.owed(self.length),
            reads: 0,
            writes: 0,
            flushes: 0,
            early: 0,
            calls_behind: 0,
        })
    }
}

fn end_of_run(alloc: Global, input: &mut Input<'_>, output: &mut Output<'_>) -> Ending {
    match run(alloc, input, output) {
        Ok(status) => Ending::Status(status),
        Err(error) => Ending::Refused(error),
    }
}

fn end_of_buffered(alloc: Global, input: &mut Input<'_>, output: &mut Output<'_>) -> Ending {
    match run_buffered(alloc, input, output) {
        Ok((status, _output)) => Ending::Status(status),
        Err(error) => Ending::Refused(error),
    }
}
