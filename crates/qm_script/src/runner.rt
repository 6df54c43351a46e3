//! Running a script.
//!
//! Answers are written before more input is asked for. Behind the end of the input it is asked for nothing.

ghost use Rattle.std.specs.Prelude.{◌≤◌, IfOk, IfSome, OnOk, string_bytes};
ghost use Rattle.std.specs.Io.Buffered.{writer_contents};
ghost use Rattle.std.specs.Io.KnownBytes.{Appends, Keeps};
ghost use Rattle.qm_script.specs.Runs.{AnswersLine, IsReadAs, RunsTo, output};
ghost use Rattle.qm_script.specs.State.{state};

mod in_memory;

use crate::answer::answer_command;
use crate::corpus::Corpus;
use crate::lines::Lines;
use crate::parse::{Command, parse_line};
use crate::unparsed::Unparsed;
pub use in_memory::text_of;
use std::alloc::{AllocError, AllocFailed, Global};
use std::io::{BufWriter, Read, Write};
use thiserror::Error;

/// Why a run ended before the end of its script.
#[derive(Clone, Copy, Debug, PartialEq, Eq, Error)]
pub enum RunError {
    /// The input answered an error.
    #[error("the script could not be read")]
    Read,
    /// The output answered an error.
    #[error("the answers could not be written")]
    Write,
    /// There was no memory left for what is kept of the script: a line, its words, the documents, their
    /// segments, the weights and the statistics; or for the text that says that a line was refused or not
    /// understood. Want of memory for a query or for what it lists refuses its line alone.
    #[error("out of memory for the script, or for the text of a refusal")]
    Memory,
}

impl From<AllocError> for RunError {
    fn from(_error: AllocError) -> RunError {
        RunError::Memory
    }
}

impl<T: Drop> From<AllocFailed<T>> for RunError {
    fn from(_error: AllocFailed<T>) -> RunError {
        RunError::Memory
    }
}

/// Runs the script as [`run`] does, through a buffer before the output. The output comes back beside
/// the exit status, and has all answers then: none is left in the buffer.
///
/// `Memory` comes too where there is none for the buffer. Where the run ends with an error, what
/// couldn't be written is dropped with the buffer.
pub fn run_buffered<R: Read, W: Write + Drop>(
    alloc: Global,
    input: &mut R,
    output: W,
) -> Result<(u8, W), RunError>
    ensures answers { IfSome (R.remaining input.old)
        (λ bytes. IfOk result (λ ended. RunsTo bytes ended.0 (W.contents output) (W.contents ended.1))) }
    ensures status { IfOk result (λ ended. ended.0 ≤ 2) }
{
    let Ok(mut buffer) = BufWriter::new(alloc, output) else {
        return Err(RunError::Memory);
    };
    match run(alloc, input, &mut buffer) {
        Ok(status) => {
            let output = write_out(buffer)?;
            Ok((status, output))
        }
        Err(error) => {
            drop_unwritten(buffer);
            Err(error)
        }
    }
}

// The output behind a buffer, once all that the buffer holds is written.
fn write_out<W: Write + Drop>(buffer: BufWriter<W>) -> Result<W, RunError>
    ensures { IfOk result (λ output. Keeps (writer_contents W.contents buffer) (W.contents output)) }
{
    match buffer.into_inner() {
        Ok(output) => Ok(output),
        Err(error) => {
            drop_unwritten(error.into_inner());
            Err(RunError::Write)
        }
    }
}

// Drops a buffer that could not be written: it would try once more if it were dropped whole.
fn drop_unwritten<W: Write + Drop>(buffer: BufWriter<W>) {
    let (_output, _unwritten) = buffer.into_parts();
}

/// Runs the script that the input gives, writes the answers to the output, and answers the exit
/// status: 2 where some line wasn't understood, else 1 where some line was refused, else 0.
///
/// Before more input is asked for, all lines that were read whole are answered, and the answers
/// written and flushed: so the output is best a buffer, and nothing is left in it once the input has
/// ended. A read or a write that is interrupted is made again, a flush is not. Costs what the lines
/// cost, and one flush for each read.
///
/// The first error ends the run. Behind `Read` what was answered before has been written and flushed;
/// behind `Memory` too, unless the output answers an error to that, which is not told then. Behind
/// `Write` nothing more is written, and what was written since the last flush may be anywhere.
pub fn run<R: Read, W: Write>(alloc: Global, input: &mut R, output: &mut W) -> Result<u8, RunError>
    ensures answers { IfSome (R.remaining input.old)
        (λ bytes. IfOk result (λ status. RunsTo bytes status (W.contents output.old) (W.contents output.new))) }
    ensures status { IfOk result (λ status. status ≤ 2) }
{
    match answer_lines(alloc, input, output) {
        // all lines but the one that found no memory are answered, and some not yet written
        Err(RunError::Memory) => {
            let _ = output.flush();
            Err(RunError::Memory)
        }
        // the read that ended the run came behind a flush
        ended => ended,
    }
}

// Answers every line, and gives the worst status.
fn answer_lines<R: Read, W: Write>(
    alloc: Global,
    input: &mut R,
    output: &mut W,
) -> Result<u8, RunError>
    ensures answers { IfSome (R.remaining input.old)
        (λ bytes. IfOk result (λ status. RunsTo bytes status (W.contents output.old) (W.contents output.new))) }
    ensures status { IfOk result (λ status. status ≤ 2) }
{
    let mut lines = Lines::new();
    let mut line = Vec::new(alloc);
    let mut text = String::new(alloc);
    let Ok(mut corpus) = Corpus::new(alloc) else {
        return Err(RunError::Memory);
    };
    let mut status = 0;
    // the lines before this one are answered, and their worst status is known
    for number in 1..u64::MAX {
        // what was answered appears before more input is waited for
        if !lines.has_line() {
            flush(output)?;
        }
        if !lines.next_line(input, &mut line)? {
            return Ok(status);
        }
        let made = answer_line(alloc, &mut corpus, number, line.as_slice(), &mut text)?;
        status = made.max(status);
        write_text(output, text.as_str())?;
    }
    Err(RunError::Read)
}

// Answers a line, leaves in the text what is to be written for it, and gives the exit status of a
// script that has no other line.
fn answer_line(
    alloc: Global,
    corpus: &mut Corpus,
    number: u64,
    line: &[u8],
    text: &mut String,
) -> Result<u8, RunError>
    ensures answer { IfOk result
        (λ status. AnswersLine (state corpus.old) number line.now (output (string_bytes text.new) status) (state corpus.new)) }
    ensures status { IfOk result (λ status. status ≤ 2) }
{
    let command = read_command(alloc, line)?;
    text.clear();
    let answer = answer_command(alloc, corpus, command, text)?;
    answer.finish(number, text)?;
    Ok(answer.status())
}

// What the line asks for; none where it isn't understood.
fn read_command(alloc: Global, line: &[u8]) -> Result<Option<Command>, RunError>
    ensures { IfOk result (IsReadAs line.now) }
{
    match parse_line(alloc, line) {
        Ok(command) => Ok(Some(command)),
        Err(Unparsed::NotUnderstood) => Ok(None),
        Err(Unparsed::Memory) => Err(RunError::Memory),
    }
}

fn write_text<W: Write>(output: &mut W, text: &str) -> Result<(), RunError>
    ensures { OnOk result (Appends (W.contents output.old) (W.contents output.new) text.now) }
{
    match output.write_all(text.as_bytes()) {
        Ok(()) => Ok(()),
        Err(_) => Err(RunError::Write),
    }
}

fn flush<W: Write>(output: &mut W) -> Result<(), RunError>
    ensures { OnOk result (Keeps (W.contents output.old) (W.contents output.new)) }
{
    match output.flush() {
        Ok(()) => Ok(()),
        Err(_) => Err(RunError::Write),
    }
}
