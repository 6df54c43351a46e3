//! Rows on a cursor.

ghost use Rattle.std.specs.Prelude.{IsTrue};
ghost use Rattle.qm_docset.specs.Lists.{IsPlaced};

use crate::moved::{make_move, read_move};
use cases::{Done, Fault, Listing, Memory, Report, Row, end_refusals, is_awaited};
use qm_docset::{AliveBitSet, COLLECT_BLOCK_BUFFER_LEN, DocSet};
use qm_schema::QueryError;
use std::alloc::Global;

// how many requests for memory a call may make
const MOST_REQUESTS: u32 = 1000;

/// A cursor that has calls of its own besides those of every cursor.
pub trait Played: DocSet {
    /// Makes a call of its own, where it is placed, with some requests for memory refused meanwhile, and
    /// writes what it answered.
    fn ask(&mut self, alloc: Global, call: &str, memory: Memory, text: &mut Listing) -> Done
        requires valid { Self.valid self.old }
        requires placed { Self.placed self.old }
        ensures valid { Self.valid self.new }
        ensures placed { Self.placed self.new };
}

/// Plays rows on a cursor that is placed. Behind a row `takes no memory` every request for memory is
/// refused.
pub fn play_cursor<C: Played>(
    alloc: Global,
    alive: &AliveBitSet,
    cursor: &mut C,
    rows: &[Row<'_>],
    report: &mut Report,
) -> Done
    requires { IsPlaced C.DocSet cursor.old }
{
    let mut memory = Memory::Ample;
    let mut placed = true;
    // the cursor is one all the time, and stands on its first document where `placed` says so
    for row in rows {
        if row.call == "takes no memory" {
            report.hear(alloc, row);
            memory = Memory::None;
        } else if row.is_refused {
            play_refused(alloc, alive, cursor, &mut placed, row, report);
        } else {
            let text = &mut report.got;
            let answer = ask(alloc, alive, cursor, &mut placed, row.call, memory, text);
            end_refusals(alloc);
            report.take(row, answer);
        }
        report.check_memory()?;
    }
    Ok(())
}

// Plays a row with each of its requests for memory refused in turn.
fn play_refused<C: Played>(
    alloc: Global,
    alive: &AliveBitSet,
    cursor: &mut C,
    placed: &mut bool,
    row: &Row<'_>,
    report: &mut Report,
)
    requires valid { C.valid cursor.old }
    requires placed { IsTrue placed.old → C.placed cursor.old }
    ensures valid { C.valid cursor.new }
    ensures placed { IsTrue placed.new → C.placed cursor.new }
{
    // the cursor is as it was
    for number in 1..MOST_REQUESTS {
        let memory = Memory::Refused(number);
        let text = &mut report.got;
        let answer = ask(alloc, alive, cursor, placed, row.call, memory, text);
        end_refusals(alloc);
        if answer != Err(Fault::Refused(QueryError::Memory)) {
            if number == 1 {
                return report.wrong(row.line, "no request for memory was refused");
            }
            if !is_awaited(alloc) {
                return report.wrong(row.line, "a call that goes on behind a refusal");
            }
            return report.take(row, answer);
        }
    }
    report.wrong(row.line, "refused without an end");
}

// Makes one call, with some requests for memory refused meanwhile, and writes what it answered.
fn ask<C: Played>(
    alloc: Global,
    alive: &AliveBitSet,
    cursor: &mut C,
    placed: &mut bool,
    call: &str,
    memory: Memory,
    text: &mut Listing,
) -> Done
    requires valid { C.valid cursor.old }
    requires placed { IsTrue placed.old → C.placed cursor.old }
    ensures valid { C.valid cursor.new }
    ensures placed { IsTrue placed.new → C.placed cursor.new }
{
    let mut buffer = [0; COLLECT_BLOCK_BUFFER_LEN];
    if let Some(call) = read_move(call) {
        memory.begin(alloc);
        let moved = make_move(alive, cursor, call, placed, &mut buffer);
        end_refusals(alloc);
        return moved.write(&buffer, text);
    }
    if !*placed {
        return Err(Fault::NotAllowed);
    }
    cursor.ask(alloc, call, memory, text)
}
