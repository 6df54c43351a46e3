//! Rows played on what answers with a text.

use crate::fault::{Done, Fault};
use crate::listing::Listing;
use crate::memory::{Memory, end_refusals, is_awaited};
use crate::report::Report;
use crate::row::Row;
use qm_schema::QueryError;
use std::alloc::Global;

// how many requests for memory a call may make
const MOST_REQUESTS: u32 = 1000;

/// What rows are asked of.
pub trait Asker {
    /// Makes the call that words name, with some requests for memory refused in that call and no other,
    /// and writes what it answered behind the text.
    fn ask(&mut self, alloc: Global, call: &str, memory: Memory, text: &mut Listing) -> Done;
}

/// Plays rows. A row `refused each CALL` is made again and again, with the first of its requests for
/// memory refused, then the second, until none is; each time it must be refused for want of memory
/// before it has said anything, and where it succeeds that request must not have been made. Behind a row
/// `takes no memory` calls are made with every request refused, and behind a row
/// `takes at most N bytes at once` with every request of more bytes refused.
pub fn play_asked<A: Asker>(
    alloc: Global,
    asker: &mut A,
    rows: &[Row<'_>],
    report: &mut Report,
) -> Done {
    let mut memory = Memory::Ample;
    // the rows before this one are played, and `memory` is what they allow
    for row in rows {
        if let Some(allowed) = read_allowed(row.call) {
            report.hear(alloc, row);
            memory = allowed;
        } else if row.is_refused {
            play_refused(alloc, asker, row, report);
        } else {
            let answer = asker.ask(alloc, row.call, memory, &mut report.got);
            end_refusals(alloc);
            report.take(row, answer);
        }
        report.check_memory()?;
    }
    Ok(())
}

// Which requests are refused behind a row that says what may be taken.
fn read_allowed(call: &str) -> Option<Memory> {
    if call == "takes no memory" {
        return Some(Memory::None);
    }
    let bytes = call
        .strip_prefix("takes at most ")?
        .strip_suffix(" bytes at once")?;
    Some(Memory::Over(bytes.parse().ok()?))
}

// Plays a row with each of its requests for memory refused in turn.
fn play_refused<A: Asker>(alloc: Global, asker: &mut A, row: &Row<'_>, report: &mut Report) {
    // each call so far was refused for want of memory, and said nothing before
    for number in 1..MOST_REQUESTS {
        let answer = asker.ask(alloc, row.call, Memory::Refused(number), &mut report.got);
        end_refusals(alloc);
        if answer != Err(Fault::Refused(QueryError::Memory)) {
            if number == 1 {
                return report.wrong(row.line, "no request for memory was refused");
            }
            if !is_awaited(alloc) {
                return report.wrong(row.line, "a call that goes on behind a refusal");
            }
            return report.take(row, answer);
        }
        if !report.got.as_str().is_empty() {
            return report.wrong(row.line, "a refused call that said something before");
        }
    }
    report.wrong(row.line, "refused without an end");
}
