//! What the first rows of a block say of a run: its script, and how its input and its output go.

use crate::script::Script;
use crate::spelled::cut;
use crate::turns::Turns;
use cases::{Fault, Row, words_of};
use std::alloc::Global;

/// How the reads, the writes and the flushes of a run go.
#[derive(Clone, Copy)]
pub struct Manner {
    pub reads: Turns,
    pub writes: Turns,
    pub flushes: Turns,
}

impl Manner {
    /// All goes well.
    pub fn new() -> Manner {
        Manner {
            reads: Turns::new(),
            writes: Turns::new(),
            flushes: Turns::new(),
        }
    }
}

/// Takes the rows of a script and of its input and output, and answers those behind them, which ask.
pub fn take_setting<'a, 'b>(
    alloc: Global,
    rows: &'b [Row<'a>],
    script: &mut Script,
    manner: &mut Manner,
) -> Result<&'b [Row<'a>], Fault> {
    let mut taken = 0usize;
    // so many rows are taken
    for row in rows {
        if !take_row(alloc, row, script, manner)? {
            break;
        }
        taken = taken.saturating_add(1);
    }
    Ok(&rows[taken.min(rows.len())..])
}

// Takes a row, where it is of a script or of its input and output.
fn take_row(
    alloc: Global,
    row: &Row<'_>,
    script: &mut Script,
    manner: &mut Manner,
) -> Result<bool, Fault> {
    let (name, rest) = cut(row.call);
    match name {
        "line" | "words" | "text" => script.take(row, name, rest)?,
        "read" => manner.reads.take(&words_of(alloc, rest)?)?,
        "write" => manner.writes.take(&words_of(alloc, rest)?)?,
        "flush" => manner.flushes.take(&words_of(alloc, rest)?)?,
        _ => return Ok(false),
    }
    if row.is_refused {
        return Err(Fault::NotUnderstood);
    }
    Ok(true)
}
