//! A file of cases.

use crate::block::{Block, Player};
use crate::fault::{Done, Fault};
use crate::memory::{Memory, end_refusals, is_awaited, is_heard};
use crate::repeat::{expand, is_repeated, read_rows, spell_rows};
use crate::report::Report;
use crate::row::{Row, read_row};
use crate::words::{behind, words_of};
use qm_schema::QueryError;
use std::alloc::Global;

// how many requests for memory a block may make
const MOST_REQUESTS: u32 = 1000;

/// Plays the blocks of a text. A line that begins with a space is a row of the block above it, a line
/// `file NAME` begins a file, and `#` a comment.
pub fn play_cases<P: Player>(
    alloc: Global,
    player: &mut P,
    text: &str,
    report: &mut Report,
) -> Done {
    let mut rows: Vec<Row<'_>> = Vec::new(alloc);
    let mut head = "";
    let mut head_line = 0;
    // the rows are those below the head, as far as they were read
    for (line, text) in (1..u64::MAX).zip(text.lines()) {
        if text.trim_start().starts_with('#') {
            continue;
        }
        if text.starts_with(' ') {
            rows.push(read_row(line, text))?;
        } else if !text.is_empty() {
            play_head(alloc, player, head_line, head, &rows, report)?;
            rows.clear();
            head = text;
            head_line = line;
        }
    }
    play_head(alloc, player, head_line, head, &rows, report)?;
    report.finish()
}

// Plays a block, or begins a file; none stands above the first.
fn play_head<P: Player>(
    alloc: Global,
    player: &mut P,
    line: u64,
    head: &str,
    rows: &[Row<'_>],
    report: &mut Report,
) -> Done {
    if let Some(name) = head.strip_prefix("file ") {
        return Ok(report.begin_file(line, name));
    }
    let row = read_row(line, head);
    let words = words_of(alloc, row.call)?;
    let memory = if row.is_refused {
        Memory::Refused(1)
    } else if row.call.starts_with("takes no memory ") {
        Memory::None
    } else {
        Memory::Ample
    };
    let words = behind(&words, if memory == Memory::None { 3 } else { 0 });
    let block = Block {
        line,
        words,
        rows,
        memory,
    };
    if words.is_empty() && rows.is_empty() {
        return Ok(());
    }
    if memory == Memory::None && !is_heard(alloc) {
        report.wrong(line, "no refusal of memory is heard");
    }
    let played = if is_repeated(block.words, rows) {
        play_expanded(alloc, player, block, row.is_refused, report)
    } else {
        play_block(alloc, player, block, row.is_refused, report)
    };
    end(&row, rows.len(), played, report)
}

// Plays a block whose words, or some of whose rows, are repeated.
fn play_expanded<P: Player>(
    alloc: Global,
    player: &mut P,
    block: Block<'_>,
    is_refused: bool,
    report: &mut Report,
) -> Done {
    let head = expand(alloc, block.words)?;
    let words = words_of(alloc, head.as_str())?;
    let text = spell_rows(alloc, block.rows)?;
    let rows = read_rows(alloc, text.as_str())?;
    let (words, rows) = (words.as_slice(), rows.as_slice());
    let block = Block {
        words,
        rows,
        ..block
    };
    play_block(alloc, player, block, is_refused, report)
}

// Plays a block once, or again and again.
fn play_block<P: Player>(
    alloc: Global,
    player: &mut P,
    block: Block<'_>,
    is_refused: bool,
    report: &mut Report,
) -> Done {
    if is_refused {
        play_refused(alloc, player, block, report)
    } else {
        play_once(alloc, player, block, report)
    }
}

// Plays a block once.
fn play_once<P: Player>(
    alloc: Global,
    player: &mut P,
    block: Block<'_>,
    report: &mut Report,
) -> Done {
    let played = player.play(alloc, block, report);
    end_refusals(alloc);
    played
}

// Plays a block again and again, with the first request for memory refused as its thing is made, then
// the second, until none is.
fn play_refused<P: Player>(
    alloc: Global,
    player: &mut P,
    block: Block<'_>,
    report: &mut Report,
) -> Done {
    // with each request before this one refused, the block was refused for want of memory
    for number in 1..MOST_REQUESTS {
        let memory = Memory::Refused(number);
        let played = play_once(alloc, player, Block { memory, ..block }, report);
        if played != Err(Fault::Refused(QueryError::Memory)) {
            if number == 1 {
                report.wrong(block.line, "no request for memory was refused");
            } else if !is_awaited(alloc) {
                report.wrong(block.line, "what is made behind a refusal");
            }
            return played;
        }
    }
    Err(Fault::Refused(QueryError::Memory))
}

// Takes what came of a block of so many rows.
fn end(head: &Row<'_>, rows: usize, played: Done, report: &mut Report) -> Done {
    let is_to_be_made = head.wanted.is_empty();
    if played.is_err() {
        report.take(head, played);
    } else if !is_to_be_made {
        report.compare(head.line, head.wanted, "made");
    }
    // rows that nothing answered
    if is_to_be_made == (rows == 0) {
        report.wrong(head.line, "rows that are not played, or none");
    }
    report.check_memory()
}
