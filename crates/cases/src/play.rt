//! Rows played on any scorer.

ghost use Rattle.std.specs.Prelude.{IsTrue};
ghost use Rattle.qm_docset.specs.Lists.{IsPlaced};

use crate::answer::Answer;
use crate::call::{Call, read_call};
use crate::fault::Done;
use crate::listing::Listing;
use crate::memory::{Memory, end_refusals};
use crate::moves::Moves;
use crate::report::Report;
use crate::row::Row;
use qm_combine::Scorer;
use qm_docset::{
    AliveBitSet, COLLECT_BLOCK_BUFFER_LEN, DocId, DocSet, SeekDangerResult, TERMINATED,
};
use std::alloc::Global;

/// What calls are played with.
#[derive(Clone, Copy)]
pub struct Desk<'a> {
    /// what `count` counts
    pub alive: &'a AliveBitSet,
    /// what `moves` tells
    pub moves: &'a Moves,
}

/// Plays rows on a scorer that is placed. Behind a row `takes no memory` every request for memory is
/// refused.
pub fn play_scores<S: Scorer>(
    alloc: Global,
    desk: &Desk<'_>,
    scorer: &mut S,
    rows: &[Row<'_>],
    report: &mut Report,
) -> Done
    requires { IsPlaced S.DocSet scorer.old }
{
    let mut buffer = [0; COLLECT_BLOCK_BUFFER_LEN];
    let mut placed = true;
    // the scorer is a cursor all the time, and stands on its first document where `placed` says so
    for row in rows {
        let call = read_call(row.call);
        if row.is_refused {
            report.wrong(row.line, "a call that never takes memory");
        } else if call == Call::TakesNoMemory {
            report.hear(alloc, row);
            Memory::None.begin(alloc);
        } else {
            let text = &mut report.got;
            let answer = ask(desk, scorer, call, &mut placed, &mut buffer, text);
            let written = answer.write(&buffer, &mut report.got);
            report.take(row, written);
        }
        report.check_memory()?;
    }
    end_refusals(alloc);
    Ok(())
}

// Makes one call; one that asks for what doesn't hold is not made.
fn ask<S: Scorer>(
    desk: &Desk<'_>,
    scorer: &mut S,
    call: Call,
    placed: &mut bool,
    buffer: &mut [DocId; COLLECT_BLOCK_BUFFER_LEN],
    text: &mut Listing,
) -> Answer
    requires valid { S.valid scorer.old }
    requires placed { IsTrue placed.old → S.placed scorer.old }
    ensures valid { S.valid scorer.new }
    ensures placed { IsTrue placed.new → S.placed scorer.new }
{
    match call {
        Call::Seek(target) => seek(scorer, target, placed),
        Call::SeekDanger(target) => seek_danger(scorer, target, placed),
        Call::SeekWithin(target, most) => {
            let answer = seek_danger(scorer, target, placed);
            within(answer, target, most)
        }
        Call::MaxScore => Answer::Score(scorer.max_score()),
        Call::Hint => Answer::Number(u64::from(scorer.size_hint())),
        Call::Cost => Answer::Number(scorer.cost()),
        Call::Moves => Answer::Number(desk.moves.total()),
        Call::MovesOfFirst => Answer::Number(desk.moves.first.get()),
        Call::MovesOfOthers => Answer::Number(desk.moves.others.get()),
        Call::MovesWithin(most) => moves_within(desk.moves.total(), most),
        _ => {
            if !*placed {
                Answer::NotAllowed
            } else if call == Call::Scores {
                write_scores(scorer, text)
            } else {
                ask_placed(desk, scorer, call, buffer)
            }
        }
    }
}

fn seek<S: Scorer>(scorer: &mut S, target: DocId, placed: &mut bool) -> Answer
    requires valid { S.valid scorer.old }
    requires placed { IsTrue placed.old → S.placed scorer.old }
    ensures valid { S.valid scorer.new }
    ensures placed { IsTrue placed.new → S.placed scorer.new }
{
    if target > TERMINATED {
        return Answer::NotAllowed;
    }
    *placed = true;
    Answer::Document(scorer.seek(target))
}

fn seek_danger<S: Scorer>(scorer: &mut S, target: DocId, placed: &mut bool) -> Answer
    requires valid { S.valid scorer.old }
    requires placed { IsTrue placed.old → S.placed scorer.old }
    ensures valid { S.valid scorer.new }
    ensures placed { IsTrue placed.new → S.placed scorer.new }
{
    if target > TERMINATED {
        return Answer::NotAllowed;
    }
    match scorer.seek_danger(target) {
        SeekDangerResult::Found => {
            *placed = true;
            Answer::Found
        }
        SeekDangerResult::SeekLowerBound(bound) => {
            *placed = false;
            Answer::Below(bound)
        }
    }
}

// What `seek_danger` answered, where it is known on which document it leaves the scorer at most.
fn within(answer: Answer, target: DocId, most: DocId) -> Answer {
    match answer {
        Answer::Below(bound) if bound <= most && (bound > target || bound == TERMINATED) => {
            Answer::Allowed
        }
        _ => answer,
    }
}

// Whether so many moves are at most so many, else how many they are.
fn moves_within(moves: u64, most: u64) -> Answer {
    if moves <= most {
        Answer::Allowed
    } else {
        Answer::Number(moves)
    }
}

// Writes all documents that are left, each with its score.
fn write_scores<S: Scorer>(scorer: &mut S, text: &mut Listing) -> Answer
    requires { IsPlaced S.DocSet scorer.old }
    ensures { IsPlaced S.DocSet scorer.new }
{
    let mut doc = scorer.doc();
    // the scorer stands on this document
    while doc < TERMINATED {
        let score = scorer.score();
        text.score(doc, score);
        doc = scorer.advance();
    }
    Answer::Written
}

// The calls that ask for a placed cursor, and keep it so.
fn ask_placed<S: Scorer>(
    desk: &Desk<'_>,
    scorer: &mut S,
    call: Call,
    buffer: &mut [DocId; COLLECT_BLOCK_BUFFER_LEN],
) -> Answer
    requires { IsPlaced S.DocSet scorer.old }
    ensures { IsPlaced S.DocSet scorer.new }
{
    match call {
        Call::Doc => Answer::Document(scorer.doc()),
        Call::Advance => Answer::Document(scorer.advance()),
        Call::Fill => Answer::Filled(scorer.fill_buffer(buffer)),
        Call::FillBelow(bound) => Answer::Filled(scorer.fill_buffer_below(bound, buffer)),
        Call::Count => Answer::Number(u64::from(scorer.count(desk.alive))),
        Call::Total => Answer::Number(u64::from(scorer.count_including_deleted())),
        Call::Score => {
            if scorer.doc() < TERMINATED {
                Answer::Score(scorer.score())
            } else {
                Answer::NotAllowed
            }
        }
        _ => Answer::NotUnderstood,
    }
}
