//! Calls that change a window of documents.

ghost use Rattle.std.specs.Prelude.{◌≡◌, ◌<◌, ◌≤◌, IfSome, true};
ghost use Rattle.qm_combine.specs.Window.{window_end, window_start};
ghost use Rattle.cases_cursors.specs.Played.{IsPlayed};

use cases::{Fault, behind, read_document, word, words_of};
use qm_combine::{HORIZON, ScoreCombiner, Window};
use qm_docset::{DocId, Score, TERMINATED};
use std::alloc::Global;

/// A call that changes a window.
#[derive(Clone, Copy)]
pub enum Change {
    Reset(DocId),
    ResetUntilLast(DocId),
    Add(DocId, u64),
    Mark(DocId),
    DropBelow(DocId),
}

/// The change that a call spells, or none where it changes nothing.
pub fn read_change(alloc: Global, call: &str) -> Result<Option<Change>, Fault> {
    let words = words_of(alloc, call)?;
    let Some(doc) = read_document(word(&words, 1)) else {
        return Ok(None);
    };
    match word(&words, 0) {
        "reset" => Ok(Some(Change::Reset(doc))),
        "reset_until_last" => Ok(Some(Change::ResetUntilLast(doc))),
        "add" => read_score(&words, doc),
        "mark" => Ok(Some(Change::Mark(doc))),
        "drop_below" => Ok(Some(Change::DropBelow(doc))),
        _ => Ok(None),
    }
}

fn read_score(words: &[&str], doc: DocId) -> Result<Option<Change>, Fault> {
    match word(behind(words, 2), 0).parse::<u64>() {
        Ok(score) => Ok(Some(Change::Add(doc, score))),
        Err(_) => Err(Fault::NotUnderstood),
    }
}

/// Changes a window whose states have room for scores of so much, and answers how much room there is
/// then; none where the change is not allowed.
pub fn change_window<C: ScoreCombiner>(
    window: &mut Window<C>,
    left: u64,
    change: Change,
) -> Option<u64>
    requires { IsPlayed C.step C.cleared window.old left }
    ensures { IfSome result (IsPlayed C.step C.cleared window.new) }
{
    match change {
        Change::Reset(start) => reset(window, left, start),
        Change::ResetUntilLast(start) => reset_until_last(window, left, start),
        Change::Add(doc, score) => add(window, left, doc, score),
        Change::Mark(doc) => mark(window, left, doc),
        Change::DropBelow(doc) => drop_below(window, left, doc),
    }
}

fn reset<C: ScoreCombiner>(window: &mut Window<C>, left: u64, start: DocId) -> Option<u64>
    requires { IsPlayed C.step C.cleared window.old left }
    ensures { IfSome result (IsPlayed C.step C.cleared window.new) }
{
    if start >= TERMINATED {
        return None;
    }
    window.reset(start);
    Some(left)
}

fn reset_until_last<C: ScoreCombiner>(
    window: &mut Window<C>,
    left: u64,
    start: DocId,
) -> Option<u64>
    requires { IsPlayed C.step C.cleared window.old left }
    ensures { IfSome result (IsPlayed C.step C.cleared window.new) }
{
    if start >= TERMINATED {
        return None;
    }
    window.reset_until_last(start);
    Some(left)
}

// Whether a window spans a document.
fn spans<C: ScoreCombiner>(window: &Window<C>, doc: DocId) -> bool
    ensures { result ≡ true → (window_start window.now ≤ doc) × (doc < window_end window.now) }
{
    let end = window.end();
    end - HORIZON <= doc && doc < end
}

fn add<C: ScoreCombiner>(window: &mut Window<C>, left: u64, doc: DocId, score: u64) -> Option<u64>
    requires { IsPlayed C.step C.cleared window.old left }
    ensures { IfSome result (IsPlayed C.step C.cleared window.new) }
{
    if spans(window, doc) && score <= left.min(Score::MAX as u64) {
        window.add(doc, score as Score);
        return Some(left - score);
    }
    None
}

fn mark<C: ScoreCombiner>(window: &mut Window<C>, left: u64, doc: DocId) -> Option<u64>
    requires { IsPlayed C.step C.cleared window.old left }
    ensures { IfSome result (IsPlayed C.step C.cleared window.new) }
{
    if spans(window, doc) && window.keeps_no_states() {
        window.mark(doc);
        return Some(left);
    }
    None
}

fn drop_below<C: ScoreCombiner>(window: &mut Window<C>, left: u64, doc: DocId) -> Option<u64>
    requires { IsPlayed C.step C.cleared window.old left }
    ensures { IfSome result (IsPlayed C.step C.cleared window.new) }
{
    window.drop_below(doc);
    Some(left)
}
