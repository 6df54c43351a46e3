//! Blocks of a window of documents.

ghost use Rattle.std.specs.Prelude.{◌≡◌, ℕ, IfSome, false};
ghost use Rattle.qm_combine.specs.Combiner.{IsCleared};
ghost use Rattle.qm_combine.specs.Window.{IsUntil, window_combiner, window_has};

use crate::answer::Answer;
use crate::gathered::read_maximum;
use crate::window_changes::{Change, change_window, read_change};
use cases::{
    Asker, Block, Done, Fault, Listing, Memory, Report, end_refusals, play_asked, read_document,
    word,
};
use qm_combine::{DoNothingCombiner, ScoreCombiner, SumCombiner, Window};
use qm_docset::{COLLECT_BLOCK_BUFFER_LEN, DocId, Score};
use std::alloc::Global;

/// Plays `window COMBINER`.
pub fn play_window(alloc: Global, block: Block<'_>, report: &mut Report) -> Done {
    match word(block.words, 1) {
        "sum" => play_calls(alloc, SumCombiner::default(), block, report),
        "nothing" => play_calls(alloc, DoNothingCombiner, block, report),
        "max" => {
            let combiner = read_maximum(block.words, 2)?;
            play_calls(alloc, combiner, block, report)
        }
        _ => Err(Fault::NotUnderstood),
    }
}

fn play_calls<C: ScoreCombiner>(
    alloc: Global,
    combiner: C,
    block: Block<'_>,
    report: &mut Report,
) -> Done {
    make(alloc, combiner, block.memory)?;
    let mut asked = AskedWindow {
        combiner,
        changes: Vec::new(alloc),
    };
    play_asked(alloc, &mut asked, block.rows, report)
}

// Makes a window while some requests for memory are refused, and says why there is none.
fn make<C: ScoreCombiner>(alloc: Global, combiner: C, memory: Memory) -> Done {
    memory.begin(alloc);
    let made = Window::new(alloc, combiner);
    end_refusals(alloc);
    match made {
        Ok(_) => Ok(()),
        Err(error) => Err(Fault::Refused(error)),
    }
}

// The combiner of a window, and what changed the window so far: it is made again for each answer.
#[derive(Drop)]
struct AskedWindow<C: ScoreCombiner> {
    combiner: C,
    changes: Vec<Change>,
}

impl<C: ScoreCombiner> Asker for AskedWindow<C> {
    fn ask(&mut self, alloc: Global, call: &str, memory: Memory, text: &mut Listing) -> Done {
        if let Some(change) = read_change(alloc, call)? {
            return Ok(self.changes.push(change)?);
        }
        let window = Window::new(alloc, self.combiner)?;
        memory.begin(alloc);
        let Some(window) = changed(window, &self.changes) else {
            return Err(Fault::NotAllowed);
        };
        if let Some(doc) = call.strip_prefix("fill ") {
            return write_filled(alloc, &window, doc, text);
        }
        let answer = answer(&window, call);
        end_refusals(alloc);
        answer.write(text)
    }
}

// A window that all of these changes were made to, one after another, or none where one is not allowed.
fn changed<C: ScoreCombiner>(window: Window<C>, changes: &[Change]) -> Option<Window<C>>
    requires start { IsCleared C.cleared (window_combiner window) }
    requires none { (d : ℕ) → window_has window d ≡ false }
    requires until { IsUntil window }
    ensures { IfSome result IsUntil }
{
    let mut window = window;
    let mut left = Score::MAX as u64;
    // the scores so far leave room for what is left
    for change in changes {
        let Some(rest) = change_window(&mut window, left, *change) else {
            return None;
        };
        left = rest;
    }
    Some(window)
}

// Writes the documents that `fill` puts into 64 places, and ends the refusals of memory before that.
fn write_filled<C: ScoreCombiner>(
    alloc: Global,
    window: &Window<C>,
    doc: &str,
    text: &mut Listing,
) -> Done
    requires { IsUntil window.now }
{
    let Some(doc) = read_document(doc) else {
        return Err(Fault::NotUnderstood);
    };
    let mut places = [0; COLLECT_BLOCK_BUFFER_LEN];
    let count = window.fill(doc, &mut places);
    end_refusals(alloc);
    Ok(text.documents(&places[..count]))
}

fn answer<C: ScoreCombiner>(window: &Window<C>, call: &str) -> Answer
    requires { IsUntil window.now }
{
    match call {
        "end" => Answer::Document(window.end()),
        "last" => Answer::Document(window.last()),
        "keeps_no_states" => Answer::Truth(window.keeps_no_states()),
        _ => answer_of_document(window, call),
    }
}

fn answer_of_document<C: ScoreCombiner>(window: &Window<C>, call: &str) -> Answer
    requires { IsUntil window.now }
{
    let Some((name, rest)) = call.split_once(' ') else {
        return Answer::NotUnderstood;
    };
    let Some(doc) = read_document(rest) else {
        return Answer::NotUnderstood;
    };
    match name {
        "next" => document_or_none(window.next(doc)),
        "next_until_last" => document_or_none(window.next_until_last(doc)),
        "len_from" => Answer::Number(u64::from(window.len_from(doc))),
        "next_span" => Answer::Number(u64::from(window.next_span(doc))),
        "score" => score_of(window, doc),
        _ => Answer::NotUnderstood,
    }
}

// The score of a document, where the window has it.
fn score_of<C: ScoreCombiner>(window: &Window<C>, doc: DocId) -> Answer {
    match window.next(doc) {
        Some(first) if first == doc => Answer::Score(window.score(first)),
        _ => Answer::NotAllowed,
    }
}

fn document_or_none(doc: Option<DocId>) -> Answer {
    match doc {
        Some(doc) => Answer::Document(doc),
        None => Answer::NoValue,
    }
}
