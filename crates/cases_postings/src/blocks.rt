//! Rows on the blocks of postings, and on the run over a term by its blocks.

ghost use Rattle.std.specs.Prelude.{◌≤◌, IfOk};
ghost use Rattle.qm_postings.specs.SegmentPostings.{IsPostings};
ghost use Rattle.qm_term.specs.TermScorer.{IsTermScorer};

use crate::spelled::{cut, read_number};
use cases::{
    Done, Fault, Listing, Memory, Pruning, Reply, end_refusals, read_document, replies_of,
    threshold_of, words_of,
};
use qm_docset::{DocId, TERMINATED};
use qm_postings::SegmentPostings;
use qm_term::{Norms, TermScorer, WandCount, block_wand_single_scorer};
use std::alloc::Global;

/// How many bytes of what the calls of a run say have room before it.
pub const ROOM: usize = 1 << 20;

/// The target of `seek_block T`.
pub fn target_of(target: &str) -> Result<DocId, Fault>
    ensures { IfOk result (λ target. target ≤ TERMINATED) }
{
    match read_document(target) {
        Some(target) if target <= TERMINATED => Ok(target),
        Some(_) => Err(Fault::NotAllowed),
        None => Err(Fault::NotUnderstood),
    }
}

/// Makes a call of the blocks of postings, and writes what it answered; `None` where it is none.
pub fn ask_blocks(
    alloc: Global,
    postings: &mut SegmentPostings<'_>,
    call: &str,
    memory: Memory,
    text: &mut Listing,
) -> Option<Done>
    requires { IsPostings postings.old }
    ensures { IsPostings postings.new }
{
    let (name, target) = cut(call);
    if name == "seek_block" {
        return Some(seek_block(alloc, postings, target, memory));
    }
    memory.begin(alloc);
    let end = postings.last_doc_in_block();
    let id = postings.block_least_fieldnorm_id();
    let most = postings.block_max_term_freq();
    end_refusals(alloc);
    match name {
        "last_doc_in_block" => Some(Ok(text.document(end))),
        "block_least_fieldnorm_id" => Some(Ok(text.add(id))),
        "block_max_term_freq" => Some(Ok(text.add(most))),
        _ => None,
    }
}

fn seek_block(
    alloc: Global,
    postings: &mut SegmentPostings<'_>,
    target: &str,
    memory: Memory,
) -> Done
    requires { IsPostings postings.old }
    ensures { IsPostings postings.new }
{
    let target = target_of(target)?;
    memory.begin(alloc);
    Ok(postings.seek_block(target))
}

/// Makes a call of the blocks of a term's scorer, or the run over it, and writes what it answered; `None`
/// where it is none.
pub fn ask_scored_blocks<N: Norms>(
    alloc: Global,
    scorer: &mut TermScorer<'_, N>,
    call: &str,
    memory: Memory,
    text: &mut Listing,
) -> Option<Done>
    requires { IsTermScorer scorer.old }
    ensures { IsTermScorer scorer.new }
{
    let (name, target) = cut(call);
    match name {
        "seek_block" => Some(seek_scored_block(alloc, scorer, target, memory)),
        "last_doc_in_block" => Some(Ok(text.document(scorer.last_doc_in_block()))),
        "block_max_score" => Some(Ok(text.add(scorer.block_max_score()))),
        "single" => Some(write_calls(alloc, scorer, call, memory, text)),
        "bounded" => Some(write_bounded(alloc, scorer, target, memory, text)),
        "counted" => Some(write_counted(alloc, scorer, call, memory, text)),
        _ => None,
    }
}

fn seek_scored_block<N: Norms>(
    alloc: Global,
    scorer: &mut TermScorer<'_, N>,
    target: &str,
    memory: Memory,
) -> Done
    requires { IsTermScorer scorer.old }
    ensures { IsTermScorer scorer.new }
{
    let target = target_of(target)?;
    memory.begin(alloc);
    Ok(scorer.seek_block(target))
}

// The run over what a copy of the scorer has left, by `CALL T` or `CALL T answers A..`: what it counted. Its
// calls are written behind the text.
fn run_single<N: Norms>(
    alloc: Global,
    scorer: &TermScorer<'_, N>,
    call: &str,
    memory: Memory,
    text: &mut Listing,
) -> Result<WandCount, Fault>
    requires { IsTermScorer scorer.now }
{
    let threshold = threshold_of(alloc, call)?;
    let replies = replies_of(alloc, call)?;
    let copy = scorer.clone()?;
    let mut pruning = Pruning {
        text,
        replies: replies.as_slice(),
        last: Reply::ItsScore,
        has_scores: true,
    };
    memory.begin(alloc);
    let count = block_wand_single_scorer(
        copy,
        threshold,
        &mut |doc, score| pruning.call(doc, score),
    );
    end_refusals(alloc);
    Ok(count)
}

// The calls of that run.
fn write_calls<N: Norms>(
    alloc: Global,
    scorer: &TermScorer<'_, N>,
    call: &str,
    memory: Memory,
    text: &mut Listing,
) -> Done
    requires { IsTermScorer scorer.now }
{
    run_single(alloc, scorer, call, memory, text)?;
    Ok(())
}

// Whether the run of `TICKS TURNS T ..` scores at most so many documents, and at least one for each call, in at
// most so many turns.
fn write_bounded<N: Norms>(
    alloc: Global,
    scorer: &TermScorer<'_, N>,
    bounds: &str,
    memory: Memory,
    text: &mut Listing,
) -> Done
    requires { IsTermScorer scorer.now }
{
    let (ticks, run) = cut(bounds);
    let (turns, _) = cut(run);
    let (ticks, turns) = (read_number(ticks)?, read_number(turns)?);
    let mut calls = Listing::new(alloc);
    // the run takes no memory for what its calls say
    calls.reserve(ROOM);
    let count = run_single(alloc, scorer, run, memory, &mut calls)?;
    let called = words_of(alloc, calls.into_string()?.as_str())?.len() as u128;
    let is_bounded = called <= count.ticks
        && count.ticks <= u128::from(ticks)
        && count.turns <= u128::from(turns);
    Ok(write!(text, "{is_bounded}"))
}

// How many documents that run scores, and how many turns it takes.
fn write_counted<N: Norms>(
    alloc: Global,
    scorer: &TermScorer<'_, N>,
    call: &str,
    memory: Memory,
    text: &mut Listing,
) -> Done
    requires { IsTermScorer scorer.now }
{
    let mut calls = Listing::new(alloc);
    let count = run_single(alloc, scorer, call, memory, &mut calls)?;
    let (ticks, turns) = (count.ticks, count.turns);
    Ok(write!(text, "{ticks} {turns}"))
}
