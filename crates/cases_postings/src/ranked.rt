//! Rows on scorers.

ghost use Rattle.std.specs.Prelude.{◌<◌};
ghost use Rattle.qm_docset.specs.Entry.{head_document};
ghost use Rattle.qm_docset.specs.Lists.{IsPlaced};
ghost use Rattle.qm_term.specs.TermScorer.{IsTermScorer, scored_left};

use crate::blocks::ask_scored_blocks;
use crate::cursor::Played;
use crate::explained::write_explanation;
use crate::segment_rows::reading_name;
use cases::{Done, Fault, Listing, Memory, end_refusals};
use qm_combine::Scorer;
use qm_docset::{DocSet, TERMINATED};
use qm_phrase::{PhrasePrefixScorer, PhraseScorer};
use qm_postings::Postings;
use qm_term::{Norms, TermScorer};
use std::alloc::Global;

// The calls of any scorer.
fn ask_scorer<S: Scorer>(
    alloc: Global,
    scorer: &mut S,
    call: &str,
    memory: Memory,
    text: &mut Listing,
) -> Done
    requires { IsPlaced S.DocSet scorer.old }
    ensures { IsPlaced S.DocSet scorer.new }
{
    match call {
        "max_score" => {
            memory.begin(alloc);
            let most = scorer.max_score();
            end_refusals(alloc);
            Ok(write!(text, "{most}"))
        }
        "scores" => Ok(write_scores(scorer, text)),
        "score" => {
            if scorer.doc() >= TERMINATED {
                return Err(Fault::NotAllowed);
            }
            memory.begin(alloc);
            let score = scorer.score();
            end_refusals(alloc);
            Ok(write!(text, "{score}"))
        }
        _ => Err(Fault::NotUnderstood),
    }
}

/// Writes all documents that are left, each with its score.
pub fn write_scores<S: Scorer>(scorer: &mut S, text: &mut Listing)
    requires { IsPlaced S.DocSet scorer.old }
    ensures { IsPlaced S.DocSet scorer.new }
{
    let mut doc = scorer.doc();
    // the scorer stands on this document
    while doc < TERMINATED {
        let score = scorer.score();
        text.score(doc, score);
        doc = scorer.advance();
    }
}

impl<'a, N: Norms> Played for TermScorer<'a, N> {
    fn ask(&mut self, alloc: Global, call: &str, memory: Memory, text: &mut Listing) -> Done {
        match call {
            "reading" => Ok(text.word(reading_name(self.freq_reading_option()))),
            "freq" | "fieldnorm_id" | "explain" => {
                if self.doc() >= TERMINATED {
                    return Err(Fault::NotAllowed);
                }
                ask_term(alloc, self, call, memory, text)
            }
            _ => match call.strip_prefix("copy ") {
                Some(call) => ask_copy(alloc, self, call, memory, text),
                None => match ask_scored_blocks(alloc, self, call, memory, text) {
                    Some(answer) => answer,
                    None => ask_scorer(alloc, self, call, memory, text),
                },
            },
        }
    }
}

// The calls of a copy, which stands where it was made.
fn ask_copy<N: Norms>(
    alloc: Global,
    scorer: &TermScorer<'_, N>,
    call: &str,
    memory: Memory,
    text: &mut Listing,
) -> Done
    requires { IsTermScorer scorer.now }
{
    let mut copy = scorer.clone()?;
    if call == "total" {
        return Ok(write!(text, "{}", copy.count_including_deleted()));
    }
    ask_scorer(alloc, &mut copy, call, memory, text)
}

// The calls of a term scorer that ask for a document.
fn ask_term<N: Norms>(
    alloc: Global,
    scorer: &TermScorer<'_, N>,
    call: &str,
    memory: Memory,
    text: &mut Listing,
) -> Done
    requires valid { IsTermScorer scorer.now }
    requires here { head_document (scored_left scorer.now) < TERMINATED }
{
    match call {
        "freq" => Ok(write!(text, "{}", scorer.term_freq())),
        "fieldnorm_id" => Ok(write!(text, "{}", scorer.fieldnorm_id())),
        _ => {
            memory.begin(alloc);
            let explanation = scorer.explain(alloc);
            end_refusals(alloc);
            Ok(write_explanation(&explanation?, text))
        }
    }
}

impl<'a, P: Postings> Played for PhraseScorer<'a, P> {
    fn ask(&mut self, alloc: Global, call: &str, memory: Memory, text: &mut Listing) -> Done {
        if call == "phrase_count" {
            if self.doc() >= TERMINATED {
                return Err(Fault::NotAllowed);
            }
            return Ok(write!(text, "{}", self.phrase_count()));
        }
        ask_scorer(alloc, self, call, memory, text)
    }
}

impl<'a, P: Postings> Played for PhrasePrefixScorer<'a, P> {
    fn ask(&mut self, alloc: Global, call: &str, memory: Memory, text: &mut Listing) -> Done {
        if call == "phrase_count" {
            if self.doc() >= TERMINATED {
                return Err(Fault::NotAllowed);
            }
            return Ok(write!(text, "{}", self.phrase_count()));
        }
        ask_scorer(alloc, self, call, memory, text)
    }
}
