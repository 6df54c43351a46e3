//! What the calls of a pruned run answer.

use crate::fault::Fault;
use crate::listing::Listing;
use crate::words::{behind, word, words_of};
use qm_docset::{DocId, Score};
use std::alloc::Global;

/// What a call answers.
#[derive(Clone, Copy)]
pub enum Reply {
    ItsScore,
    Number(Score),
}

/// What the calls of a pruned run have said so far, and what those to come answer.
#[derive(Drop)]
pub struct Pruning<'a> {
    pub text: &'a mut Listing,
    /// these in turn, and the last one again and again
    pub replies: &'a [Reply],
    pub last: Reply,
    /// whether the documents are written with their scores
    pub has_scores: bool,
}

impl<'a> Pruning<'a> {
    /// A call for a document.
    pub fn call(&mut self, doc: DocId, score: Score) -> Score {
        if self.has_scores {
            self.text.score(doc, score);
        } else {
            self.text.next(doc);
        }
        if let Some((first, rest)) = self.replies.split_first() {
            self.last = *first;
            self.replies = rest;
        }
        match self.last {
            Reply::ItsScore => score,
            Reply::Number(answer) => answer,
        }
    }
}

/// The threshold of `CALL T ..`.
pub fn threshold_of(alloc: Global, call: &str) -> Result<Score, Fault> {
    let words = words_of(alloc, call)?;
    read_threshold(word(&words, 1))
}

/// The answers of `CALL T answers A..`; none where they are not given.
pub fn replies_of(alloc: Global, call: &str) -> Result<Vec<Reply>, Fault> {
    let words = words_of(alloc, call)?;
    match word(&words, 2) {
        "" | "answers" => read_replies(alloc, behind(&words, 3)),
        _ => Err(Fault::NotUnderstood),
    }
}

fn read_replies(alloc: Global, words: &[&str]) -> Result<Vec<Reply>, Fault> {
    let mut replies = Vec::new(alloc);
    // the answers that the words before this one spell are there
    for word in words {
        replies.push(read_reply(word)?)?;
    }
    Ok(replies)
}

fn read_reply(word: &str) -> Result<Reply, Fault> {
    match word {
        "score" => Ok(Reply::ItsScore),
        "least" => Ok(Reply::Number(Score::MIN)),
        "greatest" => Ok(Reply::Number(Score::MAX)),
        _ => match word.parse() {
            Ok(answer) => Ok(Reply::Number(answer)),
            Err(_) => Err(Fault::NotUnderstood),
        },
    }
}

// The threshold that a word spells.
fn read_threshold(word: &str) -> Result<Score, Fault> {
    match word {
        "least" => Ok(Score::MIN),
        "greatest" => Ok(Score::MAX),
        _ => match word.parse() {
            Ok(threshold) => Ok(threshold),
            Err(_) => Err(Fault::NotUnderstood),
        },
    }
}
