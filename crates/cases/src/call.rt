//! Calls on a scorer.

use crate::words::read_document;
use qm_docset::DocId;

/// A call on a scorer, by its word.
#[derive(Clone, Copy, PartialEq, Eq)]
pub enum Call {
    Doc,
    Advance,
    Seek(DocId),
    SeekDanger(DocId),
    /// a `seek_danger` of which it is known on which document it leaves the scorer at most
    SeekWithin(DocId, DocId),
    Fill,
    FillBelow(DocId),
    Count,
    Total,
    Score,
    /// all that is left, each document with its score
    Scores,
    MaxScore,
    Hint,
    Cost,
    Moves,
    MovesOfFirst,
    MovesOfOthers,
    /// whether all moves together are at most so many
    MovesWithin(u64),
    /// all requests for memory are refused from here on
    TakesNoMemory,
    /// Words that name no call.
    NotUnderstood,
}

/// The call that words name.
pub fn read_call(text: &str) -> Call {
    match text {
        "doc" => Call::Doc,
        "advance" => Call::Advance,
        "fill" => Call::Fill,
        "count" => Call::Count,
        "total" => Call::Total,
        "score" => Call::Score,
        "scores" => Call::Scores,
        "max_score" => Call::MaxScore,
        "hint" => Call::Hint,
        "cost" => Call::Cost,
        "moves" => Call::Moves,
        "moves of first" => Call::MovesOfFirst,
        "moves of others" => Call::MovesOfOthers,
        "takes no memory" => Call::TakesNoMemory,
        _ => match text.strip_prefix("moves within ") {
            Some(most) => read_moves_within(most),
            None => read_seek(text),
        },
    }
}

fn read_moves_within(most: &str) -> Call {
    match most.parse::<u64>() {
        Ok(most) => Call::MovesWithin(most),
        Err(_) => Call::NotUnderstood,
    }
}

fn read_seek(text: &str) -> Call {
    let Some((name, target)) = text.split_once(' ') else {
        return Call::NotUnderstood;
    };
    match read_document(target) {
        Some(target) if name == "seek" => Call::Seek(target),
        Some(target) if name == "seek_danger" => Call::SeekDanger(target),
        Some(bound) if name == "fill_below" => Call::FillBelow(bound),
        None if name == "seek_danger" => read_within(target),
        _ => Call::NotUnderstood,
    }
}

// The call `seek_danger` of these words, `TARGET within DOC`.
fn read_within(words: &str) -> Call {
    let Some((target, rest)) = words.split_once(' ') else {
        return Call::NotUnderstood;
    };
    let Some((name, most)) = rest.split_once(' ') else {
        return Call::NotUnderstood;
    };
    match (read_document(target), read_document(most)) {
        (Some(target), Some(most)) if name == "within" => Call::SeekWithin(target, most),
        _ => Call::NotUnderstood,
    }
}
