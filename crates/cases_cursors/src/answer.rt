//! What a call answered.

use cases::{Done, Fault, Listing};
use qm_docset::{DocId, Score, TinySet};

/// What a call answered.
#[derive(Clone, Copy)]
pub enum Answer {
    /// The call answers nothing.
    Nothing,
    Truth(bool),
    Number(u64),
    Score(Score),
    Document(DocId),
    /// An option without a value.
    NoValue,
    Found,
    Below(DocId),
    Members(TinySet),
    /// What the call asks for does not hold.
    NotAllowed,
    NotUnderstood,
}

impl Answer {
    /// What a number is, where there is one.
    pub fn of_number(number: Option<u32>) -> Answer {
        match number {
            Some(number) => Answer::Number(u64::from(number)),
            None => Answer::NoValue,
        }
    }

    /// Writes this answer behind a text; what is none is a fault.
    pub fn write(self, text: &mut Listing) -> Done {
        match self {
            Answer::Nothing => {}
            Answer::Truth(truth) => write!(text, "{truth}"),
            Answer::Number(number) => write!(text, "{number}"),
            Answer::Score(score) => write!(text, "{score}"),
            Answer::Document(doc) => text.document(doc),
            Answer::NoValue => text.word("none"),
            Answer::Found => text.word("found"),
            Answer::Below(doc) => {
                text.word("below ");
                text.document(doc);
            }
            Answer::Members(set) => write_members(set, text),
            Answer::NotAllowed => return Err(Fault::NotAllowed),
            Answer::NotUnderstood => return Err(Fault::NotUnderstood),
        }
        Ok(())
    }
}

// Writes the members of a small set, which are at most 64.
fn write_members(set: TinySet, text: &mut Listing) {
    let mut left = set;
    // those that were written are no longer in the set
    for _ in 0..64 {
        if let Some(member) = left.pop_lowest() {
            text.add(member);
        }
    }
}
