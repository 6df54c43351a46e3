//! What a call answered.

use crate::fault::{Done, Fault};
use crate::listing::Listing;
use qm_docset::{COLLECT_BLOCK_BUFFER_LEN, DocId, Score};

/// What a call on a cursor answered.
#[derive(Clone, Copy, PartialEq, Eq)]
pub enum Answer {
    Document(DocId),
    Found,
    Below(DocId),
    /// it is not found, and the bound that was answered is one of those that are allowed
    Allowed,
    /// So many documents stand in the buffer.
    Filled(usize),
    Number(u64),
    Score(Score),
    /// The answer was written already.
    Written,
    /// What the call asks for does not hold.
    NotAllowed,
    NotUnderstood,
}

impl Answer {
    /// Puts this answer into the text, behind what stands there; what is none is a fault.
    pub fn write(self, buffer: &[DocId; COLLECT_BLOCK_BUFFER_LEN], text: &mut Listing) -> Done {
        match self {
            Answer::Document(doc) => text.document(doc),
            Answer::Found => text.word("found"),
            Answer::Below(doc) => {
                text.word("below ");
                text.document(doc);
            }
            Answer::Allowed => text.word("allowed"),
            Answer::Filled(count) => text.documents(&buffer[..count.min(buffer.len())]),
            Answer::Number(number) => write!(text, "{number}"),
            Answer::Score(score) => write!(text, "{score}"),
            Answer::Written => {}
            Answer::NotAllowed => return Err(Fault::NotAllowed),
            Answer::NotUnderstood => return Err(Fault::NotUnderstood),
        }
        Ok(())
    }
}
