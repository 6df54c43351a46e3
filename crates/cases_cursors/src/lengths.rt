//! Blocks of a cursor that knows the length of its list.

ghost use Rattle.qm_docset.specs.VecDocSet.{IsVecCursor};

use crate::answer::Answer;
use crate::cursors::read_ascending;
use cases::{
    Asker, Block, Done, Listing, Memory, Report, behind, end_refusals, play_asked, read_document,
};
use qm_docset::{DocSet, HasLen, TERMINATED, VecDocSet};
use std::alloc::Global;

/// Plays `length DOC..`.
pub fn play_lengths(alloc: Global, block: Block<'_>, report: &mut Report) -> Done {
    let docs = read_ascending(alloc, behind(block.words, 1))?;
    let mut asked = AskedLength {
        docset: VecDocSet::new(docs),
    };
    play_asked(alloc, &mut asked, block.rows, report)
}

#[derive(Drop)]
struct AskedLength {
    docset: VecDocSet,
    ghost cursor: { IsVecCursor docset },
}

impl Asker for AskedLength {
    fn ask(&mut self, alloc: Global, call: &str, memory: Memory, text: &mut Listing) -> Done {
        memory.begin(alloc);
        let answer = self.answer(call);
        end_refusals(alloc);
        answer.write(text)
    }
}

impl AskedLength {
    fn answer(&mut self, call: &str) -> Answer {
        match call {
            "len" => Answer::Number(self.docset.len() as u64),
            "is_empty" => Answer::Truth(self.docset.is_empty()),
            _ => match call.strip_prefix("seek ").and_then(read_document) {
                Some(target) if target <= TERMINATED => Answer::Document(self.docset.seek(target)),
                _ => Answer::NotUnderstood,
            },
        }
    }
}
