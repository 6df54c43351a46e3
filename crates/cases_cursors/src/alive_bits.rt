//! Blocks of a set of alive documents.

ghost use Rattle.std.specs.Prelude.{◌≡◌};
ghost use Rattle.qm_docset.specs.AliveBitSet.{alive_docs};
ghost use Rattle.qm_docset.specs.BitSet.{set_max_value};

use crate::answer::Answer;
use crate::bit_set::read_bit_set;
use cases::{Asker, Block, Done, Listing, Memory, Report, behind, end_refusals, play_asked};
use qm_docset::{AliveBitSet, DocId};
use std::alloc::Global;

/// Plays `alivebits MAX DOC..`.
pub fn play_alive_bits(alloc: Global, block: Block<'_>, report: &mut Report) -> Done {
    let set = read_bit_set(alloc, behind(block.words, 1), block.memory)?;
    let max_value = set.max_value();
    let mut asked = AskedAliveBits {
        alive: AliveBitSet::from(set),
        max_value,
    };
    play_asked(alloc, &mut asked, block.rows, report)
}

#[derive(Drop)]
struct AskedAliveBits {
    alive: AliveBitSet,
    // no document from this one on is in the set
    max_value: DocId,
    ghost bounded: { max_value ≡ set_max_value (alive_docs alive) },
}

impl Asker for AskedAliveBits {
    fn ask(&mut self, alloc: Global, call: &str, memory: Memory, text: &mut Listing) -> Done {
        memory.begin(alloc);
        let answer = self.answer(call);
        end_refusals(alloc);
        answer.write(text)
    }
}

impl AskedAliveBits {
    fn answer(&mut self, call: &str) -> Answer {
        if call == "num_alive_docs" {
            return Answer::Number(self.alive.num_alive_docs() as u64);
        }
        let Some((name, rest)) = call.split_once(' ') else {
            return Answer::NotUnderstood;
        };
        let Ok(doc) = rest.parse::<DocId>() else {
            return Answer::NotUnderstood;
        };
        match name {
            "is_alive" => Answer::Truth(self.alive.is_alive(doc)),
            "remove" => self.remove(doc),
            _ => Answer::NotUnderstood,
        }
    }

    fn remove(&mut self, doc: DocId) -> Answer {
        if doc >= self.max_value {
            return Answer::NotAllowed;
        }
        self.alive.remove(doc);
        Answer::Nothing
    }
}
