//! Blocks of a set of numbers below a bound.

use crate::answer::Answer;
use cases::{
    Asker, Block, Done, Fault, Listing, Memory, Report, behind, end_refusals, number, play_asked,
    read_documents,
};
use qm_docset::BitSet;
use qm_schema::QueryError;
use std::alloc::Global;

/// The bit set that words spell, `MAX DOC..`, made while some requests for memory are refused.
pub fn read_bit_set(alloc: Global, words: &[&str], memory: Memory) -> Result<BitSet, Fault> {
    let Some(max_value) = number(words, 0) else {
        return Err(Fault::NotUnderstood);
    };
    let members = read_documents(alloc, behind(words, 1))?;
    memory.begin(alloc);
    let made = BitSet::with_max_value(alloc, max_value);
    end_refusals(alloc);
    let Ok(mut set) = made else {
        return Err(Fault::Refused(QueryError::Memory));
    };
    // the set has the members before this one
    for member in &members {
        if *member >= set.max_value() {
            return Err(Fault::NotAllowed);
        }
        set.insert(*member);
    }
    Ok(set)
}

/// Plays `bitset MAX DOC..`.
pub fn play_bit_set(alloc: Global, block: Block<'_>, report: &mut Report) -> Done {
    let set = read_bit_set(alloc, behind(block.words, 1), block.memory)?;
    let mut asked = AskedBitSet { set };
    play_asked(alloc, &mut asked, block.rows, report)
}

#[derive(Drop)]
struct AskedBitSet {
    set: BitSet,
}

impl Asker for AskedBitSet {
    fn ask(&mut self, alloc: Global, call: &str, memory: Memory, text: &mut Listing) -> Done {
        memory.begin(alloc);
        let answer = self.answer(call);
        end_refusals(alloc);
        answer.write(text)
    }
}

impl AskedBitSet {
    fn answer(&mut self, call: &str) -> Answer {
        match call {
            "len" => Answer::Number(self.set.len() as u64),
            "max_value" => Answer::Number(u64::from(self.set.max_value())),
            _ => self.answer_of_number(call),
        }
    }

    fn answer_of_number(&mut self, call: &str) -> Answer {
        let Some((name, rest)) = call.split_once(' ') else {
            return Answer::NotUnderstood;
        };
        let Ok(number) = rest.parse::<u32>() else {
            return Answer::NotUnderstood;
        };
        match name {
            "insert" | "remove" => self.change(name, number),
            "contains" => Answer::Truth(self.set.contains(number)),
            "tinyset" => Answer::Members(self.set.tinyset(number)),
            "first_non_empty_bucket" => {
                Answer::of_number(self.set.first_non_empty_bucket(number))
            }
            _ => Answer::NotUnderstood,
        }
    }

    // puts a number in, or takes it out
    fn change(&mut self, name: &str, number: u32) -> Answer {
        if number >= self.set.max_value() {
            return Answer::NotAllowed;
        }
        if name == "insert" {
            self.set.insert(number);
        } else {
            self.set.remove(number);
        }
        Answer::Nothing
    }
}
