//! Blocks of a set of small numbers.

use crate::answer::Answer;
use cases::{Asker, Block, Done, Listing, Memory, Report, end_refusals, play_asked};
use qm_docset::TinySet;
use std::alloc::Global;

/// Plays `tinyset`.
pub fn play_tiny_set(alloc: Global, block: Block<'_>, report: &mut Report) -> Done {
    let mut asked = AskedTinySet {
        set: TinySet::empty(),
    };
    play_asked(alloc, &mut asked, block.rows, report)
}

#[derive(Drop)]
struct AskedTinySet {
    set: TinySet,
}

impl Asker for AskedTinySet {
    fn ask(&mut self, alloc: Global, call: &str, memory: Memory, text: &mut Listing) -> Done {
        memory.begin(alloc);
        let answer = self.answer(call);
        end_refusals(alloc);
        answer.write(text)
    }
}

impl AskedTinySet {
    // makes a call that takes a word or none
    fn answer(&mut self, call: &str) -> Answer {
        match call {
            "pop_lowest" => Answer::of_number(self.set.pop_lowest()),
            "members" => Answer::Members(self.set),
            "len" => Answer::Number(u64::from(self.set.len())),
            "is_empty" => Answer::Truth(self.set.is_empty()),
            "clear" => {
                self.set.clear();
                Answer::Nothing
            }
            _ => self.answer_of_number(call),
        }
    }

    // makes a call that takes a number
    fn answer_of_number(&mut self, call: &str) -> Answer {
        let Some((name, rest)) = call.split_once(' ') else {
            return Answer::NotUnderstood;
        };
        if name == "intersect" {
            return self.intersect(rest);
        }
        let Ok(number) = rest.parse::<u32>() else {
            return Answer::NotUnderstood;
        };
        if name == "range_greater_or_equal" {
            self.set = TinySet::range_greater_or_equal(number);
            return Answer::Nothing;
        }
        if number >= 64 {
            return Answer::NotAllowed;
        }
        match name {
            "insert" => {
                self.set = self.set.insert(number);
                Answer::Nothing
            }
            "insert_mut" => Answer::Truth(self.set.insert_mut(number)),
            "remove" => {
                self.set = self.set.remove(number);
                Answer::Nothing
            }
            "contains" => Answer::Truth(self.set.contains(number)),
            _ => Answer::NotUnderstood,
        }
    }

    // keeps what stands in another set too
    fn intersect(&mut self, other: &str) -> Answer {
        match read_tiny_set(other) {
            Some(other) => {
                self.set = self.set.intersect(other);
                Answer::Nothing
            }
            None => Answer::NotUnderstood,
        }
    }
}

// The set that words spell: `range_greater_or_equal N`, or its members.
fn read_tiny_set(words: &str) -> Option<TinySet> {
    if let Some(from) = words.strip_prefix("range_greater_or_equal ") {
        return Some(TinySet::range_greater_or_equal(from.parse().ok()?));
    }
    let mut set = TinySet::empty();
    // it has the members that were read
    for word in words.split_whitespace() {
        let member = word.parse::<u32>().ok()?;
        if member >= 64 {
            return None;
        }
        set = set.insert(member);
    }
    Some(set)
}
