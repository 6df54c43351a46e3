//! Blocks of members that stand in a row.

ghost use Rattle.std.specs.Prelude.{All};
ghost use Rattle.qm_docset.specs.Lists.{ArePlaced};

use crate::answer::Answer;
use crate::constants::read_constants;
use cases::{
    Asker, Block, Done, Fault, Leaf, Listing, Memory, Moves, Report, behind, end_refusals,
    play_asked, read_document, read_leaves, word,
};
use qm_combine::{Scorer, by_cost, least_document, seek_below, seek_each, sum_of_bounds};
use qm_docset::{DocId, DocSet, SeekDangerResult, TERMINATED};
use qm_schema::QueryError;
use std::alloc::Global;

/// Plays `members MEMBERS`: each row is on the members made anew, and their moves are counted over all
/// rows.
pub fn play_members(alloc: Global, block: Block<'_>, report: &mut Report) -> Done {
    let mut asked = AskedMembers {
        words: behind(block.words, 1),
        moves: Moves::new(),
    };
    play_asked(alloc, &mut asked, block.rows, report)
}

#[derive(Drop)]
struct AskedMembers<'a, 'b> {
    words: &'a [&'b str],
    moves: Moves,
}

impl<'a, 'b> Asker for AskedMembers<'a, 'b> {
    fn ask(&mut self, alloc: Global, call: &str, memory: Memory, text: &mut Listing) -> Done {
        match call {
            "moves" => Answer::Number(self.moves.total()).write(text),
            "moves of first" => Answer::Number(self.moves.first.get()).write(text),
            "moves of others" => Answer::Number(self.moves.others.get()).write(text),
            "sum_of_bounds" => ask_sum(alloc, self.words, &self.moves, memory, text),
            "by_cost" => {
                let leaves = read_leaves(alloc, self.words, &self.moves)?;
                ask_by_cost(alloc, leaves, memory, text)
            }
            _ => {
                let mut leaves = read_leaves(alloc, self.words, &self.moves)?;
                memory.begin(alloc);
                let answer = ask_leaves(&mut leaves, call);
                end_refusals(alloc);
                answer.write(text)
            }
        }
    }
}

fn ask_sum(
    alloc: Global,
    words: &[&str],
    moves: &Moves,
    memory: Memory,
    text: &mut Listing,
) -> Done {
    if word(words, 0) == "const" {
        let members = read_constants(alloc, words)?;
        memory.begin(alloc);
        let answer = sum(&members);
        end_refusals(alloc);
        answer.write(text)
    } else {
        let members = read_leaves(alloc, words, moves)?;
        memory.begin(alloc);
        let answer = sum(&members);
        end_refusals(alloc);
        answer.write(text)
    }
}

fn sum<S: Scorer>(members: &[S]) -> Answer
    requires { All S.valid members.now }
{
    match sum_of_bounds(members) {
        Some(score) => Answer::Score(score),
        None => Answer::NoValue,
    }
}

// Writes the costs of the members in the order of their costs.
fn ask_by_cost<D: DocSet>(
    alloc: Global,
    members: Vec<D>,
    memory: Memory,
    text: &mut Listing,
) -> Done
    requires { All D.valid members.items }
{
    memory.begin(alloc);
    let ranked = by_cost(alloc, members);
    end_refusals(alloc);
    match ranked {
        Ok(ranked) => Ok(write_costs(&ranked, text)),
        Err(_) => Err(Fault::Refused(QueryError::Memory)),
    }
}

fn write_costs<D: DocSet>(members: &[D], text: &mut Listing)
    requires { All D.valid members.now }
{
    // the costs of those before are written
    for member in members {
        text.add(member.cost());
    }
}

// Makes a call on members that are placed.
fn ask_leaves<'a>(leaves: &mut [Leaf<'a>], call: &str) -> Answer
    requires { ArePlaced ⟦<Leaf<'a> as DocSet>⟧ leaves.old }
{
    if call == "least_document" {
        return Answer::Document(least_document(leaves));
    }
    let Some((name, target)) = call.split_once(' ') else {
        return Answer::NotUnderstood;
    };
    let Some(target) = read_document(target) else {
        return Answer::NotUnderstood;
    };
    if target > TERMINATED {
        return Answer::NotAllowed;
    }
    match name {
        "seek_below" => Answer::Document(seek_below(leaves, target)),
        "seek_each" => ask_each(leaves, target),
        _ => Answer::NotUnderstood,
    }
}

fn ask_each<'a>(leaves: &mut [Leaf<'a>], target: DocId) -> Answer
    requires { ArePlaced ⟦<Leaf<'a> as DocSet>⟧ leaves.old }
{
    if target >= TERMINATED {
        return Answer::NotAllowed;
    }
    match seek_each(leaves, target) {
        SeekDangerResult::Found => Answer::Found,
        SeekDangerResult::SeekLowerBound(bound) => Answer::Below(bound),
    }
}
