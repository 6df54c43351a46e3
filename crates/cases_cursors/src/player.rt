//! Blocks, by their first word.

use crate::alive_bits::play_alive_bits;
use crate::anew::play_anew;
use crate::bit_set::{play_bit_set, read_bit_set};
use crate::combiners::play_combiner;
use crate::cursors::{
    play_all, play_bits, play_boxed, play_empty, play_leaf, play_steps, play_vec,
};
use crate::document_list::play_documents;
use crate::exclusion::play_exclusion;
use crate::gathered::{play_at_least, play_intersection, play_union};
use crate::lengths::play_lengths;
use crate::member_calls::play_members;
use crate::tiny_set::play_tiny_set;
use crate::window::play_window;
use crate::wrapped::{play_boost, play_boxed_scorer, play_const, play_exclude, play_optional};
use cases::{Block, Done, Fault, Memory, Player, Report, behind, word, words_of};
use qm_docset::{AliveBitSet, BitSet};
use std::alloc::{AllocError, Global};

/// What blocks stand on.
#[derive(Drop)]
pub struct CursorPlayer {
    /// the documents that `count` counts
    alive: AliveBitSet,
}

impl CursorPlayer {
    /// A player with no alive document.
    pub fn new(alloc: Global) -> Result<CursorPlayer, AllocError> {
        let none = BitSet::with_max_value(alloc, 0)?;
        Ok(CursorPlayer {
            alive: AliveBitSet::from(none),
        })
    }

    // takes what stands below `given`
    fn take_given(&mut self, alloc: Global, block: Block<'_>, report: &mut Report) -> Done {
        // what the rows before this one give is taken
        for row in block.rows {
            let words = words_of(alloc, row.call)?;
            if word(&words, 0) != "alive" || row.is_refused {
                return Err(Fault::NotUnderstood);
            }
            let set = read_bit_set(alloc, behind(&words, 1), Memory::Ample)?;
            self.alive = AliveBitSet::from(set);
            report.compare(row.line, row.wanted, "");
        }
        Ok(())
    }
}

impl Player for CursorPlayer {
    fn play(&mut self, alloc: Global, block: Block<'_>, report: &mut Report) -> Done {
        let name = word(block.words, 0);
        if block.memory == Memory::None && !is_made_by_a_call(name) {
            return Err(Fault::NotUnderstood);
        }
        match name {
            "given" => self.take_given(alloc, block, report),
            "tinyset" => play_tiny_set(alloc, block, report),
            "bitset" => play_bit_set(alloc, block, report),
            "alivebits" => play_alive_bits(alloc, block, report),
            "documents" => play_documents(alloc, block, report),
            "length" => play_lengths(alloc, block, report),
            "exclusion" => play_exclusion(alloc, block, report),
            "combiner" => play_combiner(alloc, block, report),
            "window" => play_window(alloc, block, report),
            "members" => play_members(alloc, block, report),
            "from" => play_anew(alloc, block, report),
            _ => play_scorer(alloc, &self.alive, block, report),
        }
    }
}

// Whether one call of the library makes the thing of a block, so that memory can be refused to it.
fn is_made_by_a_call(name: &str) -> bool {
    match name {
        "vec"
        | "bits"
        | "bitset"
        | "alivebits"
        | "all"
        | "const"
        | "boost"
        | "exclude"
        | "optional" => { true }
        "intersection" | "union" | "atleast" | "unforetold" | "enough" => true,
        _ => false,
    }
}

// Plays a block whose rows are calls on a scorer.
fn play_scorer(alloc: Global, alive: &AliveBitSet, block: Block<'_>, report: &mut Report) -> Done {
    match word(block.words, 0) {
        "vec" => play_vec(alloc, alive, block, report),
        "boxed" => play_boxed(alloc, alive, block, report),
        "steps" => play_steps(alloc, alive, block, report),
        "bits" => play_bits(alloc, alive, block, report),
        "all" => play_all(alloc, alive, block, report),
        "empty" => play_empty(alloc, alive, block, report),
        "const" => play_const(alloc, alive, block, report),
        "boost" => play_boost(alloc, alive, block, report),
        "boxedscorer" => play_boxed_scorer(alloc, alive, block, report),
        "exclude" => play_exclude(alloc, alive, block, report),
        "optional" => play_optional(alloc, alive, block, report),
        "intersection" => play_intersection(alloc, alive, block, report),
        "union" => play_union(alloc, alive, block, report),
        "atleast" | "unforetold" | "enough" => play_at_least(alloc, alive, block, report),
        _ => play_leaf(alloc, alive, block, report),
    }
}
