//! Blocks of postings of the cases' own, and of unions of them.

ghost use Rattle.std.specs.Prelude.{IfOk};
ghost use Rattle.qm_docset.specs.Lists.{IsPlaced};

use crate::bench::Bench;
use crate::blocks::ask_blocks;
use crate::cursor::Played;
use crate::making::play_owned;
use crate::member::{read_member, read_members};
use crate::offered::ask_postings;
use crate::own_postings::OwnPostings;
use crate::segment_rows::{postings_of, reading_name};
use crate::spelled::{read_field, read_number, read_numbers, read_option, read_term};
use cases::{Block, Done, Fault, Listing, Memory, Report, behind, word};
use qm_docset::{BitSet, BitSetDocSet, DocSet, TERMINATED};
use qm_phrase::{BitSetPostingUnion, PostingsWithOffset, SimpleUnion};
use qm_postings::{Postings, SegmentPostings, TermDocuments};
use std::alloc::Global;

/// Plays a block of postings: `postings FIELD WORD OPTION`, `shifted FIELD WORD OPTION OFFSET`, `holders FIELD WORD`,
/// `own MEMBER`, `union MEMBER ..` or `bitsetunion MAX DOCUMENTS MEMBER ..`.
pub fn play_postings(alloc: Global, bench: &Bench, block: Block<'_>, report: &mut Report) -> Done {
    match word(block.words, 0) {
        "postings" | "shifted" => play_of_segment(alloc, bench, block, report),
        "holders" => play_holders(alloc, bench, block, report),
        "own" => {
            let postings = read_member(alloc, word(block.words, 1))?;
            play_owned(alloc, &bench.alive, postings, block.rows, report)
        }
        "union" => play_union(alloc, bench, block, report),
        _ => play_bitset_union(alloc, bench, block, report),
    }
}

fn play_of_segment(alloc: Global, bench: &Bench, block: Block<'_>, report: &mut Report) -> Done {
    let field = read_field(&bench.schema, word(block.words, 1))?;
    let term = read_term(alloc, field, word(block.words, 2))?;
    let option = read_option(word(block.words, 3))?;
    block.memory.begin(alloc);
    let Some(postings) = postings_of(&bench.segment, &term, option) else {
        return Err(Fault::NotAllowed);
    };
    if word(block.words, 0) == "postings" {
        return play_owned(alloc, &bench.alive, postings, block.rows, report);
    }
    let offset = read_number(word(block.words, 4))?;
    let shifted = PostingsWithOffset::new(postings, offset);
    play_owned(alloc, &bench.alive, shifted, block.rows, report)
}

fn play_holders(alloc: Global, bench: &Bench, block: Block<'_>, report: &mut Report) -> Done {
    let field = read_field(&bench.schema, word(block.words, 1))?;
    let term = read_term(alloc, field, word(block.words, 2))?;
    block.memory.begin(alloc);
    match bench.segment.inverted_index(field).read_documents(&term) {
        Some(documents) => play_owned(alloc, &bench.alive, documents, block.rows, report),
        None => Err(Fault::NotAllowed),
    }
}

fn play_union(alloc: Global, bench: &Bench, block: Block<'_>, report: &mut Report) -> Done {
    let members = read_members(alloc, behind(block.words, 1))?;
    block.memory.begin(alloc);
    let union = SimpleUnion::build(members);
    play_owned(alloc, &bench.alive, union, block.rows, report)
}

fn play_bitset_union(alloc: Global, bench: &Bench, block: Block<'_>, report: &mut Report) -> Done {
    let max_value = read_number(word(block.words, 1))?;
    let set = read_set(alloc, max_value, word(block.words, 2))?;
    let members = read_members(alloc, behind(block.words, 3))?;
    block.memory.begin(alloc);
    let union = BitSetPostingUnion::build(members, set);
    play_owned(alloc, &bench.alive, union, block.rows, report)
}

// The set of the documents that a word spells, all below a number; `none` for no document.
fn read_set(alloc: Global, max_value: u32, spelled: &str) -> Result<BitSetDocSet, Fault>
    ensures { IfOk result (IsPlaced ⟦<BitSetDocSet as DocSet>⟧) }
{
    if max_value > TERMINATED {
        return Err(Fault::NotAllowed);
    }
    let documents = read_numbers(alloc, if spelled == "none" { "" } else { spelled })?;
    let mut set = BitSet::with_max_value(alloc, max_value)?;
    // the set has room for numbers below the same one
    for document in &documents {
        if *document >= max_value {
            return Err(Fault::NotAllowed);
        }
        set.insert(*document);
    }
    Ok(BitSetDocSet::new(set))
}

impl<'a> Played for SegmentPostings<'a> {
    fn ask(&mut self, alloc: Global, call: &str, memory: Memory, text: &mut Listing) -> Done {
        if call == "reading" {
            return Ok(text.word(reading_name(self.freq_reading_option())));
        }
        match ask_blocks(alloc, self, call, memory, text) {
            Some(answer) => answer,
            None => ask_postings(alloc, self, call, memory, text),
        }
    }
}

impl Played for OwnPostings {
    fn ask(&mut self, alloc: Global, call: &str, memory: Memory, text: &mut Listing) -> Done {
        ask_postings(alloc, self, call, memory, text)
    }
}

impl<D: Postings> Played for SimpleUnion<D> {
    fn ask(&mut self, alloc: Global, call: &str, memory: Memory, text: &mut Listing) -> Done {
        ask_postings(alloc, self, call, memory, text)
    }
}

impl<D: Postings> Played for BitSetPostingUnion<D> {
    fn ask(&mut self, alloc: Global, call: &str, memory: Memory, text: &mut Listing) -> Done {
        ask_postings(alloc, self, call, memory, text)
    }
}

/// The documents of a term have no call besides those of every cursor.
impl<'a> Played for TermDocuments<'a> {
    fn ask(&mut self, _alloc: Global, _call: &str, _memory: Memory, _text: &mut Listing) -> Done {
        Err(Fault::NotUnderstood)
    }
}

/// Postings with an offset have no call besides those of every cursor but `positions`, which rows `shifted` of
/// a segment make.
impl<P: Postings> Played for PostingsWithOffset<P> {
    fn ask(&mut self, _alloc: Global, _call: &str, _memory: Memory, _text: &mut Listing) -> Done {
        Err(Fault::NotUnderstood)
    }
}
