//! Blocks of a set of documents that are left out.

use crate::cursors::read_bits;
use cases::{
    Asker, Block, Done, Fault, Listing, Memory, Moves, Report, behind, play_asked, read_documents,
    read_leaves, word, words_of,
};
use qm_docset::{DocId, ExclusionSet, TERMINATED};
use std::alloc::Global;

/// Plays `exclusion LEAF ; ..` and `exclusion bits MAX DOC..`: each row is on the set made anew.
pub fn play_exclusion(alloc: Global, block: Block<'_>, report: &mut Report) -> Done {
    let mut asked = AskedExclusion {
        words: behind(block.words, 1),
    };
    play_asked(alloc, &mut asked, block.rows, report)
}

#[derive(Drop)]
struct AskedExclusion<'a, 'b> {
    words: &'a [&'b str],
}

impl<'a, 'b> Asker for AskedExclusion<'a, 'b> {
    fn ask(&mut self, alloc: Global, call: &str, memory: Memory, text: &mut Listing) -> Done {
        let words = words_of(alloc, call)?;
        if word(&words, 0) != "contains" {
            return Err(Fault::NotUnderstood);
        }
        let docs = read_documents(alloc, behind(&words, 1))?;
        if word(self.words, 0) == "bits" {
            ask_bits(alloc, self.words, &docs, memory, text)
        } else {
            ask_leaves(alloc, self.words, &docs, memory, text)
        }
    }
}

fn ask_bits(
    alloc: Global,
    words: &[&str],
    docs: &[DocId],
    memory: Memory,
    text: &mut Listing,
) -> Done {
    let mut bits = read_bits(alloc, behind(words, 1), Memory::Ample)?;
    memory.begin(alloc);
    ask_in_turn(&mut bits, docs, text)
}

fn ask_leaves(
    alloc: Global,
    words: &[&str],
    docs: &[DocId],
    memory: Memory,
    text: &mut Listing,
) -> Done {
    let moves = Moves::new();
    let mut leaves = read_leaves(alloc, words, &moves)?;
    if leaves.len() == 1 {
        let mut leaf = leaves.swap_remove(0);
        memory.begin(alloc);
        ask_in_turn(&mut leaf, docs, text)
    } else {
        memory.begin(alloc);
        ask_in_turn(&mut leaves, docs, text)
    }
}

// Asks a set for documents in turn, and writes each answer.
fn ask_in_turn<E: ExclusionSet>(set: &mut E, docs: &[DocId], text: &mut Listing) -> Done
    requires { E.usable set.old }
{
    // the set can be asked, and the answers for those before are written
    for doc in docs {
        if *doc >= TERMINATED {
            return Err(Fault::NotAllowed);
        }
        text.add(set.contains(*doc));
    }
    Ok(())
}
