//! What tells of the blocks of a dictionary.

ghost use Rattle.std.specs.Prelude.{◌≡◌, ◌≤◌, None, Some, IfOk, IsTrue, drop, filter, length, map, not, option_map, take};
ghost use Rattle.std.specs.Ordering.{is_gt};
ghost use Rattle.qm_schema.specs.Term.{term_cmp};
ghost use Rattle.qm_store.specs.Dictionary.{ascend, block_for, block_start_at, blocks_behind, blocks_of, index_at, is_behind, last_of, start_of};
ghost use Rattle.qm_store.specs.Wanted.{is_meant};

use crate::numbers::read_number;
use crate::piece::{Piece, read_piece_name};
use crate::term_bytes::read_term;
use crate::wanted::Wanted;
use qm_schema::{Field, Term};
use std::alloc::{AllocError, Global};
use std::cmp::Ordering;

/// The blocks of a dictionary, which begin with terms in order.
#[derive(Drop)]
pub(crate) struct DictionaryIndex {
    pub(crate) starts: Vec<BlockStart>,
    ghost ascending: { IsTrue (ascend None (map start_of starts.items)) },
}

/// The term that a block begins with, and where the block stands.
#[derive(Drop)]
pub(crate) struct BlockStart {
    pub(crate) field: Field,
    pub(crate) text: Vec<u8>,
    pub(crate) piece: Piece,
}

// The blocks that some bytes tell of, which begin with terms in order; none where they tell of no such blocks.
pub(crate) fn read_index(alloc: Global, bytes: &[u8]) -> Result<Option<DictionaryIndex>, AllocError>
    ensures { IfOk result (λ r. option_map (λ index. map start_of index.starts.items) r ≡ index_at bytes.now) }
{
    let Some((count, behind)) = read_number(bytes) else {
        return Ok(None);
    };
    let mut starts = Vec::new(alloc);
    let mut rest = behind;
    // what is read and what is left make all
    for _ in 0..count {
        let Some((start, left)) = read_start(alloc, rest)? else {
            return Ok(None);
        };
        if !is_behind(&starts, &start) {
            return Ok(None);
        }
        starts.push(start)?;
        rest = left;
    }
    if rest.is_empty() {
        Ok(Some(DictionaryIndex { starts }))
    } else {
        Ok(None)
    }
}

fn read_start(alloc: Global, bytes: &[u8]) -> Result<Option<(BlockStart, &[u8])>, AllocError>
    ensures { IfOk result (λ r. option_map (λ p. (start_of p.0, p.1.now)) r ≡ block_start_at bytes.now) }
{
    let Some((field, text, rest)) = read_term(bytes) else {
        return Ok(None);
    };
    let Some((piece, rest)) = read_piece_name(rest) else {
        return Ok(None);
    };
    let text = Vec::from_slice(alloc, text)?;
    Ok(Some((BlockStart { field, text, piece }, rest)))
}

// Whether a block begins behind the last of those before it, if there are any.
#[tactic(auto, using(crate::proofs::BlockOrder::last_shown))]
fn is_behind(starts: &[BlockStart], start: &BlockStart) -> bool
    ensures { result ≡ is_behind (option_map (λ b. b.first) (last_of (map start_of starts.now))) (start_of start.now).first }
{
    match starts.last() {
        None => true,
        Some(before) => compare(before, start.field, &start.text) == Ordering::Less,
    }
}

// How the first term of a block stands to a text of a field in the order of terms.
#[tactic(auto, using(qm_schema::specs::Term::term_parts))]
fn compare(start: &BlockStart, field: Field, text: &[u8]) -> Ordering
    ensures { result ≡ term_cmp (start_of start.now).first (record { field = field; bytes = text.now }) }
{
    match start.field.field_id().cmp(&field.field_id()) {
        Ordering::Equal => start.text.as_slice().cmp(text),
        order => order,
    }
}

impl DictionaryIndex {
    // Where the block stands that has the entry of a term, if any has: the last that begins with the term or before it.
    pub(crate) fn block_of(&self, term: &Term) -> Option<Piece>
        ensures { result ≡ option_map (λ b. b.piece) (block_for term.now (map start_of self.now.starts.items)) }
    {
        let starts = self.starts.as_slice();
        let behind = blocks_until(starts, term);
        if behind == 0 {
            return None;
        }
        Some(starts[behind - 1].piece)
    }

    // The blocks that may have a term that is meant.
    pub(crate) fn blocks_of(&self, wanted: &Wanted) -> &[BlockStart]
        ensures { map start_of result.now ≡ blocks_of wanted.now (map start_of self.now.starts.items) }
    {
        let starts = self.starts.as_slice();
        let behind = blocks_until(starts, &wanted.term);
        let end = behind + blocks_meant(&starts[behind..], wanted);
        &starts[behind.saturating_sub(1)..end]
    }
}

// How many of some blocks begin with a term that is meant, where each begins behind the wanted one. By halving.
fn blocks_meant(starts: &[BlockStart], wanted: &Wanted) -> usize
    requires { IsTrue (ascend (Some wanted.now.term) (map start_of starts.now)) }
    ensures within { result ≤ length starts.now }
    ensures meant { filter (λ b. is_meant wanted.now b.first) (map start_of starts.now) ≡ take result (map start_of starts.now) }
{
    starts.partition_point(
        |start|
            ensures { result ≡ is_meant wanted.entry.now (start_of start.now).first }
        { wanted.means(start.field, &start.text) },
    )
}

// How many blocks begin with a term or before it. By halving.
fn blocks_until(starts: &[BlockStart], term: &Term) -> usize
    requires { IsTrue (ascend None (map start_of starts.now)) }
    ensures within { result ≤ length starts.now }
    ensures before { block_for term.now (map start_of starts.now) ≡ last_of (take result (map start_of starts.now)) }
    ensures behind { blocks_behind term.now (map start_of starts.now) ≡ drop result (map start_of starts.now) }
{
    starts.partition_point(
        |start|
            ensures { result ≡ not (is_gt (term_cmp (start_of start.now).first term.entry.now)) }
        { begins_by(start, term) },
    )
}

// Whether a block begins with a term or before it.
fn begins_by(start: &BlockStart, term: &Term) -> bool
    ensures { result ≡ not (is_gt (term_cmp (start_of start.now).first term.now)) }
{
    match compare(start, term.field(), term.serialized_value_bytes()) {
        Ordering::Less | Ordering::Equal => true,
        Ordering::Greater => false,
    }
}
