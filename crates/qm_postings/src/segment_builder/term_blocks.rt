//! The blocks of all terms' postings.

ghost use Rattle.std.specs.Prelude.{◌≡◌, ◌+◌, ◌-◌, ◌<◌, ◌≤◌, ◌++◌, All, IfOk, OnOk, IsOkUnless, if◌then◌else◌, length, map, min, nat_lt, slice_index, slice_index_or, []};
ghost use Rattle.qm_postings.specs.Frequencies.{listed};
ghost use Rattle.qm_postings.specs.Kept.{HaveBlocks, all_infos, least_id};

use crate::frequencies::{Frequencies, FrequencyPart};
use crate::segment_reader::TermEntry;
use crate::term_arrays::BlockInfo;
use qm_docset::{DocId, TERMINATED};
use qm_schema::QueryError;
use std::alloc::Global;

/// What is known of all blocks, and, by the places of the terms, where those of each begin.
#[derive(Drop)]
pub(crate) struct TermBlocks {
    pub(crate) starts: Vec<usize>,
    pub(crate) infos: Vec<BlockInfo>,
}

// Cuts the postings of each term into blocks. One step for each posting.
pub(crate) fn cut_into_blocks(
    alloc: Global,
    terms: &[TermEntry],
    documents: &[DocId],
    frequencies: &Frequencies,
    columns: &[Vec<u8>],
    block_len: u32,
) -> Result<TermBlocks, QueryError>
    requires within { All (λ r. r.start + r.count ≤ length documents.now) terms.now }
    requires paired { length frequencies.now ≡ length documents.now }
    requires block_len { 0 < block_len }
    ensures cut { IfOk result (λ b. HaveBlocks block_len terms.now documents.now frequencies.now (map (λ c. c.items) columns.now) b.starts.items b.infos.items) }
    ensures refused { IsOkUnless result QueryError.Memory }
{
    let mut starts = Vec::with_capacity(alloc, terms.len())?;
    let mut infos = Vec::with_capacity(alloc, count_blocks(terms, block_len))?;
    // the terms before this one are cut into blocks
    for entry in terms {
        starts.push(infos.len())?;
        let end = entry.start + entry.doc_freq as usize;
        push_blocks(
            &mut infos,
            &documents[entry.start..end],
            frequencies.part(entry.start, entry.doc_freq as usize),
            column_of(columns, entry.term.field().field_id()),
            block_len as usize,
        )?;
    }
    Ok(TermBlocks { starts, infos })
}

// How many blocks the terms have in all: what room they take, and no more hangs on it.
fn count_blocks(terms: &[TermEntry], block_len: u32) -> usize
    requires { 0 < block_len }
{
    let mut count: usize = 0;
    // how many blocks the terms before this one have
    for entry in terms {
        count = count.saturating_add(entry.doc_freq.div_ceil(block_len) as usize);
    }
    count
}

// The length ids of a field; none where it keeps no lengths, or isn't there.
pub(crate) fn column_of(columns: &[Vec<u8>], field: u32) -> &[u8]
    ensures { result.now ≡ slice_index_or (map (λ c. c.items) columns.now) field [] }
{
    match columns.get(field as usize) {
        Some(column) => column.as_slice(),
        None => &[],
    }
}

// Adds the blocks of a term.
fn push_blocks(
    infos: &mut Vec<BlockInfo>,
    documents: &[DocId],
    frequencies: FrequencyPart<'_>,
    ids: &[u8],
    block_len: usize,
) -> Result<(), QueryError>
    requires paired { length (listed frequencies) ≡ length documents.now }
    requires few { length documents.now ≤ 4294967295 }
    requires block_len { 0 < block_len }
    ensures pushed { OnOk result (infos.new.items ≡ infos.old.items ++ all_infos block_len ids.now documents.now (listed frequencies.entry)) }
    ensures refused { IsOkUnless result QueryError.Memory }
{
    let mut positions_start = 0;
    // all blocks before this one are there, and their frequencies are summed, none of which is over 4294967295
    for block in 0..documents.len().div_ceil(block_len) {
        let start = block * block_len;
        let end = start + block_len.min(documents.len() - start);
        let part = frequencies.part(start, end);
        infos.push(BlockInfo {
            last_doc: end_of(documents, end),
            max_term_freq: part.greatest(),
            least_fieldnorm_id: least_id(ids, &documents[start..end]),
            positions_start,
        })?;
        positions_start += part.sum();
    }
    Ok(())
}

// The end of a block: the document before a place, and TERMINATED where that is the end.
fn end_of(documents: &[DocId], end: usize) -> DocId
    requires { 0 < end }
    ensures { result ≡ (if nat_lt end (length documents.now) then slice_index documents.now (end - 1) else TERMINATED) }
{
    if end < documents.len() {
        documents[end - 1]
    } else {
        TERMINATED
    }
}

// The least length id of some documents, by those of all; a document that has none there counts as 1.
fn least_id(ids: &[u8], documents: &[DocId]) -> u8
    ensures { result ≡ least_id ids.now documents.now }
{
    let mut least = 255;
    // the least length id of the documents before this one
    for document in documents {
        least = lesser(least, id_of(ids, *document));
    }
    least
}

fn id_of(ids: &[u8], document: DocId) -> u8
    ensures { result ≡ slice_index_or ids.now document 1 }
{
    match ids.get(document as usize) {
        Some(id) => *id,
        None => 1,
    }
}

fn lesser(a: u8, b: u8) -> u8
    ensures { result ≡ min a b }
{
    if a < b { a } else { b }
}
