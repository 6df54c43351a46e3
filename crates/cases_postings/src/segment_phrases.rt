//! Blocks of scorers over the given segment.

ghost use Rattle.std.specs.Prelude.{◌≡◌, ◌<◌, ◌≤◌, All, IfOk, length};
ghost use Rattle.qm_docset.specs.Lists.{IsPlaced};
ghost use Rattle.qm_postings.specs.FieldNorms.{norm_ids};
ghost use Rattle.qm_postings.specs.SegmentPostings.{postings_left};

use crate::bench::Bench;
use crate::making::play_owned;
use crate::spelled::{
    read_bytes, read_number, read_option, read_term, read_weight, read_weight_or_none,
};
use cases::{Block, Done, Fault, Listing, Report, behind, word};
use qm_docset::{DocSet, TERMINATED};
use qm_phrase::{PhrasePrefixScorer, PhraseScorer, prefix_end};
use qm_postings::{FieldNormReader, SegmentPostings, SegmentReader};
use qm_schema::{Field, IndexRecordOption, Term};
use qm_term::TermScorer;
use std::alloc::Global;

// how many words a phrase has at most
const MOST_WORDS: usize = 1000;

// the first field, which the terms are of
fn first_field() -> Field {
    Field::from_field_id(0)
}

/// Plays `termscorer WORD WEIGHT OPTION`.
pub fn play_term_scorer(
    alloc: Global,
    bench: &Bench,
    block: Block<'_>,
    report: &mut Report,
) -> Done {
    let term = read_term(alloc, first_field(), word(block.words, 1))?;
    let weight = read_weight(word(block.words, 2))?;
    let option = read_option(word(block.words, 3))?;
    block.memory.begin(alloc);
    match TermScorer::for_term(&bench.segment, &term, option, &weight) {
        Some(scorer) => play_owned(alloc, &bench.alive, scorer, block.rows, report),
        None => Err(Fault::NotAllowed),
    }
}

/// Plays `segmentphrase SLOP WEIGHT WORD ..`.
pub fn play_phrase(alloc: Global, bench: &Bench, block: Block<'_>, report: &mut Report) -> Done {
    let slop = read_number(word(block.words, 1))?;
    let weight = read_weight_or_none(word(block.words, 2))?;
    let terms = full_terms(alloc, &bench.segment, behind(block.words, 3))?;
    if terms.len() < 2 {
        return Err(Fault::NotAllowed);
    }
    let ids = length_ids(&bench.segment)?;
    block.memory.begin(alloc);
    let scorer = PhraseScorer::new(alloc, terms, weight, ids, slop)?;
    play_owned(alloc, &bench.alive, scorer, block.rows, report)
}

/// Plays `segmentprefix MAX WEIGHT WORD .. PREFIX`, which reads at most MAX terms that begin with the
/// prefix.
pub fn play_prefix(alloc: Global, bench: &Bench, block: Block<'_>, report: &mut Report) -> Done {
    let most = read_number(word(block.words, 1))?;
    let weight = read_weight_or_none(word(block.words, 2))?;
    let Some((prefix, words)) = behind(block.words, 3).split_last() else {
        return Err(Fault::NotUnderstood);
    };
    let terms = full_terms(alloc, &bench.segment, words)?;
    if terms.is_empty() {
        return Err(Fault::NotAllowed);
    }
    let prefix = read_bytes(alloc, prefix)?;
    let ends = suffixes(alloc, &bench.segment, &prefix, most)?;
    let ids = length_ids(&bench.segment)?;
    let offset = words.len().min(4294967295);
    block.memory.begin(alloc);
    let scorer = PhrasePrefixScorer::new(alloc, terms, weight, ids, ends, offset)?;
    play_owned(alloc, &bench.alive, scorer, block.rows, report)
}

/// Writes the documents of a segment that hold words of the first field as a phrase, by their numbers from `first`
/// on.
pub fn write_phrase(
    alloc: Global,
    segment: &SegmentReader,
    words: &[&str],
    slop: u32,
    first: u64,
    text: &mut Listing,
) -> Done {
    let terms = match full_terms(alloc, segment, words) {
        Ok(terms) => terms,
        // a word that no document holds
        Err(Fault::NotAllowed) => return Ok(()),
        Err(fault) => return Err(fault),
    };
    if terms.len() < 2 {
        return Err(Fault::NotAllowed);
    }
    let ids = length_ids(segment)?;
    let mut scorer = PhraseScorer::new(alloc, terms, None, ids, slop)?;
    Ok(write_documents(&mut scorer, first, text))
}

// Writes all documents that are left, by their numbers from `first` on.
fn write_documents<S: DocSet>(set: &mut S, first: u64, text: &mut Listing)
    requires { IsPlaced S.DocSet set.old }
    ensures { IsPlaced S.DocSet set.new }
{
    let mut doc = set.doc();
    // the set stands on this document
    while doc < TERMINATED {
        text.add(first.saturating_add(u64::from(doc)));
        doc = set.advance();
    }
}

// The length ids of a segment's documents.
fn length_ids<'s>(segment: &'s SegmentReader) -> Result<FieldNormReader<'s>, Fault>
    ensures { IfOk result (λ ids. length (norm_ids ids) ≡ length segment.now.segment.documents) }
{
    match segment.fieldnorms(first_field()) {
        Some(ids) if ids.num_docs() == segment.max_doc() => Ok(ids),
        _ => Err(Fault::NotAllowed),
    }
}

// The postings of a term that some document holds.
fn postings_of<'s>(segment: &'s SegmentReader, term: &Term) -> Result<SegmentPostings<'s>, Fault>
    ensures valid { IfOk result ⟦<SegmentPostings<'s> as DocSet>⟧.valid }
    ensures documents { IfOk result (λ p. All (λ e. e.document < length segment.now.segment.documents) (postings_left p)) }
{
    let index = segment.inverted_index(first_field());
    match index.read_postings(term, IndexRecordOption::WithFreqsAndPositions) {
        Some(postings) => Ok(postings),
        None => Err(Fault::NotAllowed),
    }
}

// The postings of words, each with its place among them.
fn full_terms<'s>(
    alloc: Global,
    segment: &'s SegmentReader,
    words: &[&str],
) -> Result<Vec<(usize, SegmentPostings<'s>)>, Fault>
    ensures valid { IfOk result (λ row. All (λ pair. ⟦<SegmentPostings<'s> as DocSet>⟧.valid pair.1) row.items) }
    ensures offsets { IfOk result (λ row. All (λ pair. pair.0 ≤ 4294967295) row.items) }
    ensures documents { IfOk result (λ row. All (λ pair. All (λ e. e.document < length segment.now.segment.documents) (postings_left pair.1)) row.items) }
{
    if words.len() > MOST_WORDS {
        return Err(Fault::NotAllowed);
    }
    let mut row = Vec::new(alloc);
    // each term so far has its place as offset
    for spelled in words {
        let term = read_term(alloc, first_field(), spelled)?;
        row.push((row.len(), postings_of(segment, &term)?))?;
    }
    Ok(row)
}

// The postings of the terms that begin with a prefix, at most so many.
fn suffixes<'s>(
    alloc: Global,
    segment: &'s SegmentReader,
    prefix: &[u8],
    most: u32,
) -> Result<Vec<SegmentPostings<'s>>, Fault>
    ensures { IfOk result (λ row. All ⟦<SegmentPostings<'s> as DocSet>⟧.valid row.items) }
{
    let index = segment.inverted_index(first_field());
    let end = prefix_end(alloc, prefix)?;
    let mut row = Vec::new(alloc);
    let range = index.term_range(prefix, end.as_ref().map(|end| end.as_slice()));
    // all postings so far are cursors
    for (term, _) in range.take(most as usize) {
        row.push(postings_of(segment, term)?)?;
    }
    Ok(row)
}
