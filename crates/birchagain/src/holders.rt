//! How many documents hold a word.
//!
//! All counts are made before a caller can write the first, so that a refused call leaves its buffer as it was.

ghost use Rattle.std.specs.Prelude.{◌≡◌, ◌≤◌, ◌*◌, IfErr, IfOk, IsOkUnless, OnOk, length, map};
ghost use Rattle.std.specs.List.{sum_by};
ghost use Rattle.qm_docset.specs.declared.numbers.TheConstants.{TERMINATED};
ghost use Rattle.qm_index.specs.Indexed.{all_segments, indexed, statistics};
ghost use Rattle.qm_index.specs.Numbers.{document_count};
ghost use Rattle.qm_index.specs.Parts.{segments_of};
ghost use Rattle.birchagain.specs.Body.{body_term};
ghost use Rattle.birchagain.specs.CutWords.{AreWords, IsCutRefusal, words_from};
ghost use Rattle.birchagain.specs.Holding.{holder_count, holders_in};

use crate::body::body_term;
use crate::cut_words::cut_words;
use crate::refusal::Refusal;
use qm_index::Index;
use qm_postings::SegmentReader;
use qm_schema::{QueryError, Term};
use std::alloc::Global;

/// How many documents of all segments hold each of these words, deleted ones too. The words stand in the bytes one
/// behind the other, and each ends where its number says. Builds what was added, and costs a step for each word and
/// segment.
///
/// Refused with [`Refusal::NotWords`] or [`Refusal::NotText`] only where these are no words, as [`crate::add_words`]
/// is; else for want of memory.
pub fn frequencies(
    alloc: Global,
    index: &mut Index,
    bytes: &[u8],
    ends: &[usize],
) -> Result<Vec<u64>, Refusal>
    ensures counts { IfOk result (λ counts.
        counts.items ≡ map (λ w. holder_count (body_term w) (all_segments (indexed index.old))) (words_from 0 ends.now bytes.now)) }
    ensures count { IfOk result (λ counts. length counts.items ≡ length ends.now) }
    ensures good { OnOk result (AreWords 0 ends.now bytes.now) }
    ensures documents { indexed index.new ≡ indexed index.old }
    ensures statistics { statistics index.new ≡ statistics index.old }
    ensures refused { IfErr result (IsCutRefusal (AreWords 0 ends.now bytes.now)) }
{
    let words = cut_words(alloc, bytes, ends)?;
    index.refresh(alloc)?;
    let segments = index.searcher().segment_readers();
    let counts = counts_of(alloc, segments, words.as_slice())?;
    Ok(counts)
}

// How many documents of some segments hold each word.
fn counts_of(
    alloc: Global,
    segments: &[SegmentReader],
    words: &[&str],
) -> Result<Vec<u64>, QueryError>
    requires few { document_count segments.now ≤ 4294967295 * TERMINATED }
    ensures counts { IfOk result (λ counts.
        counts.items ≡ map (λ w. holder_count (body_term w.now) (segments_of segments.now)) words.now) }
    ensures refused { IsOkUnless result QueryError.Memory }
{
    let mut counts = Vec::with_capacity(alloc, words.len())?;
    // those of the words before this one are there
    for word in words {
        let term = body_term(alloc, word)?;
        let count = count_holders(segments, &term);
        counts.push(count)?;
    }
    Ok(counts)
}

// How many documents of some segments hold a term.
fn count_holders(segments: &[SegmentReader], term: &Term) -> u64
    requires few { document_count segments.now ≤ 4294967295 * TERMINATED }
    ensures { result ≡ holder_count term.now (segments_of segments.now) }
{
    let mut count: u64 = 0;
    // those of the segments before this one are counted
    for segment in segments {
        count += u64::from(count_holders_in(segment, term));
    }
    count
}

// How many documents of one segment do.
fn count_holders_in(segment: &SegmentReader, term: &Term) -> u32
    ensures { result ≡ holders_in term.now segment.now.segment }
{
    match segment.inverted_index(term.field()).get_term_info(term) {
        Some(info) => info.doc_freq,
        None => 0,
    }
}
