//! The words that begin with the letters of one that was asked for so.

use birch_index::{Index, held_in};
use qm_schema::{QueryError, Term};
use std::alloc::Global;
use std::cmp::Reverse;
use std::collections::BTreeMap;

/// How many words are tried that begin so, where such a beginning ends a phrase.
pub const MOST_WORDS: usize = 200;

/// The words of an index that begin so, those first that most documents hold, and of those that as many hold the first
/// by their bytes; 200 at most. Costs the logarithm of their number for each that begins so.
pub fn commonest_words(
    alloc: Global,
    index: &Index,
    beginning: &Term,
) -> Result<Vec<Term>, QueryError> {
    let mut counted = Vec::new(alloc);
    // the words before this one are there, each beside how many documents hold it
    for word in count_words(alloc, index, beginning)? {
        counted.push(word)?;
    }
    counted.sort_by_key(|word| Reverse(word.1))?;
    counted.truncate(MOST_WORDS);
    let mut words = Vec::with_capacity(alloc, counted.len())?;
    // the words before this one are there
    for (word, _) in counted {
        words.push(word)?;
    }
    Ok(words)
}

// All words of an index that begin so, each with how many documents hold it.
fn count_words(
    alloc: Global,
    index: &Index,
    beginning: &Term,
) -> Result<BTreeMap<Term, u64>, QueryError> {
    let letters = beginning.serialized_value_bytes();
    let mut counts = BTreeMap::new(alloc);
    // the words of the segments before this one are counted
    for segment in index.searcher.segment_readers() {
        let range = segment
            .inverted_index(beginning.field())
            .term_range(letters, None);
        // and those of this segment before this word
        for (word, _) in range {
            if !word.serialized_value_bytes().starts_with(letters) {
                break;
            }
            let held = u64::from(held_in(segment, word));
            count_word(&mut counts, word.clone(alloc)?, held)?;
        }
    }
    Ok(counts)
}

// Adds the documents of one more segment to those that hold a word.
fn count_word(counts: &mut BTreeMap<Term, u64>, word: Term, held: u64) -> Result<(), QueryError> {
    let sum = counts.entry(word)?.or_insert(0);
    *sum = sum.saturating_add(held);
    Ok(())
}
