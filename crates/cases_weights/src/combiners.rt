//! Combiners as words.

use cases::{Fault, number, word};
use qm_combine::{DisjunctionMaxCombiner, SumCombiner};
use qm_scorer::AnyCombiner;

/// The combiner with which words begin: `sum`, `nothing`, or `max N` with a tie breaker of N thousandths.
pub fn read_combiner(words: &[&str]) -> Result<AnyCombiner, Fault> {
    match word(words, 0) {
        "sum" => Ok(AnyCombiner::Sum(SumCombiner::default())),
        "nothing" => Ok(AnyCombiner::default()),
        "max" => match number(words, 1) {
            Some(tie_breaker) => Ok(AnyCombiner::DisjunctionMax(
                DisjunctionMaxCombiner::with_tie_breaker(tie_breaker)?,
            )),
            None => Err(Fault::NotUnderstood),
        },
        _ => Err(Fault::NotUnderstood),
    }
}

/// How many words the combiner is with which words begin.
pub fn combiner_len(words: &[&str]) -> usize {
    if word(words, 0) == "max" { 2 } else { 1 }
}
