//! What terms weigh.

use cases::{Fault, score};
use qm_postings::{Bm25StatisticsProvider, Searcher};
use qm_term::Bm25Weight;

/// What a number is as a weight, by the norms of the searcher.
pub fn read_similarity(searcher: &Searcher, weight: &str) -> Result<Bm25Weight, Fault> {
    let Some(weight) = score(&[weight], 0) else {
        return Err(Fault::NotUnderstood);
    };
    Ok(Bm25Weight::new(weight, *searcher.norms())?)
}
