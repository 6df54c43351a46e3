//! The best documents of all segments.

use cases::{Done, Fault, Listing, Memory, end_refusals};
use cases_given::World;
use qm_docset::Score;
use qm_postings::DocAddress;
use qm_query::{Query, TopDocs};
use std::alloc::Global;

/// Writes the best documents that a query finds, at most as many as the word says, each as its segment,
/// its document and its score.
pub fn write_top<Q: Query>(
    alloc: Global,
    world: &World,
    query: &Q,
    limit: &str,
    memory: Memory,
    text: &mut Listing,
) -> Done {
    let Ok(limit) = limit.parse() else {
        return Err(Fault::NotUnderstood);
    };
    memory.begin(alloc);
    let found = TopDocs::with_limit(limit).search(alloc, query, &world.searcher);
    end_refusals(alloc);
    Ok(write_found(&found?, text))
}

/// Writes how many documents the search for at most so many scores, by the weights that the searcher gives.
pub fn write_top_scored<Q: Query>(
    alloc: Global,
    world: &World,
    query: &Q,
    limit: &str,
    memory: Memory,
    text: &mut Listing,
) -> Done {
    let Ok(limit) = limit.parse() else {
        return Err(Fault::NotUnderstood);
    };
    let searcher = &world.searcher;
    memory.begin(alloc);
    let found = TopDocs::with_limit(limit).search_counted(alloc, query, searcher, searcher);
    end_refusals(alloc);
    Ok(write!(text, "{}", found?.scored))
}

fn write_found(found: &[(Score, DocAddress)], text: &mut Listing) {
    // the documents before this one are written, each with its segment and its score
    for (score, address) in found {
        text.space();
        write!(text, "{}/{}:{score}", address.segment_ord, address.doc_id);
    }
}
