//! What is searched for a query whose prefixes are cut: segments of the terms alone that it asks for.
//!
//! Why it is so:
//! - A prefix that is cut stands for the first terms of the whole open segment, which none of its parts knows alone.
//! - The ended segments are narrowed too, though they need it not: a search takes a searcher that owns all its
//!   segments.

ghost use Rattle.std.specs.Prelude.{◌≡◌, ◌<◌, IfOk, length, map};
ghost use Rattle.std.specs.List.Sorted.{IsStrictlySortedBy};
ghost use Rattle.qm_index.specs.Parts.{segments_of};
ghost use Rattle.qm_merge.specs.Merging.{joined};
ghost use Rattle.qm_postings.specs.Restriction.{restricted};
ghost use Rattle.qm_schema.specs.Term.{term_cmp};
ghost use Rattle.qm_script.specs.Wanted.{is_wanted};
ghost use Rattle.qm_script.specs.Narrowed.{Narrows, all_joined};
ghost use Rattle.qm_script.specs.Spelled.{query_of};

use crate::asked_terms::asked_terms;
use crate::spelled_query::SpelledQuery;
use crate::terms_alone::with_terms_alone;
use qm_merge::merge;
use qm_postings::{Searcher, SegmentReader};
use qm_schema::{QueryError, Term};
use std::alloc::Global;
use std::collections::BTreeMap;

/// A searcher over the first `ended` segments of another and over one of all behind them, which keeps of each the terms
/// alone that a query asks for. Its words weigh nothing. Costs what these terms' rows do, and a copy of the length ids.
///
/// Asks that there is a segment behind the first ones. It is refused for want of memory alone where those behind them are
/// parts of one.
pub(crate) fn narrowed(
    alloc: Global,
    searcher: &Searcher,
    ended: usize,
    query: &SpelledQuery,
) -> Result<Searcher, QueryError>
    requires some { ended < length searcher.now.segments }
    ensures narrowed { IfOk result (λ it. Narrows (query_of query.now) ended searcher.now.segments it.segments) }
    ensures fields { IfOk result (λ it. it.schema ≡ searcher.now.schema) }
{
    let readers = searcher.segment_readers();
    let terms = asked_terms(alloc, query, readers)?;
    let mut segments = each_narrowed(alloc, &readers[..ended], &terms)?;
    let whole = joined_narrowed(alloc, &readers[ended], &readers[ended + 1..], &terms)?;
    segments.push(whole)?;
    let schema = searcher.schema().clone(alloc)?;
    Searcher::from_parts(schema, segments, BTreeMap::new(alloc), 0, [0; 256])
}

// Each of some segments with these terms alone.
fn each_narrowed(
    alloc: Global,
    readers: &[SegmentReader],
    terms: &[Term],
) -> Result<Vec<SegmentReader>, QueryError>
    requires ascending { IsStrictlySortedBy term_cmp terms.now }
    ensures each { IfOk result (λ segments. segments_of segments.items ≡ map (restricted (is_wanted terms.now)) (segments_of readers.now)) }
{
    let mut segments = Vec::with_capacity(alloc, readers.len())?;
    // those before it are there
    for reader in readers {
        segments.push(with_terms_alone(alloc, reader, terms)?)?;
    }
    Ok(segments)
}

// One segment of the documents of several, with these terms alone.
fn joined_narrowed(
    alloc: Global,
    first: &SegmentReader,
    others: &[SegmentReader],
    terms: &[Term],
) -> Result<SegmentReader, QueryError>
    requires ascending { IsStrictlySortedBy term_cmp terms.now }
    ensures joined { IfOk result (λ it. it.segment ≡ restricted (is_wanted terms.now) (all_joined first.now.segment (segments_of others.now))) }
{
    let mut whole = with_terms_alone(alloc, first, terms)?;
    // those before it are joined
    for other in others {
        let part = with_terms_alone(alloc, other, terms)?;
        whole = joined(alloc, &whole, &part)?;
    }
    Ok(whole)
}

// The segment of the documents of two. Refused for want of memory alone where they are parts of one.
fn joined(
    alloc: Global,
    first: &SegmentReader,
    second: &SegmentReader,
) -> Result<SegmentReader, QueryError>
    ensures { IfOk result (λ it. it.segment ≡ joined first.now.segment second.now.segment) }
{
    match merge(alloc, first, second) {
        Ok(segment) => Ok(segment),
        Err(_) => Err(QueryError::Memory),
    }
}
