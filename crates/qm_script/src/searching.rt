//! What a query finds in an index, for whoever keeps one without a script.
//!
//! The open segment is built whole where a prefix begins too many terms, and not narrowed as in a script: an index that
//! somebody keeps may have any fields.

ghost use Rattle.std.specs.Prelude.{◌≡◌, ◌⊎◌, ◌<◌, ◌≤◌, ◌*◌, All, IfOk, OnOk, Some, length, map, false};
ghost use Rattle.qm_docset.specs.declared.numbers.TheConstants.{TERMINATED};
ghost use Rattle.qm_index.specs.Indexed.{IsMerged, IsRefreshed, indexed, open_parts, statistics};
ghost use Rattle.qm_script.specs.BestListed.{found_item};
ghost use Rattle.qm_script.specs.Prefixes.{has_failing};
ghost use Rattle.qm_script.specs.ProgramNumbers.{most_segments};
ghost use Rattle.qm_script.specs.Reached.{is_reached};
ghost use Rattle.qm_script.specs.Searching.{AreBestIn, IsCountIn, IsReadyFor};
ghost use Rattle.qm_script.specs.Spelled.{query_of};

use crate::best::first_numbers;
use crate::cut_prefixes::has_cut;
use crate::query_builder::build_query;
use crate::spelled_query::SpelledQuery;
use qm_docset::Score;
use qm_index::Index;
use qm_postings::DocAddress;
use qm_query::{Query, TopDocs};
use qm_schema::QueryError;
use std::alloc::{AllocError, Global};

/// A document that was found.
#[repr(C)]
#[derive(Clone, Copy, Debug, PartialEq, Eq)]
pub struct Hit {
    /// Its number over all segments.
    pub document: u64,
    /// Its score.
    pub score: Score,
}

/// How many documents of an index match a query that weren't deleted. Builds what was added, and all of the open segment
/// where a prefix begins more terms of its parts than it may be expanded to.
///
/// Refused as the constructors of its queries and [`Query::count`] are.
pub fn count_hits(
    alloc: Global,
    index: &mut Index,
    spelled: &SpelledQuery,
) -> Result<u64, QueryError>
    ensures count { IfOk result (IsCountIn (query_of spelled.now) (indexed index.old)) }
    ensures documents { indexed index.new ≡ indexed index.old }
    ensures statistics { statistics index.new ≡ statistics index.old }
{
    let query = build_query(alloc, spelled)?;
    make_ready(alloc, index, spelled)?;
    let count = query.count(alloc, index.searcher())?;
    Ok(count as u64)
}

/// The best documents of an index that match a query and weren't deleted, at most so many: by score downwards, and of one
/// score by number upwards. Builds what [`count_hits`] does.
///
/// Refused as the constructors of its queries and [`TopDocs::search`] are.
pub fn best_hits(
    alloc: Global,
    index: &mut Index,
    spelled: &SpelledQuery,
    limit: usize,
) -> Result<Vec<Hit>, QueryError>
    ensures best { IfOk result (λ hits.
        AreBestIn (query_of spelled.now) (indexed index.old) (statistics index.old) limit (map (λ h. (h.document, Some h.score)) hits.items)) }
    ensures few { IfOk result (λ hits. length hits.items ≤ limit) }
    ensures documents { indexed index.new ≡ indexed index.old }
    ensures statistics { statistics index.new ≡ statistics index.old }
{
    let query = build_query(alloc, spelled)?;
    make_ready(alloc, index, spelled)?;
    let searcher = index.searcher();
    let top = TopDocs::with_limit(limit);
    let found = top.search_counted(alloc, &query, searcher, searcher)?;
    let firsts = first_numbers(alloc, searcher.segment_readers())?;
    let hits = hits_of(alloc, firsts.as_slice(), found.documents.as_slice())?;
    Ok(hits)
}

/// Builds an index, so that it can be searched for a query.
pub(crate) fn make_ready(
    alloc: Global,
    index: &mut Index,
    spelled: &SpelledQuery,
) -> Result<(), QueryError>
    ensures ready { OnOk result (IsReadyFor (query_of spelled.now) index.new) }
    ensures documents { indexed index.new ≡ indexed index.old }
    ensures statistics { statistics index.new ≡ statistics index.old }
{
    index.refresh(alloc)?;
    if is_cut(index, spelled) {
        index.merge(alloc)?;
    }
    Ok(())
}

// Whether a prefix begins more terms of the parts of the open segment than it may be expanded to. Of one part it never
// matters.
fn is_cut(index: &Index, spelled: &SpelledQuery) -> bool
    requires refreshed { IsRefreshed index.now }
    ensures { result ≡ false → IsMerged index.now ⊎ (has_failing (is_reached (open_parts index.now)) (query_of spelled.now) ≡ false) }
{
    let ended = index.ended();
    let parts = &index.searcher().segment_readers()[ended..];
    parts.len() >= 2 && has_cut(spelled, parts)
}

// What was found, by the numbers of the segments' first documents.
fn hits_of(
    alloc: Global,
    firsts: &[u64],
    found: &[(Score, DocAddress)],
) -> Result<Vec<Hit>, AllocError>
    requires there { All (λ f. f.1.segment_ord < length firsts.now) found.now }
    requires few { All (λ n. n ≤ most_segments * TERMINATED) firsts.now }
    ensures { IfOk result (λ hits. map (λ h. (h.document, Some h.score)) hits.items ≡ map (found_item firsts.now) found.now) }
{
    let mut hits = Vec::with_capacity(alloc, found.len())?;
    // those before this one are there
    for (score, address) in found {
        let first = firsts[address.segment_ord as usize];
        hits.push(Hit {
            document: first + u64::from(address.doc_id),
            score: *score,
        })?;
    }
    Ok(hits)
}
