//! Callers of what several indexes answer, each of which holds a part of the documents.

ghost use Rattle.std.specs.Prelude.{◌≡◌, IfOk, IfSome};
ghost use Rattle.example_callers.specs.Found.{HasBestIn, HoldsOfBoth};
ghost use Rattle.qm_index.specs.Indexed.{statistics};
ghost use Rattle.qm_script.specs.Searching.{IsCountIn};
ghost use Rattle.qm_script.specs.Spelled.{query_of};

use birchagain_partitions::{MergeRefusal, merge_hits};
use qm_index::Index;
use qm_schema::QueryError;
use qm_script::{Hit, SpelledQuery, best_hits, count_hits};
use std::alloc::Global;

/// Why two indexes can't be asked together.
#[derive(Clone, Copy, Debug, PartialEq, Eq)]
pub enum PartitionError {
    /// One of them refused the query.
    Query(QueryError),
    /// A document of the second would have a number above 18446744073709551615.
    NumberTooHigh,
}

impl From<QueryError> for PartitionError {
    fn from(error: QueryError) -> PartitionError {
        PartitionError::Query(error)
    }
}

/// Fills the front of an array with the best documents that two indexes find, as many as there is room for, and answers
/// how many these are. Those of the second are numbered behind those of the first. Words weigh alike in both. They are the
/// best of an index that has the segments of both.
pub fn best_of_both(
    alloc: Global,
    query: &SpelledQuery,
    first: &mut Index,
    second: &mut Index,
    out: &mut [Hit],
) -> Result<usize, PartitionError>
    requires alike { statistics first.old ≡ statistics second.old }
    ensures best { IfOk result (λ count. HoldsOfBoth first.old second.old
        (λ both. HasBestIn (query_of query.now) both (statistics first.old) out.old out.new count)) }
{
    let best = best_hits(alloc, first, query, out.len())?;
    let others = best_hits(alloc, second, query, out.len())?;
    match merge_hits(&best, &others, first.document_count(), out) {
        Ok(count) => Ok(count),
        Err(MergeRefusal::NumberTooHigh) => Err(PartitionError::NumberTooHigh),
        // each index gives its best first
        Err(MergeRefusal::NotRanked) => unreachable!(),
    }
}

/// How many documents match in two indexes: as many as in an index that has the segments of both. None where that is above
/// 18446744073709551615.
pub fn count_in_both(
    alloc: Global,
    query: &SpelledQuery,
    first: &mut Index,
    second: &mut Index,
) -> Result<Option<u64>, QueryError>
    ensures count { IfOk result (λ count. IfSome count (λ n.
        HoldsOfBoth first.old second.old (λ both. IsCountIn (query_of query.now) both n))) }
{
    let count = count_hits(alloc, first, query)?;
    let others = count_hits(alloc, second, query)?;
    Ok(count.checked_add(others))
}
