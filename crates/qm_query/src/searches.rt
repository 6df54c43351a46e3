//! What a weight, or a term, finds in the segments of a searcher.

ghost use Rattle.std.specs.Prelude.{◌≡◌, IfErr, IfOk, None, Some, slice_get};
ghost use Rattle.qm_schema.specs.declared.error.QueryError.TheVariants.{NoSuchSegment};
ghost use Rattle.qm_schema.specs.declared.schema.option.IndexRecordOption.TheVariants.{Basic};
ghost use Rattle.qm_weight.specs.Scorers.{IsRefusalOf};
ghost use Rattle.qm_weight.specs.Tree.{term as leaf_of};
ghost use Rattle.qm_weight.specs.Weights.{tree_of};
ghost use Rattle.qm_query.specs.QueryScorers.{FitsAtOne};
ghost use Rattle.qm_query.specs.Searches.{count_in};

use crate::fitting::check_fits;
use qm_postings::{DocAddress, Searcher, SegmentReader};
use qm_schema::{QueryError, Term};
use qm_weight::{AnyWeight, Weight, count_term};
use std::alloc::Global;

// How many documents of all segments a weight matches that weren't deleted, where it fits at a boost of 1.
pub(crate) fn count_fitting(
    weight: &AnyWeight,
    alloc: Global,
    searcher: &Searcher,
) -> Result<usize, QueryError>
    ensures count { IfOk result (λ n. n ≡ count_in (tree_of weight.now) searcher.now.segments) }
    ensures fits { IfOk result (λ _. FitsAtOne (tree_of weight.now)) }
    ensures refused { IfErr result (IsRefusalOf (tree_of weight.now) 1) }
{
    check_fits(weight)?;
    count_alive(weight, alloc, searcher)
}

// How many documents of all segments hold a term and weren't deleted. Takes no memory.
pub(crate) fn count_holders(searcher: &Searcher, term: &Term) -> usize
    ensures { result ≡ count_in (leaf_of term.now Basic None) searcher.now.segments }
{
    let mut count = 0;
    // the sum over the segments before this one
    for reader in searcher.segment_readers() {
        count += count_term(term, reader) as usize;
    }
    count
}

// How many documents of all segments match and weren't deleted.
fn count_alive(weight: &AnyWeight, alloc: Global, searcher: &Searcher) -> Result<usize, QueryError>
    ensures count { IfOk result (λ n. n ≡ count_in (tree_of weight.now) searcher.now.segments) }
    ensures refused { IfErr result (IsRefusalOf (tree_of weight.now) 1) }
{
    let mut count = 0;
    // the sum over the segments before this one
    for reader in searcher.segment_readers() {
        count += weight.count(alloc, reader)? as usize;
    }
    Ok(count)
}

// The segment that an address names.
pub(crate) fn segment_at(
    searcher: &Searcher,
    address: DocAddress,
) -> Result<&SegmentReader, QueryError>
    ensures found { IfOk result (λ reader. slice_get searcher.now.segments address.segment_ord ≡ Some reader.now) }
    ensures missing { IfErr result (λ _. slice_get searcher.now.segments address.segment_ord ≡ None) }
    ensures refused { IfErr result (λ error. error ≡ NoSuchSegment address.segment_ord) }
{
    match searcher.segment_reader(address.segment_ord) {
        Some(reader) => Ok(reader),
        None => Err(QueryError::NoSuchSegment(address.segment_ord)),
    }
}
