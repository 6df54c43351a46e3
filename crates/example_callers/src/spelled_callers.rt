//! A caller that asks a query, as a script spells it, of a searcher that no script keeps.

ghost use Rattle.std.specs.Prelude.{◌≡◌, ◌↔◌, IfOk, IfSome, None, true};
ghost use Rattle.example_callers.specs.Found.{IsCountOfSpelled};
ghost use Rattle.qm_index.specs.Parts.{segments_of};
ghost use Rattle.qm_script.specs.Prefixes.{has_failing};
ghost use Rattle.qm_script.specs.Reached.{is_reached};
ghost use Rattle.qm_script.specs.Spelled.{query_of};

use qm_postings::Searcher;
use qm_query::Query;
use qm_schema::QueryError;
use qm_script::{SpelledQuery, build_query, has_cut};
use std::alloc::Global;

/// How many documents of a searcher's segments match that weren't deleted. None where a prefix in the query begins more
/// terms of these than it may be expanded to, since it is expanded to other ones in each segment then.
pub fn count_uncut(
    alloc: Global,
    spelled: &SpelledQuery,
    searcher: &Searcher,
) -> Result<Option<usize>, QueryError>
    ensures count { IfOk result (λ count. IfSome count (IsCountOfSpelled (query_of spelled.now) searcher.now)) }
    ensures cut { IfOk result (λ count. (count ≡ None) ↔ (has_failing (is_reached (segments_of searcher.now.segments)) (query_of spelled.now) ≡ true)) }
{
    if has_cut(spelled, searcher.segment_readers()) {
        return Ok(None);
    }
    let query = build_query(alloc, spelled)?;
    let count = query.count(alloc, searcher)?;
    Ok(Some(count))
}
