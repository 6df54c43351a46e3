//! Whether a query asks for the terms of a segment that begin with a prefix, and gets fewer than there are.
//!
//! A term that several segments have counts in each. So segments may be narrowed where that was not needed; what is
//! listed is the same.

ghost use Rattle.std.specs.Prelude.{◌≡◌, ◌≤◌, SomeIff, length, not};
ghost use Rattle.qm_index.specs.Parts.{segments_of};
ghost use Rattle.birchagain.specs.Body.{body_term};
ghost use Rattle.qm_script.specs.Prefixes.{has_failing, last_passes};
ghost use Rattle.qm_script.specs.Reached.{is_reached, prefixed};
ghost use Rattle.qm_script.specs.Spelled.{query_of, texts};

use crate::spelled_query::SpelledQuery;
use crate::terms::body;
use qm_postings::SegmentReader;

/// Whether a phrase prefix stands in the query that begins more terms of the segments together than it may be
/// expanded to. Looks at each query in it once, and at no more terms than these.
pub fn has_cut(query: &SpelledQuery, segments: &[SegmentReader]) -> bool
    ensures { result ≡ has_failing (is_reached (segments_of segments.now)) (query_of query.now) }
{
    match query {
        SpelledQuery::PhrasePrefix {
            max_expansions,
            words,
        } => is_cut(words.as_slice(), *max_expansions, segments),
        SpelledQuery::Boolean { clauses, .. } => {
            // none before this one has such a prefix
            for (_, inner) in clauses {
                if has_cut(inner, segments) {
                    return true;
                }
            }
            false
        }
        SpelledQuery::DisjunctionMax { disjuncts, .. } => {
            // none before this one has such a prefix
            for inner in disjuncts {
                if has_cut(inner, segments) {
                    return true;
                }
            }
            false
        }
        SpelledQuery::Boost(_, inner) => has_cut(inner, segments),
        SpelledQuery::Const(_, inner) => has_cut(inner, segments),
        SpelledQuery::All
        | SpelledQuery::Empty
        | SpelledQuery::Term(_)
        | SpelledQuery::Phrase { .. } => false,
    }
}

// Whether the last of some words is such a prefix.
fn is_cut(words: &[String], most: u32, segments: &[SegmentReader]) -> bool
    ensures { result ≡ not (last_passes (is_reached (segments_of segments.now)) most (texts words.now)) }
{
    match words.last() {
        Some(prefix) => !is_reached(prefix.as_bytes(), most, segments),
        None => false,
    }
}

// Whether a prefix begins at most so many terms of the segments together.
fn is_reached(prefix: &[u8], most: u32, segments: &[SegmentReader]) -> bool
    ensures { result ≡ is_reached (segments_of segments.now) (body_term prefix.now) most }
{
    let mut left = most;
    // the segments before have as many as were taken off
    for segment in segments {
        match count_prefixed(segment, prefix, left) {
            Some(count) => left -= count,
            None => return false,
        }
    }
    true
}

// How many terms of a segment a prefix begins, and none where these are more than so many.
fn count_prefixed(segment: &SegmentReader, prefix: &[u8], most: u32) -> Option<u32>
    ensures { SomeIff result (length (prefixed segment.now.segment (body_term prefix.now)) ≤ most) (length (prefixed segment.now.segment (body_term prefix.now))) }
{
    let index = segment.inverted_index(body());
    let mut count = 0;
    // the terms from the prefix on: those that begin with it stand in front of all others
    for (term, _) in index.term_range(prefix, None) {
        if !term.serialized_value_bytes().starts_with(prefix) {
            break;
        }
        if count == most {
            return None;
        }
        count += 1;
    }
    Some(count)
}
