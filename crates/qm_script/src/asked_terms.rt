//! The terms that a query asks for in some segments.
//!
//! The first terms of all segments together are among these. The others do no harm, since a prefix is expanded anew
//! over what is made of them.

ghost use Rattle.std.specs.Prelude.{◌≡◌, ◌++◌, All, IfOk, IsOkUnless, OnOk, map, true};
ghost use Rattle.std.specs.List.Sorted.{IsStrictlySortedBy};
ghost use Rattle.qm_index.specs.Parts.{segments_of};
ghost use Rattle.qm_schema.specs.Term.{term_cmp};
ghost use Rattle.birchagain.specs.Body.{body_term};
ghost use Rattle.qm_script.specs.AskedTerms.{all_expansions, asked_terms, prefix_terms};
ghost use Rattle.qm_script.specs.Spelled.{query_of, texts};
ghost use Rattle.qm_script.specs.Wanted.{is_wanted};
ghost use Rattle.qm_weight.specs.Tree.{expansions};

use crate::spelled_query::SpelledQuery;
use crate::terms::{body, word_term, word_terms};
use qm_postings::SegmentReader;
use qm_schema::{QueryError, Term};
use std::alloc::Global;

/// The terms that a query asks for in some segments, ascending: its words, and of each segment the first terms that a
/// prefix begins, as many as it may be expanded to. Costs a step for each of them in each segment, and to sort them.
///
/// Refused with [`QueryError::Memory`] alone.
pub(crate) fn asked_terms(
    alloc: Global,
    query: &SpelledQuery,
    segments: &[SegmentReader],
) -> Result<Vec<Term>, QueryError>
    ensures ascending { IfOk result (λ terms. IsStrictlySortedBy term_cmp terms.items) }
    ensures all { IfOk result (λ terms. All (λ t. is_wanted terms.items t ≡ true) (asked_terms (segments_of segments.now) (query_of query.now))) }
    ensures refused { IsOkUnless result QueryError.Memory }
{
    let mut terms = Vec::new(alloc);
    push_asked(alloc, query, segments, &mut terms)?;
    terms.sort_unstable();
    terms.dedup();
    Ok(terms)
}

// Adds the terms that a query asks for in some segments.
fn push_asked(
    alloc: Global,
    query: &SpelledQuery,
    segments: &[SegmentReader],
    terms: &mut Vec<Term>,
) -> Result<(), QueryError>
    ensures added { OnOk result (terms.new.items ≡ terms.old.items ++ asked_terms (segments_of segments.now) (query_of query.now)) }
    ensures refused { IsOkUnless result QueryError.Memory }
{
    match query {
        SpelledQuery::All | SpelledQuery::Empty => Ok(()),
        SpelledQuery::Term(word) => {
            terms.push(word_term(alloc, word.as_str())?)?;
            Ok(())
        }
        SpelledQuery::Phrase { words, .. } => push_words(alloc, words.as_slice(), terms),
        SpelledQuery::PhrasePrefix {
            max_expansions,
            words,
        } => push_prefix(alloc, words.as_slice(), *max_expansions, segments, terms),
        SpelledQuery::Boolean { clauses, .. } => {
            // what the clauses before this one ask for is there
            for (_, inner) in clauses {
                push_asked(alloc, inner, segments, terms)?;
            }
            Ok(())
        }
        SpelledQuery::DisjunctionMax { disjuncts, .. } => {
            // the same of the queries before this one
            for inner in disjuncts {
                push_asked(alloc, inner, segments, terms)?;
            }
            Ok(())
        }
        SpelledQuery::Boost(_, inner) => push_asked(alloc, inner, segments, terms),
        SpelledQuery::Const(_, inner) => push_asked(alloc, inner, segments, terms),
    }
}

// Adds words as terms.
fn push_words(alloc: Global, words: &[String], terms: &mut Vec<Term>) -> Result<(), QueryError>
    ensures added { OnOk result (terms.new.items ≡ terms.old.items ++ map body_term (texts words.now)) }
    ensures refused { IsOkUnless result QueryError.Memory }
{
    terms.append(&mut word_terms(alloc, words)?)?;
    Ok(())
}

// Adds the words of a phrase prefix as terms, and those that the last is expanded to.
fn push_prefix(
    alloc: Global,
    words: &[String],
    most: u32,
    segments: &[SegmentReader],
    terms: &mut Vec<Term>,
) -> Result<(), QueryError>
    ensures added { OnOk result (terms.new.items ≡ terms.old.items ++ prefix_terms (segments_of segments.now) most (texts words.now)) }
    ensures refused { IsOkUnless result QueryError.Memory }
{
    push_words(alloc, words, terms)?;
    match words.last() {
        Some(prefix) => push_all_expansions(alloc, prefix.as_bytes(), most, segments, terms),
        None => Ok(()),
    }
}

// Adds the first terms of each segment that begin with a prefix, at most so many of each.
fn push_all_expansions(
    alloc: Global,
    prefix: &[u8],
    most: u32,
    segments: &[SegmentReader],
    terms: &mut Vec<Term>,
) -> Result<(), QueryError>
    ensures added { OnOk result (terms.new.items ≡ terms.old.items ++ all_expansions (segments_of segments.now) (body_term prefix.now) most) }
    ensures refused { IsOkUnless result QueryError.Memory }
{
    // those of the segments before it are there
    for segment in segments {
        push_expansions(alloc, segment, prefix, most, terms)?;
    }
    Ok(())
}

// Adds the first terms of a segment that begin with a prefix, at most so many.
fn push_expansions(
    alloc: Global,
    segment: &SegmentReader,
    prefix: &[u8],
    most: u32,
    terms: &mut Vec<Term>,
) -> Result<(), QueryError>
    ensures added { OnOk result (terms.new.items ≡ terms.old.items ++ expansions segment.now.segment (body_term prefix.now) most) }
    ensures refused { IsOkUnless result QueryError.Memory }
{
    let index = segment.inverted_index(body());
    let mut left = most;
    // the terms from the prefix on: those that begin with it stand in front of all others
    for (term, _) in index.term_range(prefix, None) {
        if left == 0 || !term.serialized_value_bytes().starts_with(prefix) {
            break;
        }
        terms.push(term.clone(alloc)?)?;
        left -= 1;
    }
    Ok(())
}
