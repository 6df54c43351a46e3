//! The words of a query that weigh anything.
//!
//! Words are answered as they stand, also twice. Who weighs them loses nothing, and to tell them apart would cost a
//! sort.

ghost use Rattle.std.specs.Prelude.{◌≡◌, ◌++◌, IfOk, OnOk, map};
ghost use Rattle.birchagain_queries.specs.QueryWords.{full_words, weighing_words};
ghost use Rattle.qm_script.specs.Spelled.{query_of, texts};

use qm_script::SpelledQuery;
use std::alloc::{AllocError, Global};

/// The words of a query that weigh anything, in the order in which they stand, and each as often as it does; those of a
/// clause that must not match, too. They are the terms that [`qm_query::Query::query_terms`] calls for: all words, but
/// for one that is the beginning of others. Costs a step for each.
///
/// Refused for want of memory alone.
pub fn query_words<'a>(alloc: Global, query: &'a SpelledQuery) -> Result<Vec<&'a str>, AllocError>
    ensures words { IfOk result (λ words. map (λ w. w.now) words.items ≡ weighing_words (query_of query.now)) }
{
    let mut words = Vec::new(alloc);
    push_words(query, &mut words)?;
    Ok(words)
}

// Adds the words of a query.
fn push_words<'a>(query: &'a SpelledQuery, words: &mut Vec<&'a str>) -> Result<(), AllocError>
    ensures { OnOk result (map (λ w. w.now) words.new.items ≡ map (λ w. w.now) words.old.items ++ weighing_words (query_of query.now)) }
{
    match query {
        SpelledQuery::All | SpelledQuery::Empty => Ok(()),
        SpelledQuery::Term(word) => {
            words.push(word.as_str())?;
            Ok(())
        }
        SpelledQuery::Phrase { words: phrase, .. } => push_all(phrase.as_slice(), words),
        SpelledQuery::PhrasePrefix { words: phrase, .. } => push_full(phrase.as_slice(), words),
        SpelledQuery::Boolean { clauses, .. } => {
            // those of the clauses before this one are there
            for (_, inner) in clauses {
                push_words(inner, words)?;
            }
            Ok(())
        }
        SpelledQuery::DisjunctionMax { disjuncts, .. } => {
            // those of the queries before this one are there
            for inner in disjuncts {
                push_words(inner, words)?;
            }
            Ok(())
        }
        SpelledQuery::Boost(_, inner) => push_words(inner, words),
        SpelledQuery::Const(_, inner) => push_words(inner, words),
    }
}

// Adds words.
fn push_all<'a>(phrase: &'a [String], words: &mut Vec<&'a str>) -> Result<(), AllocError>
    ensures { OnOk result (map (λ w. w.now) words.new.items ≡ map (λ w. w.now) words.old.items ++ texts phrase.now) }
{
    // those before this one are there
    for word in phrase {
        words.push(word.as_str())?;
    }
    Ok(())
}

// Adds words without the last.
fn push_full<'a>(phrase: &'a [String], words: &mut Vec<&'a str>) -> Result<(), AllocError>
    ensures { OnOk result (map (λ w. w.now) words.new.items ≡ map (λ w. w.now) words.old.items ++ full_words (texts phrase.now)) }
{
    match phrase.split_last() {
        Some((_, full)) => push_all(full, words),
        None => Ok(()),
    }
}
