//! One node of a weight.

use crate::combiners::{combiner_len, read_combiner};
use crate::similarity::read_similarity;
use crate::term_clauses::terms_weight;
use cases::{Fault, behind, number, score, word};
use cases_given::{Clause, Form, read_placed, read_term, take_clause, take_clauses};
use qm_postings::Searcher;
use qm_schema::IndexRecordOption;
use qm_term::Bm25Weight;
use qm_weight::{
    AllWeight, AnyWeight, BooleanWeight, BoostWeight, ConstWeight, EmptyWeight, PhrasePrefixWeight,
    PhraseWeight, PrefixWeight, TermWeight,
};
use std::alloc::Global;

// the greatest offset that a weight takes
const MOST_OFFSET: usize = 4294967295;

/// The weight of a form, over weights that are made.
pub fn build_weight(
    alloc: Global,
    searcher: &Searcher,
    form: Form<'_>,
    clauses: &mut Vec<Clause<AnyWeight>>,
) -> Result<AnyWeight, Fault> {
    match form.name {
        "all" => Ok(AnyWeight::All(AllWeight)),
        "none" => Ok(AnyWeight::Empty(EmptyWeight)),
        "term" | "basic" => build_term(alloc, searcher, form),
        "phrase" => Ok(AnyWeight::Phrase(phrase_weight(alloc, searcher, form.words)?)),
        "prefix" => build_prefix(alloc, searcher, form.words),
        "words" => build_words(alloc, searcher, form.words),
        "terms" => terms_weight(alloc, searcher, form.words),
        "boost" | "const" => build_over(form, clauses),
        _ => build_boolean(alloc, form, clauses),
    }
}

fn build_term(alloc: Global, searcher: &Searcher, form: Form<'_>) -> Result<AnyWeight, Fault> {
    let term = read_term(alloc, searcher.schema(), word(form.words, 0))?;
    let option = if form.name == "basic" {
        IndexRecordOption::Basic
    } else {
        IndexRecordOption::WithFreqs
    };
    let is_scored = word(form.words, 1) != "off";
    let weight = word(form.words, 1);
    let similarity = read_similarity(searcher, if is_scored { weight } else { "0" })?;
    Ok(AnyWeight::Term(TermWeight::new(term, option, similarity, is_scored)))
}

// What a number is as the weight of a phrase; `off` is none.
fn read_phrase_similarity(searcher: &Searcher, weight: &str) -> Result<Option<Bm25Weight>, Fault> {
    if weight == "off" {
        Ok(None)
    } else {
        Ok(Some(read_similarity(searcher, weight)?))
    }
}

/// The weight of `WEIGHT SLOP N OFFSET W ..`, of which N is the number of words.
pub fn phrase_weight(
    alloc: Global,
    searcher: &Searcher,
    words: &[&str],
) -> Result<PhraseWeight, Fault> {
    let similarity = read_phrase_similarity(searcher, word(words, 0))?;
    let (Some(slop), Some(count)) = (number(words, 1), number(words, 2)) else {
        return Err(Fault::NotUnderstood);
    };
    let terms = read_placed(alloc, searcher.schema(), behind(words, 3), MOST_OFFSET)?;
    if terms.len() < 2 || count as usize != terms.len() {
        return Err(Fault::NotUnderstood);
    }
    let mut weight = PhraseWeight::new(terms, similarity);
    weight.slop(slop);
    Ok(weight)
}

/// The weight of `WEIGHT MAX N OFFSET W ..`, of which the last word is a prefix, behind at least one
/// other.
pub fn phrase_prefix_weight(
    alloc: Global,
    searcher: &Searcher,
    words: &[&str],
) -> Result<PhrasePrefixWeight, Fault> {
    let similarity = read_phrase_similarity(searcher, word(words, 0))?;
    let (Some(most), Some(count)) = (number(words, 1), number(words, 2)) else {
        return Err(Fault::NotUnderstood);
    };
    let mut terms = read_placed(alloc, searcher.schema(), behind(words, 3), MOST_OFFSET)?;
    if count as usize != terms.len() {
        return Err(Fault::NotUnderstood);
    }
    let Some(prefix) = terms.pop() else {
        return Err(Fault::NotUnderstood);
    };
    if terms.is_empty() {
        return Err(Fault::NotAllowed);
    }
    Ok(PhrasePrefixWeight::new(terms, prefix, similarity, most))
}

fn build_prefix(alloc: Global, searcher: &Searcher, words: &[&str]) -> Result<AnyWeight, Fault> {
    Ok(AnyWeight::PhrasePrefix(phrase_prefix_weight(alloc, searcher, words)?))
}

fn build_words(alloc: Global, searcher: &Searcher, words: &[&str]) -> Result<AnyWeight, Fault> {
    let most = number(words, 0).ok_or(Fault::NotUnderstood)?;
    let prefix = read_term(alloc, searcher.schema(), word(words, 1))?;
    Ok(AnyWeight::Prefix(PrefixWeight::new(prefix, most)))
}

fn build_over(form: Form<'_>, clauses: &mut Vec<Clause<AnyWeight>>) -> Result<AnyWeight, Fault> {
    let Some(factor) = score(form.words, 0) else {
        return Err(Fault::NotUnderstood);
    };
    let inner = take_clause(clauses)?;
    if form.name == "boost" {
        Ok(AnyWeight::Boost(BoostWeight::new(inner, factor)))
    } else {
        Ok(AnyWeight::Const(ConstWeight::new(inner, factor)))
    }
}

// `bool COMBINER MIN N`, or `clauses COMBINER N`, which has no minimum of its own.
fn build_boolean(
    alloc: Global,
    form: Form<'_>,
    clauses: &mut Vec<Clause<AnyWeight>>,
) -> Result<AnyWeight, Fault> {
    let combiner = read_combiner(form.words)?;
    let rest = behind(form.words, combiner_len(form.words));
    if form.name == "clauses" {
        let count = number(rest, 0).ok_or(Fault::NotUnderstood)?;
        let taken = take_clauses(alloc, clauses, count)?;
        return Ok(AnyWeight::Boolean(BooleanWeight::new(taken, true, combiner)));
    }
    let (Ok(minimum), Some(count)) = (word(rest, 0).parse::<usize>(), number(rest, 1)) else {
        return Err(Fault::NotUnderstood);
    };
    let taken = take_clauses(alloc, clauses, count)?;
    Ok(AnyWeight::Boolean(BooleanWeight::with_minimum_number_should_match(
        taken, minimum, true, combiner,
    )))
}
