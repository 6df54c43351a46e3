//! Queries for every document, for none, for terms and for phrases.

use cases::{Fault, behind, end_refusals, number, word};
use cases_given::{Form, read_placed, read_term};
use qm_query::{
    AllQuery, AnyQuery, BooleanQuery, EmptyQuery, PhrasePrefixQuery, PhraseQuery, TermQuery,
};
use qm_schema::{IndexRecordOption, Schema, Term};
use std::alloc::Global;

/// `all`, `none`, `term W`, `basic W`, `multiterms N W..`, and the phrases.
pub fn build_leaf(alloc: Global, schema: &Schema, form: Form<'_>) -> Result<AnyQuery, Fault> {
    match form.name {
        "all" => Ok(AnyQuery::All(AllQuery)),
        "none" => Ok(AnyQuery::Empty(EmptyQuery)),
        "term" => build_term(alloc, schema, form, IndexRecordOption::WithFreqs),
        "basic" => build_term(alloc, schema, form, IndexRecordOption::Basic),
        "multiterms" => build_multiterms(alloc, schema, form),
        "phrase" => build_phrase(alloc, schema, form),
        "phraseat" => build_placed_phrase(alloc, schema, form),
        "prefix" => build_prefix(alloc, schema, form),
        _ => build_placed_prefix(alloc, schema, form),
    }
}

fn build_term(
    alloc: Global,
    schema: &Schema,
    form: Form<'_>,
    option: IndexRecordOption,
) -> Result<AnyQuery, Fault> {
    let term = read_term(alloc, schema, word(form.words, 0))?;
    Ok(AnyQuery::Term(TermQuery::new(term, option)))
}

// Whether so many words, or pairs of words, stand behind their number.
fn are_counted(words: &[&str], at: usize, count: usize) -> bool {
    match number(words, at) {
        Some(number) => number as usize == count,
        None => false,
    }
}

// The terms of words.
fn read_terms(alloc: Global, schema: &Schema, words: &[&str]) -> Result<Vec<Term>, Fault> {
    let mut terms = Vec::new(alloc);
    // the terms of the words before this one are there
    for word in words {
        terms.push(read_term(alloc, schema, word)?)?;
    }
    Ok(terms)
}

fn build_multiterms(alloc: Global, schema: &Schema, form: Form<'_>) -> Result<AnyQuery, Fault> {
    let terms = read_terms(alloc, schema, behind(form.words, 1))?;
    if !are_counted(form.words, 0, terms.len()) {
        return Err(Fault::NotUnderstood);
    }
    form.memory.begin(alloc);
    let made = BooleanQuery::new_multiterms_query(alloc, terms);
    end_refusals(alloc);
    Ok(AnyQuery::Boolean(made?))
}

// `phrase SLOP N W ..`; where SLOP is `default`, none is set.
fn build_phrase(alloc: Global, schema: &Schema, form: Form<'_>) -> Result<AnyQuery, Fault> {
    let terms = read_terms(alloc, schema, behind(form.words, 2))?;
    if !are_counted(form.words, 1, terms.len()) {
        return Err(Fault::NotUnderstood);
    }
    form.memory.begin(alloc);
    let made = PhraseQuery::new(alloc, terms);
    end_refusals(alloc);
    let mut query = made?;
    if let Some(slop) = number(form.words, 0) {
        query.set_slop(slop);
    }
    Ok(AnyQuery::Phrase(query))
}

// `phraseat SLOP N OFFSET W ..`; where SLOP is `default`, by the call that has none.
fn build_placed_phrase(alloc: Global, schema: &Schema, form: Form<'_>) -> Result<AnyQuery, Fault> {
    let terms = read_placed(alloc, schema, behind(form.words, 2), usize::MAX)?;
    if !are_counted(form.words, 1, terms.len()) {
        return Err(Fault::NotUnderstood);
    }
    form.memory.begin(alloc);
    let made = match number(form.words, 0) {
        Some(slop) => PhraseQuery::new_with_offset_and_slop(alloc, terms, slop),
        None => PhraseQuery::new_with_offset(alloc, terms),
    };
    end_refusals(alloc);
    Ok(AnyQuery::Phrase(made?))
}

// `prefix MAX N W ..`; where MAX is `default`, none is set.
fn build_prefix(alloc: Global, schema: &Schema, form: Form<'_>) -> Result<AnyQuery, Fault> {
    let terms = read_terms(alloc, schema, behind(form.words, 2))?;
    if !are_counted(form.words, 1, terms.len()) {
        return Err(Fault::NotUnderstood);
    }
    form.memory.begin(alloc);
    let made = PhrasePrefixQuery::new(alloc, terms);
    end_refusals(alloc);
    let mut query = made?;
    if let Some(most) = number(form.words, 0) {
        query.set_max_expansions(most);
    }
    Ok(AnyQuery::PhrasePrefix(query))
}

// `prefixat MAX N OFFSET W ..`; where MAX is `default`, none is set.
fn build_placed_prefix(alloc: Global, schema: &Schema, form: Form<'_>) -> Result<AnyQuery, Fault> {
    let terms = read_placed(alloc, schema, behind(form.words, 2), usize::MAX)?;
    if !are_counted(form.words, 1, terms.len()) {
        return Err(Fault::NotUnderstood);
    }
    form.memory.begin(alloc);
    let made = PhrasePrefixQuery::new_with_offset(alloc, terms);
    end_refusals(alloc);
    let mut query = made?;
    if let Some(most) = number(form.words, 0) {
        query.set_max_expansions(most);
    }
    Ok(AnyQuery::PhrasePrefix(query))
}
