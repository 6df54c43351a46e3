//! Weights of clauses that are terms.

use crate::combiners::{combiner_len, read_combiner};
use cases::{Fault, behind, score, word};
use cases_given::read_term;
use qm_postings::{Bm25StatisticsProvider, Searcher};
use qm_schema::{IndexRecordOption, Occur, Schema};
use qm_weight::{AnyWeight, TermClause, TermsWeight};
use std::alloc::Global;

/// The weight of `COMBINER MIN SCORED W WEIGHT ..`, of which SCORED is `on` or `off`. Each W begins with its sign, and a
/// WEIGHT with `basic:` where the term is read without frequencies.
pub fn terms_weight(
    alloc: Global,
    searcher: &Searcher,
    words: &[&str],
) -> Result<AnyWeight, Fault> {
    let combiner = read_combiner(words)?;
    let rest = behind(words, combiner_len(words));
    let clauses = read_clauses(alloc, searcher.schema(), behind(rest, 2))?;
    let is_scored = word(rest, 1) == "on";
    match word(rest, 0).parse::<usize>() {
        Ok(minimum) => Ok(AnyWeight::Terms(TermsWeight::new(
            clauses,
            searcher.norms(),
            minimum,
            is_scored,
            combiner,
        ))),
        Err(_) => Err(Fault::NotUnderstood),
    }
}

fn read_clauses(alloc: Global, schema: &Schema, words: &[&str]) -> Result<Vec<TermClause>, Fault> {
    let mut clauses = Vec::new(alloc);
    let mut signed: Option<&str> = None;
    // the clauses before this word are there, and `signed` is the term that waits for its weight, if any
    for word in words {
        match signed {
            None => signed = Some(*word),
            Some(term) => {
                clauses.push(read_clause(alloc, schema, term, word)?)?;
                signed = None;
            }
        }
    }
    Ok(clauses)
}

fn read_clause(
    alloc: Global,
    schema: &Schema,
    signed: &str,
    weight: &str,
) -> Result<TermClause, Fault> {
    let (occur, term) = read_sign(signed)?;
    let (option, number) = match weight.strip_prefix("basic:") {
        Some(number) => (IndexRecordOption::Basic, number),
        None => (IndexRecordOption::WithFreqs, weight),
    };
    match score(&[number], 0) {
        Some(weight) => {
            Ok(TermClause::new(occur, read_term(alloc, schema, term)?, option, weight))
        }
        None => Err(Fault::NotUnderstood),
    }
}

// How a term with a sign before it occurs, and the term.
fn read_sign(signed: &str) -> Result<(Occur, &str), Fault> {
    if let Some(term) = signed.strip_prefix('+') {
        return Ok((Occur::Must, term));
    }
    if let Some(term) = signed.strip_prefix('-') {
        return Ok((Occur::MustNot, term));
    }
    match signed.strip_prefix('?') {
        Some(term) => Ok((Occur::Should, term)),
        None => Err(Fault::NotUnderstood),
    }
}
