//! Queries over queries.

use cases::{Fault, end_refusals, number, score, word};
use cases_given::{Clause, Form, take_clause, take_clauses};
use qm_query::{AnyQuery, BooleanQuery, BoostQuery, ConstScoreQuery, DisjunctionMaxQuery};
use std::alloc::Global;

/// `boost K Q` or `const S Q`.
pub fn build_over(form: Form<'_>, clauses: &mut Vec<Clause<AnyQuery>>) -> Result<AnyQuery, Fault> {
    let Some(factor) = score(form.words, 0) else {
        return Err(Fault::NotUnderstood);
    };
    let inner = take_clause(clauses)?;
    if form.name == "boost" {
        Ok(AnyQuery::Boost(BoostQuery::new(inner, factor)))
    } else {
        Ok(AnyQuery::ConstScore(ConstScoreQuery::new(inner, factor)))
    }
}

/// `bool MIN N SIGN Q ..`, or `clauses N SIGN Q ..` and `from N SIGN Q ..`, which have no minimum of their
/// own.
pub fn build_boolean(
    alloc: Global,
    form: Form<'_>,
    clauses: &mut Vec<Clause<AnyQuery>>,
) -> Result<AnyQuery, Fault> {
    let is_given = form.name == "bool";
    let count = number(form.words, if is_given { 1 } else { 0 });
    // where there is no minimum, the number of clauses stands in its place
    let (Some(count), Ok(minimum)) = (count, word(form.words, 0).parse::<usize>()) else {
        return Err(Fault::NotUnderstood);
    };
    let taken = take_clauses(alloc, clauses, count)?;
    Ok(AnyQuery::Boolean(match form.name {
        "clauses" => BooleanQuery::new(taken),
        "from" => BooleanQuery::from(taken),
        _ => BooleanQuery::with_minimum_required_clauses(taken, minimum),
    }))
}

/// `intersection N Q..`, `union N Q..` or `unionmin MIN N Q..`.
pub fn build_union(
    alloc: Global,
    form: Form<'_>,
    clauses: &mut Vec<Clause<AnyQuery>>,
) -> Result<AnyQuery, Fault> {
    let is_given = form.name == "unionmin";
    let count = number(form.words, if is_given { 1 } else { 0 }).ok_or(Fault::NotUnderstood)?;
    let minimum = word(form.words, 0).parse::<usize>().unwrap_or(0);
    let queries = take_queries(alloc, clauses, count)?;
    form.memory.begin(alloc);
    let made = match form.name {
        "intersection" => BooleanQuery::intersection(alloc, queries),
        "union" => BooleanQuery::union(alloc, queries),
        _ => BooleanQuery::union_with_minimum_required_clauses(alloc, queries, minimum),
    };
    end_refusals(alloc);
    Ok(AnyQuery::Boolean(made?))
}

/// `max TIE N Q..`, or `best N Q..`, which has no tie breaker of its own.
pub fn build_best(
    alloc: Global,
    form: Form<'_>,
    clauses: &mut Vec<Clause<AnyQuery>>,
) -> Result<AnyQuery, Fault> {
    let is_given = form.name == "max";
    let (Some(tie_breaker), Some(count)) = (
        number(form.words, 0),
        number(form.words, if is_given { 1 } else { 0 }),
    ) else {
        return Err(Fault::NotUnderstood);
    };
    let queries = take_queries(alloc, clauses, count)?;
    if is_given {
        let made = DisjunctionMaxQuery::with_tie_breaker(queries, tie_breaker)?;
        Ok(AnyQuery::DisjunctionMax(made))
    } else {
        Ok(AnyQuery::DisjunctionMax(DisjunctionMaxQuery::new(queries)))
    }
}

// The queries that were made last, so many, in order.
fn take_queries(
    alloc: Global,
    clauses: &mut Vec<Clause<AnyQuery>>,
    count: u32,
) -> Result<Vec<Box<AnyQuery>>, Fault> {
    let mut taken = Vec::new(alloc);
    // as many clauses are taken as there were turns
    for _ in 0..count {
        taken.push(take_clause(clauses)?)?;
    }
    Ok(taken)
}
