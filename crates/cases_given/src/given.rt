//! Rows of `given`.

ghost use Rattle.std.specs.Prelude.{◌≤ℤ◌, All, IfOk, pos};

use crate::alive::read_alive;
use crate::documents::read_segments;
use crate::schema_rows::read_schema;
use crate::terms::read_term;
use crate::world::{Manner, World};
use cases::{Done, Fault, Report, Row, number, score, word, words_of};
use qm_docset::Score;
use qm_postings::Searcher;
use qm_schema::{Schema, Term};
use std::alloc::Global;
use std::array;

// what a term weighs where nothing else is said
const WEIGHT: Score = 1000;

/// What the rows of `given` make.
pub fn read_world(alloc: Global, rows: &[Row<'_>], report: &mut Report) -> Result<World, Fault> {
    check_names(rows, report);
    let manner = read_manner(alloc, rows)?;
    let searcher = read_searcher(alloc, rows, report)?;
    match read_alive(alloc, rows, searcher.segment_readers()) {
        Ok(alive) => Ok(World {
            searcher,
            alive,
            manner,
        }),
        Err(fault) => Err(fault),
    }
}

// Reports rows that say nothing.
fn check_names(rows: &[Row<'_>], report: &mut Report) {
    // the rows before this one that say nothing are reported
    for row in rows {
        if !is_name(first_word(row.call)) || !row.wanted.is_empty() {
            report.wrong(row.line, "not understood");
        }
    }
}

fn is_name(word: &str) -> bool {
    match word {
        "field"
        | "blocks"
        | "doc"
        | "docs"
        | "delete"
        | "segment"
        | "weight"
        | "default"
        | "norms"
        | "alive"
        | "provider" => true,
        _ => false,
    }
}

/// The first word of a row.
pub fn first_word<'a>(call: &'a str) -> &'a str {
    match call.split_once(' ') {
        Some((first, _)) => first,
        None => call,
    }
}

/// The words of the first row of a name, from its name on; none where there is no such row.
pub fn row_of<'a>(alloc: Global, rows: &[Row<'a>], name: &str) -> Result<Vec<&'a str>, Fault> {
    // no row before this one has the name
    for row in rows {
        if first_word(row.call) == name {
            return Ok(words_of(alloc, row.call)?);
        }
    }
    Ok(Vec::new(alloc))
}

fn read_manner(alloc: Global, rows: &[Row<'_>]) -> Result<Manner, Fault> {
    let words = row_of(alloc, rows, "provider")?;
    match word(&words, 1) {
        "" => Ok(Manner::Searcher),
        "counts" => Ok(Manner::Counts),
        "answers" => match number(&words, 2) {
            Some(code) => Ok(Manner::Answers(code)),
            None => Err(Fault::NotUnderstood),
        },
        _ => Err(Fault::NotUnderstood),
    }
}

// The searcher of rows, whose segments are made last, so that nothing else is refused while they are held.
fn read_searcher(alloc: Global, rows: &[Row<'_>], report: &mut Report) -> Result<Searcher, Fault> {
    let default_weight = read_default(alloc, rows)?;
    let norms = read_norms(alloc, rows)?;
    let schema = read_schema(alloc, rows)?;
    let weights = read_weights(alloc, &schema, rows)?;
    let segments = read_segments(alloc, &schema, rows, report)?;
    Ok(Searcher::new(alloc, schema, segments, weights, default_weight, norms)?)
}

// The rows `weight W N`.
fn read_weights(
    alloc: Global,
    schema: &Schema,
    rows: &[Row<'_>],
) -> Result<Vec<(Term, Score)>, Fault>
    ensures { IfOk result (λ weights. All (λ w. pos 0 ≤ℤ w.1) weights.items) }
{
    let mut weights = Vec::new(alloc);
    // no weight that was read is below 0
    for row in rows {
        add_weight(alloc, schema, row, &mut weights)?;
    }
    Ok(weights)
}

// Adds what a row `weight W N` says.
fn add_weight(
    alloc: Global,
    schema: &Schema,
    row: &Row<'_>,
    weights: &mut Vec<(Term, Score)>,
) -> Done
    requires { All (λ w. pos 0 ≤ℤ w.1) weights.old.items }
    ensures { All (λ w. pos 0 ≤ℤ w.1) weights.new.items }
{
    if first_word(row.call) != "weight" {
        return Ok(());
    }
    let words = words_of(alloc, row.call)?;
    let term = read_term(alloc, schema, word(&words, 1))?;
    match score(&words, 2) {
        Some(weight) => Ok(weights.push((term, weight))?),
        None => Err(Fault::NotUnderstood),
    }
}

fn read_default(alloc: Global, rows: &[Row<'_>]) -> Result<Score, Fault>
    ensures { IfOk result (λ weight. pos 0 ≤ℤ weight) }
{
    let words = row_of(alloc, rows, "default")?;
    if words.is_empty() {
        return Ok(WEIGHT);
    }
    match score(&words, 1) {
        Some(weight) => Ok(weight),
        None => Err(Fault::NotUnderstood),
    }
}

// The row `norms`: the norm of each length id, of which the last is that of all behind it.
fn read_norms(alloc: Global, rows: &[Row<'_>]) -> Result<[u32; 256], Fault> {
    let words = row_of(alloc, rows, "norms")?;
    if words.is_empty() || word(&words, 1) == "same" {
        return Ok(array::from_fn(|id| id as u32));
    }
    let mut norms = [0; 256];
    let mut last = 0;
    // the length ids before this one have their norms, of which `last` is the last
    for (id, norm) in norms.iter_mut().enumerate() {
        last = number(&words, id.saturating_add(1)).unwrap_or(last);
        *norm = last;
    }
    Ok(norms)
}
