//! Reading a query from the words of a line.

ghost use Rattle.std.specs.Prelude.{◌≡◌, map};
ghost use Rattle.qm_script.specs.Cursor.{words_left};
ghost use Rattle.qm_script.specs.Script.{behind_form, boolean_at, boost_at, clause_at, constant_at, disjunction_max_at, form_at, many_at, phrase_at};
ghost use Rattle.qm_script.specs.Script.{phrase_prefix_at, query_at, term_query_at};
ghost use Rattle.qm_script.specs.Spelled.{Reads, spelled_clause, query_of};

use crate::form::{QueryForm, query_form};
use crate::spelled_query::SpelledQuery;
use crate::unparsed::Unparsed;
use crate::words::Words;
use qm_schema::Occur;
use std::alloc::Global;

/// A query that is at most `depth` deep.
#[cycle(reading)]
pub(crate) fn read_query(
    alloc: Global,
    words: &mut Words<'_>,
    depth: u32,
) -> Result<SpelledQuery, Unparsed>
    ensures { Reads query_of result (words_left words.new) (query_at depth (words_left words.old)) }
{
    if depth == 0 {
        return Err(Unparsed::NotUnderstood);
    }
    read_form(alloc, words, depth - 1)
}

// A query whose inner queries are at most `depth` deep.
#[cycle(reading)]
#[tactic(auto, unfolding(crate::specs::Script::form_at))]
fn read_form(alloc: Global, words: &mut Words<'_>, depth: u32) -> Result<SpelledQuery, Unparsed>
    ensures { Reads query_of result (words_left words.new) (form_at (query_at depth) (words_left words.old)) }
{
    match query_form(words.word()?) {
        Some(form) => read_behind_form(alloc, words, form, depth),
        None => Err(Unparsed::NotUnderstood),
    }
}

// What stands behind the first word of a query, whose inner queries are at most `depth` deep.
#[cycle(reading)]
#[tactic(auto, unfolding(crate::specs::Script::behind_form))]
fn read_behind_form(
    alloc: Global,
    words: &mut Words<'_>,
    form: QueryForm,
    depth: u32,
) -> Result<SpelledQuery, Unparsed>
    ensures { Reads query_of result (words_left words.new) (behind_form (query_at depth) form (words_left words.old)) }
{
    match form {
        QueryForm::All => Ok(SpelledQuery::All),
        QueryForm::Empty => Ok(SpelledQuery::Empty),
        QueryForm::Term => read_term(alloc, words),
        QueryForm::Phrase => read_phrase(alloc, words),
        QueryForm::PhrasePrefix => read_phrase_prefix(alloc, words),
        QueryForm::Boolean => read_boolean(alloc, words, depth),
        QueryForm::Boost => read_boost(alloc, words, depth),
        QueryForm::Const => read_constant(alloc, words, depth),
        QueryForm::DisjunctionMax => read_disjunction_max(alloc, words, depth),
    }
}

#[tactic(auto, unfolding(crate::specs::Script::term_query_at))]
fn read_term(alloc: Global, words: &mut Words<'_>) -> Result<SpelledQuery, Unparsed>
    ensures { Reads query_of result (words_left words.new) (term_query_at (words_left words.old)) }
{
    Ok(SpelledQuery::Term(words.text(alloc)?))
}

#[tactic(auto, unfolding(crate::specs::Script::phrase_at))]
fn read_phrase(alloc: Global, words: &mut Words<'_>) -> Result<SpelledQuery, Unparsed>
    ensures { Reads query_of result (words_left words.new) (phrase_at (words_left words.old)) }
{
    let slop = words.count()?;
    let count = words.count()?;
    let words = words.texts(alloc, count)?;
    Ok(SpelledQuery::Phrase { slop, words })
}

#[tactic(auto, unfolding(crate::specs::Script::phrase_prefix_at))]
fn read_phrase_prefix(alloc: Global, words: &mut Words<'_>) -> Result<SpelledQuery, Unparsed>
    ensures { Reads query_of result (words_left words.new) (phrase_prefix_at (words_left words.old)) }
{
    let max_expansions = words.count()?;
    let count = words.count()?;
    let words = words.texts(alloc, count)?;
    Ok(SpelledQuery::PhrasePrefix {
        max_expansions,
        words,
    })
}

#[cycle(reading)]
#[tactic(auto, unfolding(crate::specs::Script::boolean_at))]
fn read_boolean(alloc: Global, words: &mut Words<'_>, depth: u32) -> Result<SpelledQuery, Unparsed>
    ensures { Reads query_of result (words_left words.new) (boolean_at (query_at depth) (words_left words.old)) }
{
    let minimum = words.count()?;
    let count = words.count()?;
    let clauses = read_clauses(alloc, words, depth, count)?;
    Ok(SpelledQuery::Boolean { minimum, clauses })
}

// As many clauses as the count says.
#[cycle(reading)]
fn read_clauses(
    alloc: Global,
    words: &mut Words<'_>,
    depth: u32,
    count: u32,
) -> Result<Vec<(Occur, SpelledQuery)>, Unparsed>
    ensures { Reads (λ v. map spelled_clause v.items) result (words_left words.new) (many_at (clause_at (query_at depth)) count (words_left words.old)) }
{
    let mut clauses = Vec::new(alloc);
    // the clauses before this one are read
    for _ in 0..count {
        let clause = read_clause(alloc, words, depth)?;
        clauses.push(clause)?;
    }
    Ok(clauses)
}

#[cycle(reading)]
#[tactic(auto, unfolding(crate::specs::Script::clause_at))]
fn read_clause(
    alloc: Global,
    words: &mut Words<'_>,
    depth: u32,
) -> Result<(Occur, SpelledQuery), Unparsed>
    ensures { Reads spelled_clause result (words_left words.new) (clause_at (query_at depth) (words_left words.old)) }
{
    let occur = words.sign()?;
    let query = read_query(alloc, words, depth)?;
    Ok((occur, query))
}

#[cycle(reading)]
#[tactic(auto, unfolding(crate::specs::Script::boost_at))]
fn read_boost(alloc: Global, words: &mut Words<'_>, depth: u32) -> Result<SpelledQuery, Unparsed>
    ensures { Reads query_of result (words_left words.new) (boost_at (query_at depth) (words_left words.old)) }
{
    let factor = words.score()?;
    let query = read_query(alloc, words, depth)?;
    Ok(SpelledQuery::Boost(factor, Box::new(alloc, query)?))
}

#[cycle(reading)]
#[tactic(auto, unfolding(crate::specs::Script::constant_at))]
fn read_constant(alloc: Global, words: &mut Words<'_>, depth: u32) -> Result<SpelledQuery, Unparsed>
    ensures { Reads query_of result (words_left words.new) (constant_at (query_at depth) (words_left words.old)) }
{
    let score = words.score()?;
    let query = read_query(alloc, words, depth)?;
    Ok(SpelledQuery::Const(score, Box::new(alloc, query)?))
}

#[cycle(reading)]
#[tactic(auto, unfolding(crate::specs::Script::disjunction_max_at))]
fn read_disjunction_max(
    alloc: Global,
    words: &mut Words<'_>,
    depth: u32,
) -> Result<SpelledQuery, Unparsed>
    ensures { Reads query_of result (words_left words.new) (disjunction_max_at (query_at depth) (words_left words.old)) }
{
    let tie_breaker = words.count()?;
    let count = words.count()?;
    let disjuncts = read_disjuncts(alloc, words, depth, count)?;
    Ok(SpelledQuery::DisjunctionMax {
        tie_breaker,
        disjuncts,
    })
}

// As many queries as the count says.
#[cycle(reading)]
fn read_disjuncts(
    alloc: Global,
    words: &mut Words<'_>,
    depth: u32,
    count: u32,
) -> Result<Vec<SpelledQuery>, Unparsed>
    ensures { Reads (λ v. map query_of v.items) result (words_left words.new) (many_at (query_at depth) count (words_left words.old)) }
{
    let mut disjuncts = Vec::new(alloc);
    // the queries before this one are read
    for _ in 0..count {
        let query = read_query(alloc, words, depth)?;
        disjuncts.push(query)?;
    }
    Ok(disjuncts)
}
