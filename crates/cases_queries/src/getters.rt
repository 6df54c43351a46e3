//! What queries say of themselves.

use cases::{Done, Fault, Listing, Memory, end_refusals};
use qm_query::{AnyQuery, BooleanQuery, Query};
use qm_schema::{Occur, QueryError, Term};
use std::alloc::Global;

/// Writes what a call answers: `minimum`, `signs`, `field`, `term` or `phrase_terms`.
pub fn get(
    alloc: Global,
    query: &AnyQuery,
    call: &str,
    memory: Memory,
    text: &mut Listing,
) -> Done {
    match (query, call) {
        (AnyQuery::Boolean(query), "minimum") => {
            Ok(text.add(query.get_minimum_number_should_match()))
        }
        (AnyQuery::Boolean(query), "signs") => Ok(write_signs(query, text)),
        (AnyQuery::Term(query), "term") => Ok(write_term(query.term(), text)),
        (AnyQuery::Phrase(query), "field") => Ok(text.add(query.field().field_id())),
        (AnyQuery::PhrasePrefix(query), "field") => Ok(text.add(query.field().field_id())),
        (_, "phrase_terms") => write_phrase_terms(alloc, query, memory, text),
        _ => Err(Fault::NotUnderstood),
    }
}

/// The terms that the query names, each with whether its positions are wanted.
pub fn write_named<Q: Query>(alloc: Global, query: &Q, memory: Memory, text: &mut Listing) {
    memory.begin(alloc);
    query.query_terms(&mut |term: &Term, positions_wanted: bool| {
        write_term(term, text);
        write!(text, ":{positions_wanted}")
    });
    end_refusals(alloc);
}

fn write_signs(query: &BooleanQuery, text: &mut Listing) {
    // the signs of the clauses before this one are written
    for clause in query.clauses() {
        text.add(match clause.0 {
            Occur::Must => '+',
            Occur::Should => '?',
            Occur::MustNot => '-',
        });
    }
}

fn write_phrase_terms(alloc: Global, query: &AnyQuery, memory: Memory, text: &mut Listing) -> Done {
    memory.begin(alloc);
    let terms = phrase_terms(alloc, query);
    end_refusals(alloc);
    match terms {
        None => Err(Fault::NotUnderstood),
        Some(Err(error)) => Err(Fault::Refused(error)),
        Some(Ok(terms)) => {
            // the terms before this one are written
            for term in &terms {
                write_term(term, text);
            }
            Ok(())
        }
    }
}

fn phrase_terms(alloc: Global, query: &AnyQuery) -> Option<Result<Vec<Term>, QueryError>> {
    match query {
        AnyQuery::Phrase(query) => Some(query.phrase_terms(alloc)),
        AnyQuery::PhrasePrefix(query) => Some(query.phrase_terms(alloc)),
        _ => None,
    }
}

// Writes the text of a term behind what stands there.
fn write_term(term: &Term, text: &mut Listing) {
    text.space();
    text.bytes(term.serialized_value_bytes());
}
