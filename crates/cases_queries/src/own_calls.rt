//! Calls of a kind of queries itself, and not of the type that is any of them.

use crate::ask_query::{Question, ask_query, box_clone_of};
use cases::{Done, Fault, Listing, Memory};
use qm_query::AnyQuery;
use std::alloc::Global;

/// Which type's call a row makes.
#[derive(Clone, Copy)]
pub enum Through {
    /// that of the type of any kind
    Any,
    /// that of the kind: `own`
    Own,
    /// that of the box of any kind: `boxed`
    Boxed,
}

/// Which type's call a row makes, and the call.
pub fn read_through(call: &str) -> (Through, &str) {
    if let Some(rest) = call.strip_prefix("own ") {
        return (Through::Own, rest);
    }
    match call.strip_prefix("boxed ") {
        Some(rest) => (Through::Boxed, rest),
        None => (Through::Any, call),
    }
}

/// Writes what the kind that a query is answers to a call.
pub fn ask_kind_of_query(
    alloc: Global,
    asked: Question<'_>,
    query: &AnyQuery,
    text: &mut Listing,
) -> Done {
    match query {
        AnyQuery::All(kind) => ask_query(alloc, asked, kind, text),
        AnyQuery::Empty(kind) => ask_query(alloc, asked, kind, text),
        AnyQuery::Term(kind) => ask_query(alloc, asked, kind, text),
        AnyQuery::Phrase(kind) => ask_query(alloc, asked, kind, text),
        AnyQuery::PhrasePrefix(kind) => ask_query(alloc, asked, kind, text),
        AnyQuery::Boolean(kind) => ask_query(alloc, asked, kind, text),
        AnyQuery::Boost(kind) => ask_query(alloc, asked, kind, text),
        AnyQuery::ConstScore(kind) => ask_query(alloc, asked, kind, text),
        AnyQuery::DisjunctionMax(kind) => ask_query(alloc, asked, kind, text),
    }
}

/// A clone of a query, by the call that its kind has for it.
pub fn box_clone_of_kind(
    alloc: Global,
    query: &AnyQuery,
    memory: Memory,
) -> Result<Box<AnyQuery>, Fault> {
    match query {
        AnyQuery::All(kind) => box_clone_of(alloc, kind, memory),
        AnyQuery::Empty(kind) => box_clone_of(alloc, kind, memory),
        AnyQuery::Term(kind) => box_clone_of(alloc, kind, memory),
        AnyQuery::Phrase(kind) => box_clone_of(alloc, kind, memory),
        AnyQuery::PhrasePrefix(kind) => box_clone_of(alloc, kind, memory),
        AnyQuery::Boolean(kind) => box_clone_of(alloc, kind, memory),
        AnyQuery::Boost(kind) => box_clone_of(alloc, kind, memory),
        AnyQuery::ConstScore(kind) => box_clone_of(alloc, kind, memory),
        AnyQuery::DisjunctionMax(kind) => box_clone_of(alloc, kind, memory),
    }
}
