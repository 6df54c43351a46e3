//! Queries in front form.

use crate::query_clauses::{build_best, build_boolean, build_over, build_union};
use crate::query_leaves::build_leaf;
use cases::{Fault, Memory};
use cases_given::{Clause, Form, Language, read_front};
use qm_query::AnyQuery;
use qm_schema::Schema;
use std::alloc::Global;

/// The query that words spell, with some requests for memory refused as it is made and none as what stands
/// inside is.
pub fn read_query(
    alloc: Global,
    schema: &Schema,
    words: &[&str],
    memory: Memory,
) -> Result<Box<AnyQuery>, Fault> {
    let language = QueryLanguage { schema };
    read_front(alloc, &language, words, memory)
}

// The words of queries of a schema's fields.
#[derive(Clone, Copy)]
struct QueryLanguage<'a> {
    schema: &'a Schema,
}

impl<'a> Language<AnyQuery> for QueryLanguage<'a> {
    fn is_name(&self, word: &str) -> bool {
        match word {
            "all"
            | "none"
            | "term"
            | "basic"
            | "phrase"
            | "phraseat"
            | "prefix"
            | "prefixat"
            | "bool"
            | "clauses"
            | "from"
            | "intersection"
            | "union"
            | "unionmin"
            | "multiterms"
            | "boost"
            | "const"
            | "max"
            | "best" => true,
            _ => false,
        }
    }

    fn build(
        &self,
        alloc: Global,
        form: Form<'_>,
        made: &mut Vec<Clause<AnyQuery>>,
    ) -> Result<Box<AnyQuery>, Fault> {
        let query = build_query(alloc, self.schema, form, made)?;
        Ok(Box::new(alloc, query)?)
    }
}

// The query of a form, over queries that are made.
fn build_query(
    alloc: Global,
    schema: &Schema,
    form: Form<'_>,
    clauses: &mut Vec<Clause<AnyQuery>>,
) -> Result<AnyQuery, Fault> {
    match form.name {
        "bool" | "clauses" | "from" => build_boolean(alloc, form, clauses),
        "intersection" | "union" | "unionmin" => build_union(alloc, form, clauses),
        "boost" | "const" => build_over(form, clauses),
        "max" | "best" => build_best(alloc, form, clauses),
        _ => build_leaf(alloc, schema, form),
    }
}
