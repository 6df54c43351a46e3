//! Weights in front form.

use crate::weight_nodes::build_weight;
use cases::{Fault, Memory};
use cases_given::{Clause, Form, Language, read_front};
use qm_postings::Searcher;
use qm_weight::AnyWeight;
use std::alloc::Global;

/// The weight that words spell.
pub fn read_weight(
    alloc: Global,
    searcher: &Searcher,
    words: &[&str],
) -> Result<Box<AnyWeight>, Fault> {
    let language = WeightLanguage { searcher };
    read_front(alloc, &language, words, Memory::Ample)
}

// The words of weights over a searcher.
#[derive(Clone, Copy)]
struct WeightLanguage<'a> {
    searcher: &'a Searcher,
}

impl<'a> Language<AnyWeight> for WeightLanguage<'a> {
    fn is_name(&self, word: &str) -> bool {
        match word {
            "all"
            | "none"
            | "term"
            | "basic"
            | "phrase"
            | "prefix"
            | "words"
            | "terms"
            | "bool"
            | "clauses"
            | "boost"
            | "const" => true,
            _ => false,
        }
    }

    fn build(
        &self,
        alloc: Global,
        form: Form<'_>,
        made: &mut Vec<Clause<AnyWeight>>,
    ) -> Result<Box<AnyWeight>, Fault> {
        let weight = build_weight(alloc, self.searcher, form, made)?;
        Ok(Box::new(alloc, weight)?)
    }
}
