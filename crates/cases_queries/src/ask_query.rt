//! Rows on a query.

use crate::changes::change;
use crate::getters::{get, write_named};
use crate::kinds::kind_of_weight;
use crate::own_calls::{Through, ask_kind_of_query, box_clone_of_kind, read_through};
use crate::top::{write_top, write_top_scored};
use crate::weigh::{Scales, specialize, weigh};
use cases::{Asker, Done, Fault, Listing, Memory, end_refusals, number, words_of};
use cases_given::{World, ask_weight, first_word, read_number, run_each, write_values};
use qm_postings::DocAddress;
use qm_query::{AnyQuery, Query, QueryClone};
use qm_weight::AnyWeight;
use std::alloc::Global;
use std::mem;

/// Rows on a query.
#[derive(Drop)]
pub struct QueryAsker<'a> {
    pub scales: Scales<'a>,
    pub query: Box<AnyQuery>,
    /// what the query is a clone of
    pub original: Option<Box<AnyQuery>>,
    /// the segment that is asked
    pub segment: u32,
}

/// What a row asks of a query.
#[derive(Clone, Copy)]
pub struct Question<'a> {
    pub scales: Scales<'a>,
    /// the segment that is asked
    pub segment: u32,
    pub call: &'a str,
    pub memory: Memory,
}

impl<'a> Asker for QueryAsker<'a> {
    fn ask(&mut self, alloc: Global, call: &str, memory: Memory, text: &mut Listing) -> Done {
        match first_word(call) {
            "own" | "boxed" => self.ask_of_type(alloc, call, memory, text),
            "segment" => {
                self.segment = read_number(call.strip_prefix("segment ").unwrap_or(""))?;
                Ok(())
            }
            "clone" | "box_clone" => self.clone_query(alloc, Through::Any, call, memory),
            "original" => self.swap_original(),
            "same" => self.compare(alloc, text),
            "set_minimum" | "set_slop" | "set_max_expansions" => change(&mut self.query, call),
            "minimum" | "signs" | "field" | "term" | "phrase_terms" => {
                get(alloc, &self.query, call, memory, text)
            }
            "asked" => Ok(write!(text, "{}", self.scales.asked.get())),
            "specialized" => self.ask_specialized(alloc, memory, text),
            _ => self.ask_through(alloc, Through::Any, call, memory, text),
        }
    }
}

impl<'a> QueryAsker<'a> {
    // `own CALL` or `boxed CALL`
    fn ask_of_type(
        &mut self,
        alloc: Global,
        call: &str,
        memory: Memory,
        text: &mut Listing,
    ) -> Done {
        let (through, call) = read_through(call);
        match call {
            "clone" | "box_clone" => self.clone_query(alloc, through, call, memory),
            _ => self.ask_through(alloc, through, call, memory, text),
        }
    }

    // Writes what the query answers to a call of that type.
    fn ask_through(
        &self,
        alloc: Global,
        through: Through,
        call: &str,
        memory: Memory,
        text: &mut Listing,
    ) -> Done {
        let asked = Question {
            scales: self.scales,
            segment: self.segment,
            call,
            memory,
        };
        match through {
            Through::Any => ask_query(alloc, asked, &*self.query, text),
            Through::Own => ask_kind_of_query(alloc, asked, &self.query, text),
            Through::Boxed => ask_query(alloc, asked, &self.query, text),
        }
    }

    // Writes what the specialized weight of a term finds.
    fn ask_specialized(&self, alloc: Global, memory: Memory, text: &mut Listing) -> Done {
        let segment = self.scales.world.segment(self.segment)?;
        let weight = specialize(alloc, self.scales, &self.query, memory)?;
        run_each(alloc, segment, &*weight, Memory::Ample, text)
    }

    // From now on the rows are on a clone of the query.
    fn clone_query(&mut self, alloc: Global, through: Through, call: &str, memory: Memory) -> Done {
        let copy = match (call, through) {
            ("clone", Through::Any) => clone_of(alloc, &self.query, memory)?,
            ("box_clone", Through::Any) => box_clone_of(alloc, &*self.query, memory)?,
            ("box_clone", Through::Own) => box_clone_of_kind(alloc, &self.query, memory)?,
            ("box_clone", Through::Boxed) => box_clone_of(alloc, &self.query, memory)?,
            _ => return Err(Fault::NotUnderstood),
        };
        self.original = Some(mem::replace(&mut self.query, copy));
        Ok(())
    }

    // From now on the rows are on what the query is a clone of, and the clone is kept.
    fn swap_original(&mut self) -> Done {
        match self.original.as_mut() {
            Some(original) => {
                mem::swap(original, &mut self.query);
                Ok(())
            }
            None => Err(Fault::NotAllowed),
        }
    }

    // Whether the query and its original are printed alike.
    fn compare(&self, alloc: Global, text: &mut Listing) -> Done {
        let Some(original) = &self.original else {
            return Err(Fault::NotAllowed);
        };
        let query = &self.query;
        let first = format!(in alloc; "{query:?}")?;
        let second = format!(in alloc; "{original:?}")?;
        let is_same = first.as_str() == second.as_str();
        Ok(write!(text, "{is_same}"))
    }
}

// A clone of a query, by its own call.
fn clone_of(alloc: Global, query: &AnyQuery, memory: Memory) -> Result<Box<AnyQuery>, Fault> {
    memory.begin(alloc);
    let copy = query.clone(alloc);
    end_refusals(alloc);
    Ok(Box::new(alloc, copy?)?)
}

/// A clone of a query, by the call of `QueryClone`.
pub fn box_clone_of<Q: QueryClone>(
    alloc: Global,
    query: &Q,
    memory: Memory,
) -> Result<Box<AnyQuery>, Fault> {
    memory.begin(alloc);
    Ok(query.box_clone(alloc)?)
}

/// Writes what a query answers to a call, by itself or by its weight.
pub fn ask_query<Q: Query>(
    alloc: Global,
    asked: Question<'_>,
    query: &Q,
    text: &mut Listing,
) -> Done {
    let (scales, call, memory) = (asked.scales, asked.call, asked.memory);
    if call == "terms" {
        return Ok(write_named(alloc, query, memory, text));
    }
    if call == "total" {
        return count_all(alloc, scales.world, query, memory, text);
    }
    if let Some(limit) = call.strip_prefix("top ") {
        return write_top(alloc, scales.world, query, limit, memory, text);
    }
    if let Some(limit) = call.strip_prefix("top_scored ") {
        return write_top_scored(alloc, scales.world, query, limit, memory, text);
    }
    if let Some(address) = address_of(alloc, call)? {
        return explain_at(alloc, scales.world, query, address, memory, text);
    }
    let is_kind = call == "weight" || call == "fitting";
    let refused = if is_kind { memory } else { Memory::Ample };
    let weight = weigh(alloc, scales, query, call == "fitting", refused)?;
    ask_weighed(alloc, asked, is_kind, &weight, text)
}

// Writes which kind the weight of a query is, or what it answers to a call.
fn ask_weighed(
    alloc: Global,
    asked: Question<'_>,
    is_kind: bool,
    weight: &AnyWeight,
    text: &mut Listing,
) -> Done {
    if is_kind {
        return Ok(text.word(kind_of_weight(weight)));
    }
    let segment = asked.scales.world.segment(asked.segment)?;
    ask_weight(alloc, segment, weight, asked.call, asked.memory, text)
}

// The document of `explain S D`.
fn address_of(alloc: Global, call: &str) -> Result<Option<DocAddress>, Fault> {
    let words = words_of(alloc, call)?;
    match (first_word(call), number(&words, 1), number(&words, 2)) {
        ("explain", Some(segment), Some(doc)) => Ok(Some(DocAddress::new(segment, doc))),
        _ => Ok(None),
    }
}

fn count_all<Q: Query>(
    alloc: Global,
    world: &World,
    query: &Q,
    memory: Memory,
    text: &mut Listing,
) -> Done {
    memory.begin(alloc);
    let counted = query.count(alloc, &world.searcher);
    end_refusals(alloc);
    Ok(write!(text, "{}", counted?))
}

// The value of a query's explanation.
fn explain_at<Q: Query>(
    alloc: Global,
    world: &World,
    query: &Q,
    address: DocAddress,
    memory: Memory,
    text: &mut Listing,
) -> Done {
    memory.begin(alloc);
    let explained = query.explain(alloc, &world.searcher, address);
    end_refusals(alloc);
    Ok(write_values(&explained?, false, text))
}
