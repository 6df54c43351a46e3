//! The weight of a query, and what it is weighed under.

use crate::provider::OwnProvider;
use cases::{Fault, Memory, end_refusals};
use cases_given::{Manner, World};
use qm_postings::{Bm25StatisticsProvider, Searcher};
use qm_query::{AnyQuery, EnableScoring, Query, TermQuery, fitting_weight};
use qm_weight::AnyWeight;
use std::alloc::Global;
use std::cell::Cell;

/// What a query is weighed under.
#[derive(Clone, Copy)]
pub struct Scales<'a> {
    pub world: &'a World,
    pub is_scored: bool,
    /// how many terms a provider of the case's own was asked for
    pub asked: &'a Cell<u64>,
}

impl<'a> Scales<'a> {
    /// The provider of the case's own.
    pub fn provider(&self) -> OwnProvider<'a> {
        OwnProvider {
            searcher: &self.world.searcher,
            manner: self.world.manner,
            asked: self.asked,
        }
    }
}

/// The weight of a query, by `Query::weight`, or by `fitting_weight` where it has to fit.
pub fn weigh<Q: Query>(
    alloc: Global,
    scales: Scales<'_>,
    query: &Q,
    must_fit: bool,
    memory: Memory,
) -> Result<Box<AnyWeight>, Fault> {
    let searcher = &scales.world.searcher;
    let provider = scales.provider();
    if !scales.is_scored {
        let off = EnableScoring::<Searcher>::disabled_from_searcher(searcher);
        return weigh_under(alloc, query, off, must_fit, memory);
    }
    match scales.world.manner {
        Manner::Searcher => {
            let on = EnableScoring::enabled_from_searcher(searcher);
            weigh_under(alloc, query, on, must_fit, memory)
        }
        _ => {
            let on = EnableScoring::enabled_from_statistics_provider(&provider, searcher);
            weigh_under(alloc, query, on, must_fit, memory)
        }
    }
}

fn weigh_under<Q: Query, P: Bm25StatisticsProvider>(
    alloc: Global,
    query: &Q,
    scoring: EnableScoring<'_, P>,
    must_fit: bool,
    memory: Memory,
) -> Result<Box<AnyWeight>, Fault> {
    memory.begin(alloc);
    let weight = if must_fit {
        fitting_weight(query, alloc, scoring)
    } else {
        query.weight(alloc, scoring)
    };
    end_refusals(alloc);
    match weight {
        Ok(weight) => Ok(weight),
        Err(error) => Err(Fault::Refused(error)),
    }
}

/// The weight of a term query, by `specialized_weight`.
pub fn specialize(
    alloc: Global,
    scales: Scales<'_>,
    query: &AnyQuery,
    memory: Memory,
) -> Result<Box<AnyWeight>, Fault> {
    let AnyQuery::Term(query) = query else {
        return Err(Fault::NotAllowed);
    };
    let searcher = &scales.world.searcher;
    let provider = scales.provider();
    if !scales.is_scored {
        let off = EnableScoring::<Searcher>::disabled_from_searcher(searcher);
        return specialize_under(alloc, query, off, memory);
    }
    match scales.world.manner {
        Manner::Searcher => {
            let on = EnableScoring::enabled_from_searcher(searcher);
            specialize_under(alloc, query, on, memory)
        }
        _ => {
            let on = EnableScoring::enabled_from_statistics_provider(&provider, searcher);
            specialize_under(alloc, query, on, memory)
        }
    }
}

fn specialize_under<P: Bm25StatisticsProvider>(
    alloc: Global,
    query: &TermQuery,
    scoring: EnableScoring<'_, P>,
    memory: Memory,
) -> Result<Box<AnyWeight>, Fault> {
    memory.begin(alloc);
    let weight = query.specialized_weight(alloc, scoring);
    end_refusals(alloc);
    match weight {
        Ok(weight) => Ok(Box::new(alloc, AnyWeight::Term(weight))?),
        Err(error) => Err(Fault::Refused(error)),
    }
}
