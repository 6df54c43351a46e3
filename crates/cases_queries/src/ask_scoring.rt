//! Rows on what queries are weighed under.

use cases::{Asker, Done, Fault, Listing, Memory, end_refusals};
use qm_postings::Searcher;
use qm_query::EnableScoring;
use std::alloc::Global;

/// Rows on what queries are weighed under.
#[derive(Drop)]
pub struct ScoringAsker<'a> {
    pub scoring: EnableScoring<'a, Searcher>,
}

/// What words make: `searcher`, `provider`, `off` or `schema`.
pub fn scoring_of<'a>(
    searcher: &'a Searcher,
    word: &str,
) -> Result<EnableScoring<'a, Searcher>, Fault> {
    match word {
        "searcher" => Ok(EnableScoring::enabled_from_searcher(searcher)),
        "provider" => Ok(EnableScoring::enabled_from_statistics_provider(searcher, searcher)),
        "off" => Ok(EnableScoring::disabled_from_searcher(searcher)),
        "schema" => Ok(EnableScoring::disabled_from_schema(searcher.schema())),
        _ => Err(Fault::NotUnderstood),
    }
}

impl<'a> Asker for ScoringAsker<'a> {
    fn ask(&mut self, alloc: Global, call: &str, memory: Memory, text: &mut Listing) -> Done {
        memory.begin(alloc);
        let answer = answer(self.scoring, call);
        end_refusals(alloc);
        match answer {
            Some(answer) => Ok(write!(text, "{answer}")),
            None => Err(Fault::NotUnderstood),
        }
    }
}

// Whether scores are wanted, the searcher is known, or a field is.
fn answer(scoring: EnableScoring<'_, Searcher>, call: &str) -> Option<bool> {
    match call.split_once(' ') {
        None if call == "is_scoring_enabled" => Some(scoring.is_scoring_enabled()),
        None if call == "searcher" => Some(scoring.searcher().is_some()),
        Some(("field", name)) => Some(scoring.schema().get_field(name).is_some()),
        _ => None,
    }
}
