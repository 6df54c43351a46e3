//! Providers of the cases' own.

ghost use Rattle.std.specs.Prelude.{◌*◌, length};
ghost use Rattle.qm_postings.specs.Statistics.{IsProviderRefusal};

use cases_given::Manner;
use qm_docset::Score;
use qm_postings::{Bm25StatisticsProvider, Searcher};
use qm_schema::{QueryError, Term};
use std::cell::Cell;

// how many terms it answers for at most
const MOST_TERMS: usize = 1000;

/// A provider of one of these manners, by the norms of a searcher.
#[derive(Drop)]
pub struct OwnProvider<'a> {
    pub searcher: &'a Searcher,
    pub manner: Manner,
    pub asked: &'a Cell<u64>,
}

impl<'a> Bm25StatisticsProvider for OwnProvider<'a> {
    ghost weight_of = { λ provider terms. 1000 * length terms };

    ghost norms_of = { λ provider. provider.searcher.now.norms };

    ghost may_refuse = { λ provider terms error. IsProviderRefusal error };

    fn weight(&self, terms: &[Term]) -> Result<Score, QueryError> {
        if let Manner::Answers(code) = self.manner {
            return Err(QueryError::Provider(code));
        }
        if terms.len() > MOST_TERMS {
            return Err(QueryError::ScoreBound);
        }
        let asked = self.asked.get().saturating_add(terms.len() as u64);
        self.asked.set(asked);
        Ok(1000 * terms.len() as i64)
    }

    fn norms(&self) -> &[u32; 256] {
        self.searcher.norms()
    }

    ghost refusals = { λ provider terms error refused. refused };
}
