//! The query for every document.

ghost use Rattle.std.specs.Prelude.{IsOkUnless};

use crate::boxed::boxed;
use crate::enable_scoring::EnableScoring;
use crate::query::Query;
use qm_postings::Bm25StatisticsProvider;
use qm_schema::{QueryError, Term};
use qm_weight::{AllWeight, AnyWeight};
use std::alloc::Global;

/// Matches every document, and scores the boost.
#[derive(Debug, Drop)]
pub struct AllQuery;

impl AllQuery {
    /// The same query, which has no parts. Takes no memory.
    pub fn clone(&self, _alloc: Global) -> Result<AllQuery, QueryError>
        ensures { IsOkUnless result QueryError.Memory }
    {
        Ok(AllQuery)
    }
}

impl Query for AllQuery {
    ghost use Rattle.qm_query.specs.Query.{all};

    ghost query = { λ _. all };

    fn weight<P: Bm25StatisticsProvider>(
        &self,
        alloc: Global,
        _enable_scoring: EnableScoring<'_, P>,
    ) -> Result<Box<AnyWeight>, QueryError> {
        boxed(alloc, AnyWeight::All(AllWeight))
    }

    fn query_terms<F: FnMut(&Term, bool)>(&self, _visitor: &mut F) {}
}
