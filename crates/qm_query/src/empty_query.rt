//! The query for no document.

ghost use Rattle.std.specs.Prelude.{IsOkUnless};

use crate::boxed::boxed;
use crate::enable_scoring::EnableScoring;
use crate::query::Query;
use qm_postings::Bm25StatisticsProvider;
use qm_schema::{QueryError, Term};
use qm_weight::{AnyWeight, EmptyWeight};
use std::alloc::Global;

/// Matches no document.
#[derive(Debug, Drop)]
pub struct EmptyQuery;

impl EmptyQuery {
    /// The same query, which has no parts. Takes no memory.
    pub fn clone(&self, _alloc: Global) -> Result<EmptyQuery, QueryError>
        ensures { IsOkUnless result QueryError.Memory }
    {
        Ok(EmptyQuery)
    }
}

impl Query for EmptyQuery {
    ghost use Rattle.qm_query.specs.Query.{none};

    ghost query = { λ _. none };

    fn weight<P: Bm25StatisticsProvider>(
        &self,
        alloc: Global,
        _enable_scoring: EnableScoring<'_, P>,
    ) -> Result<Box<AnyWeight>, QueryError> {
        boxed(alloc, AnyWeight::Empty(EmptyWeight))
    }

    fn query_terms<F: FnMut(&Term, bool)>(&self, _visitor: &mut F) {}
}
