//! The best documents of a query, over all segments.

ghost use Rattle.std.specs.Prelude.{IfOk};
ghost use Rattle.qm_query.specs.TopDocs.{AreTopDocs};

use qm_docset::Score;
use qm_postings::{Bm25StatisticsProvider, DocAddress, Searcher};
use qm_query::{Query, TopDocs};
use qm_schema::QueryError;
use std::alloc::Global;

/// The best documents that a query finds and that weren't deleted, at most so many, each with its score:
/// by score downwards, and of one score by address upwards.
pub fn best_documents<Q: Query>(
    alloc: Global,
    query: &Q,
    searcher: &Searcher,
    limit: usize,
) -> Result<Vec<(Score, DocAddress)>, QueryError>
    ensures { IfOk result (λ found. AreTopDocs ⟦<Searcher as Bm25StatisticsProvider>⟧ searcher.now (Q.query query.now) limit found.items) }
{
    TopDocs::with_limit(limit).search(alloc, query, searcher)
}
