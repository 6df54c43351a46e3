//! Callers of a search for the best documents: what they answer follows from its contract, and from what
//! `TopDocsFacts` of qm_query says of every such answer.

ghost use Rattle.std.specs.Prelude.{◌≡◌, ◌<◌, IfOk, IfSome, None, [], nat_lt};
ghost use Rattle.example_callers.specs.Found.{StandsFirst, found_count};
ghost use Rattle.qm_query.specs.TopDocs.{AreTopDocs, AreTopDocsBy, all_found};

use qm_docset::Score;
use qm_postings::{Bm25StatisticsProvider, DocAddress, Searcher};
use qm_query::{Query, TopDocs};
use qm_schema::QueryError;
use std::alloc::Global;

/// The best of the documents that a query finds in the segments of a searcher and that weren't deleted,
/// with its score: every other one scores less, or as much and comes behind it by address. None where
/// none is found.
pub fn best_address<Q: Query>(
    alloc: Global,
    query: &Q,
    searcher: &Searcher,
) -> Result<Option<(Score, DocAddress)>, QueryError>
    ensures none { IfOk result (λ best. best ≡ None → all_found ⟦<Searcher as Bm25StatisticsProvider>⟧ searcher.now (Q.query query.now) ≡ []) }
    ensures best { IfOk result (λ best. IfSome best (StandsFirst (all_found ⟦<Searcher as Bm25StatisticsProvider>⟧ searcher.now (Q.query query.now)))) }
{
    let found = TopDocs::with_limit(1).search(alloc, query, searcher)?;
    Ok(found.first().copied())
}

/// The best documents that a query finds, at most so many, and whether it finds more.
pub fn first_page<Q: Query>(
    alloc: Global,
    query: &Q,
    searcher: &Searcher,
    size: usize,
) -> Result<(Vec<(Score, DocAddress)>, bool), QueryError>
    requires size { size < 18446744073709551615 }
    ensures page { IfOk result (λ page. AreTopDocs ⟦<Searcher as Bm25StatisticsProvider>⟧ searcher.now (Q.query query.now) size page.0.items) }
    ensures more { IfOk result (λ page. page.1 ≡ nat_lt size (found_count ⟦<Searcher as Bm25StatisticsProvider>⟧ searcher.now (Q.query query.now))) }
{
    let mut found = TopDocs::with_limit(size + 1).search(alloc, query, searcher)?;
    let has_more = found.len() > size;
    found.truncate(size);
    Ok((found, has_more))
}

/// The best documents that a query finds by the weights of a provider, at most so many; none where not a single
/// one was scored, since then nothing is found.
pub fn page_by<Q: Query, P: Bm25StatisticsProvider>(
    alloc: Global,
    query: &Q,
    searcher: &Searcher,
    provider: &P,
    size: usize,
) -> Result<Option<Vec<(Score, DocAddress)>>, QueryError>
    ensures some { IfOk result (λ page. IfSome page (λ found.
        AreTopDocsBy P.Bm25StatisticsProvider provider.now searcher.now (Q.query query.now) size found.items)) }
    ensures none { IfOk result (λ page. page ≡ None → AreTopDocsBy P.Bm25StatisticsProvider provider.now searcher.now (Q.query query.now) size []) }
{
    let found = TopDocs::with_limit(size).search_counted(alloc, query, searcher, provider)?;
    if found.scored == 0 {
        return Ok(None);
    }
    Ok(Some(found.documents))
}
