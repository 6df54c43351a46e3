//! Callers of a query: what they find is known by the contract of one call and by those of a cursor's.

ghost use Rattle.std.specs.Prelude.{◌≡◌, All, IfOk, IsTrue};
ghost use Rattle.example_callers.specs.Found.{IsBestOf};
ghost use Rattle.qm_query.specs.EnableScoring.{is_enabled};
ghost use Rattle.qm_query.specs.Offsets.{bare_terms};
ghost use Rattle.qm_query.specs.QueryMatches.{AreMatches, query_matching};
ghost use Rattle.qm_query.specs.QueryTree.{query_tree};

use crate::weight_callers::best_matches;
use qm_combine::{EmptyScorer, scores_left};
use qm_docset::{DocId, Score, documents_left};
use qm_postings::{Bm25StatisticsProvider, SegmentReader};
use qm_query::{EnableScoring, PhrasePrefixQuery, PhraseQuery, Query, query_scorer};
use qm_schema::{Field, QueryError, Term};
use qm_scorer::AnyScorer;
use std::alloc::Global;

/// The documents of a segment that a query matches, ascending.
pub fn matching_documents<Q: Query, P: Bm25StatisticsProvider>(
    alloc: Global,
    query: &Q,
    enable_scoring: EnableScoring<'_, P>,
    reader: &SegmentReader,
) -> Result<Vec<DocId>, QueryError>
    ensures { IfOk result (λ found. found.items ≡ query_matching P.Bm25StatisticsProvider enable_scoring.entry (Q.query query.now) reader.now.segment) }
{
    let scorer: AnyScorer<'_, EmptyScorer> = query_scorer(query, alloc, enable_scoring, reader, 1)?;
    Ok(documents_left(alloc, scorer)?)
}

/// The same documents, each with its score where scoring is on, and with any score where it is off.
pub fn matches<Q: Query, P: Bm25StatisticsProvider>(
    alloc: Global,
    query: &Q,
    enable_scoring: EnableScoring<'_, P>,
    reader: &SegmentReader,
) -> Result<Vec<(DocId, Score)>, QueryError>
    ensures { IfOk result (λ found. AreMatches P.Bm25StatisticsProvider enable_scoring.entry (Q.query query.now) reader.now.segment found.items) }
{
    let scorer: AnyScorer<'_, EmptyScorer> = query_scorer(query, alloc, enable_scoring, reader, 1)?;
    Ok(scores_left(alloc, scorer)?)
}

/// The best of the documents of a segment that a query matches, with its score, and none where it
/// matches none: by a pruned run, which passes over what can't be the best. Of documents with one score
/// it is the lowest. Asks that scoring is on.
pub fn best_document<Q: Query, P: Bm25StatisticsProvider>(
    alloc: Global,
    query: &Q,
    enable_scoring: EnableScoring<'_, P>,
    reader: &SegmentReader,
) -> Result<Option<(DocId, Score)>, QueryError>
    requires scoring { IsTrue (is_enabled enable_scoring) }
    ensures { IfOk result (IsBestOf (query_tree P.Bm25StatisticsProvider enable_scoring.entry (Q.query query.now)) reader.now.segment) }
{
    let weight = query.weight(alloc, enable_scoring)?;
    let best = best_matches(alloc, &*weight, reader, 1)?;
    Ok(best.first().copied())
}

/// The field of a phrase and its terms, all of which are of that field.
pub fn field_and_terms(alloc: Global, query: &PhraseQuery) -> Result<(Field, Vec<Term>), QueryError>
    ensures terms { IfOk result (λ found. found.1.items ≡ bare_terms query.now.terms) }
    ensures field { IfOk result (λ found. All (λ t. t.field ≡ found.0) found.1.items) }
{
    let terms = query.phrase_terms(alloc)?;
    Ok((query.field(), terms))
}

/// The field of a phrase prefix and its full terms, all of which are of that field.
pub fn field_and_full_terms(
    alloc: Global,
    query: &PhrasePrefixQuery,
) -> Result<(Field, Vec<Term>), QueryError>
    ensures terms { IfOk result (λ found. found.1.items ≡ bare_terms query.now.terms) }
    ensures field { IfOk result (λ found. All (λ t. t.field ≡ found.0) found.1.items) }
{
    let terms = query.phrase_terms(alloc)?;
    Ok((query.field(), terms))
}
