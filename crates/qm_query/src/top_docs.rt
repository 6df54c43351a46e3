//! The best documents of all segments of a searcher.
//!
//! One heap and one threshold serve all segments. A deleted document is looked for only where the run calls.

ghost use Rattle.std.specs.Prelude.{◌≡◌, ◌<◌, ◌≤◌, IfErr, IfOk, IsTrue, length};
ghost use Rattle.qm_docset.specs.declared.numbers.TheConstants.{TERMINATED};
ghost use Rattle.qm_weight.specs.Scorers.{IsRefusalOf};
ghost use Rattle.qm_weight.specs.Tree.{is_scoring};
ghost use Rattle.qm_weight.specs.Weights.{tree_of};
ghost use Rattle.qm_query.specs.KeptDocuments.{CollectsAll};
ghost use Rattle.qm_query.specs.Searches.{scoring_by, with_scores};
ghost use Rattle.qm_query.specs.TopDocs.{AreBestOf, AreTopDocs, AreTopDocsBy, FitsFor, IsScoredFor, IsScoredIn, IsTopDocsRefusal, IsTopDocsRefusalBy, alive_in};

mod kept_document;
mod kept_documents;

use crate::enable_scoring::EnableScoring;
use crate::fitting::check_fits;
use crate::query::Query;
use kept_documents::KeptDocuments;
use qm_docset::Score;
use qm_postings::{Bm25StatisticsProvider, DocAddress, Searcher, SegmentReader};
use qm_schema::QueryError;
use qm_weight::{AnyWeight, Weight};
use std::alloc::Global;
use std::marker::Model;

/// The best documents that a search found, and what it took.
#[derive(Debug, Drop)]
pub struct CountedDocs {
    /// The best documents, each with its score, in points, and its address: by score downwards, then by
    /// address upwards.
    pub documents: Vec<(Score, DocAddress)>,
    /// How many documents of all segments were scored.
    pub scored: u64,
}

/// The best documents that a query finds, at most so many: tantivy's `TopDocs`.
///
/// Contracts see it as that number.
#[derive(Clone, Copy, Debug)]
pub struct TopDocs {
    limit: usize,
}

impl Model for TopDocs {
    ghost use Rattle.std.specs.Prelude.{ℕ};

    ghost Value = { ℕ };

    ghost view = { λ t. t.limit };

    ghost inverse = { λ n. record { limit = n } };
}

impl TopDocs {
    /// At most `limit` documents: any number will do, and with 0 there is none. Takes no memory.
    pub fn with_limit(limit: usize) -> TopDocs
        ensures { result ≡ limit }
    {
        TopDocs { limit }
    }

    /// The best documents of all segments of a searcher that a query matches and that weren't deleted,
    /// each with its score, in points, and its address: by score downwards, then by address upwards,
    /// and at most so many. The searcher gives the weights of the terms.
    ///
    /// Refused as [`Query::weight`] is, and with a limit of 0 by nothing else: no segment is looked at then,
    /// and no score is asked for. With any other limit then with [`QueryError::ScoreBound`] exactly where
    /// the query doesn't fit, whatever the segments are, and else with [`QueryError::Memory`] alone. Takes
    /// room for the smaller of the limit and the number of documents that weren't deleted, so that a great
    /// limit is no refusal by itself.
    ///
    /// Builds the weight once, and costs what `Weight::for_each_pruning` does for each segment, with a
    /// threshold that is carried from one to the next: -1, and once as many documents are kept as the
    /// limit says the least of their scores. A document that is kept costs the logarithm of the limit,
    /// and they are sorted once at the end.
    pub fn search<Q: Query>(
        &self,
        alloc: Global,
        query: &Q,
        searcher: &Searcher,
    ) -> Result<Vec<(Score, DocAddress)>, QueryError>
        ensures best { IfOk result (λ found. AreTopDocs ⟦<Searcher as Bm25StatisticsProvider>⟧ searcher.now (Q.query query.now) self.now found.items) }
        ensures fits { IfOk result (λ _. FitsFor ⟦<Searcher as Bm25StatisticsProvider>⟧ (with_scores searcher.now) (Q.query query.now) self.now) }
        ensures refused { IfErr result (IsTopDocsRefusal ⟦<Searcher as Bm25StatisticsProvider>⟧ searcher.now (Q.query query.now) self.now) }
    {
        let found = self.search_counted(alloc, query, searcher, searcher)?;
        Ok(found.documents)
    }

    /// The same, by what any provider says that terms weigh and what the norms of the length ids are, and with it
    /// how many documents were scored: no fewer than are answered, and no more than the query matches.
    pub fn search_counted<Q: Query, P: Bm25StatisticsProvider>(
        &self,
        alloc: Global,
        query: &Q,
        searcher: &Searcher,
        statistics_provider: &P,
    ) -> Result<CountedDocs, QueryError>
        ensures best { IfOk result (λ found. AreTopDocsBy
            P.Bm25StatisticsProvider statistics_provider.now searcher.now (Q.query query.now) self.now found.documents.items) }
        ensures scored { IfOk result (λ found. IsScoredFor
            P.Bm25StatisticsProvider statistics_provider.now searcher.now (Q.query query.now) (length found.documents.items) found.scored) }
        ensures fits { IfOk result (λ _.
            FitsFor P.Bm25StatisticsProvider (scoring_by statistics_provider.now searcher.now) (Q.query query.now) self.now) }
        ensures refused { IfErr result
            (IsTopDocsRefusalBy P.Bm25StatisticsProvider statistics_provider.now searcher.now (Q.query query.now) self.now) }
    {
        let scoring = EnableScoring::enabled_from_statistics_provider(
            statistics_provider,
            searcher,
        );
        let weight = query.weight(alloc, scoring)?;
        if self.limit == 0 {
            return Ok(CountedDocs {
                documents: Vec::new(alloc),
                scored: 0,
            });
        }
        check_fits(&weight)?;
        best_alive(&weight, alloc, searcher, self.limit)
    }
}

// The best documents of all segments that match and weren't deleted, where some are wanted, and how many were
// scored to find them.
fn best_alive(
    weight: &AnyWeight,
    alloc: Global,
    searcher: &Searcher,
    limit: usize,
) -> Result<CountedDocs, QueryError>
    requires some { 0 < limit }
    ensures best { IfOk result (λ found.
        IsTrue (is_scoring (tree_of weight.now)) → AreBestOf limit (tree_of weight.now) searcher.now.segments found.documents.items) }
    ensures scored { IfOk result (λ found. IsScoredIn (tree_of weight.now) searcher.now.segments (length found.documents.items) found.scored) }
    ensures refused { IfErr result (IsRefusalOf (tree_of weight.now) 1) }
{
    let room = limit.min(count_alive_documents(searcher));
    let mut kept = KeptDocuments::with_limit(alloc, limit, room)?;
    let mut scored: u64 = 0;
    let mut segment_ord = 0;
    // the best documents of the segments so far are kept
    for reader in searcher.segment_readers() {
        scored += collect_segment(weight, alloc, reader, segment_ord, &mut kept)?;
        segment_ord += 1;
    }
    let documents = kept.into_best(alloc)?;
    Ok(CountedDocs { documents, scored })
}

// How many documents of all segments weren't deleted.
fn count_alive_documents(searcher: &Searcher) -> usize
    ensures { result ≡ alive_in searcher.now.segments }
{
    let mut count = 0;
    // those of the segments so far are counted
    for reader in searcher.segment_readers() {
        count += reader.num_docs() as usize;
    }
    count
}

// Enters the documents of one more segment that match and weren't deleted, by a pruned run from the threshold of those
// that are kept so far. Answers how many documents were scored.
fn collect_segment(
    weight: &AnyWeight,
    alloc: Global,
    reader: &SegmentReader,
    segment_ord: u32,
    kept: &mut KeptDocuments,
) -> Result<u64, QueryError>
    ensures kept { IfOk result (λ scored. CollectsAll segment_ord (tree_of weight.now) reader.now.segment kept.old scored kept.new) }
    ensures few { IfOk result (λ scored. scored ≤ TERMINATED) }
    ensures refused { IfErr result (IsRefusalOf (tree_of weight.now) 1) }
{
    // no more documents than a cursor may stand on
    let _documents = reader.max_doc();
    let threshold = kept.threshold();
    let count = weight.for_each_pruning_counted(
        alloc,
        threshold,
        reader,
        &mut |doc, score| { kept.collect(reader, segment_ord, doc, score) },
    )?;
    Ok(count.ticks as u64)
}
