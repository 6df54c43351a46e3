//! Weights of one's own: the fewer documents hold a word, the more it weighs.

ghost use Rattle.std.specs.Prelude.{◌≡◌, IfOk, length};
ghost use Rattle.std.specs.List.{sum_by};
ghost use Rattle.qm_postings.specs.Segment.{holders};
ghost use Rattle.qm_postings.specs.Statistics.{IsProviderRefusal};
ghost use Rattle.qm_query.specs.EnableScoring.{provider_of};
ghost use Rattle.example_uses.specs.Rarity.{rarity};

use qm_combine::{EmptyScorer, scores_left};
use qm_docset::{DocId, Score};
use qm_postings::{Bm25StatisticsProvider, Searcher, SegmentReader};
use qm_query::{EnableScoring, Query, query_scorer};
use qm_schema::{QueryError, Term};
use qm_scorer::AnyScorer;
use std::alloc::Global;

/// What words weigh by how many documents of a segment hold them.
#[derive(Clone, Copy, Debug)]
pub struct Rarity<'a> {
    reader: &'a SegmentReader,
    searcher: &'a Searcher,
}

impl<'a> Rarity<'a> {
    /// Weights by the documents of this segment, deleted ones too, and norms as the searcher's.
    pub fn new(reader: &'a SegmentReader, searcher: &'a Searcher) -> Rarity<'a> {
        Rarity { reader, searcher }
    }

    // What one term weighs.
    fn rarity(&self, term: &Term) -> u64
        ensures { result ≡ rarity self.now.reader.now.segment term.now }
    {
        1000 * u64::from(self.reader.max_doc()) / (1 + u64::from(self.holding(term)))
    }

    // How many documents hold it.
    fn holding(&self, term: &Term) -> u32
        ensures { result ≡ length (holders self.now.reader.now.segment term.now) }
    {
        match self.reader.inverted_index(term.field()).get_term_info(term) {
            Some(info) => info.doc_freq,
            None => 0,
        }
    }
}

// A provider says what terms weigh together (`weight_of`), the norms of length ids, and how it may refuse:
// with `ScoreBound`, or with a code of its own.
impl<'a> Bm25StatisticsProvider for Rarity<'a> {
    ghost weight_of = { λ r terms. sum_by (rarity r.reader.now.segment) terms };

    ghost norms_of = { λ r. r.searcher.now.norms };

    ghost may_refuse = { λ _ _ error. IsProviderRefusal error };

    fn weight(&self, terms: &[Term]) -> Result<Score, QueryError> {
        let mut sum: u64 = 0;
        // what the terms so far weigh
        for term in terms {
            let Some(more) = sum.checked_add(self.rarity(term)) else {
                return Err(QueryError::ScoreBound);
            };
            sum = more;
        }
        Score::try_from(sum).map_err(|_| QueryError::ScoreBound)
    }

    fn norms(&self) -> &[u32; 256] {
        self.searcher.norms()
    }

    ghost refusals = { λ _ _ _ refused. refused };
}

/// What a query finds in a segment, with scores by these weights.
pub fn rare_words_first<Q: Query>(
    alloc: Global,
    query: &Q,
    rarity: &Rarity<'_>,
    searcher: &Searcher,
    reader: &SegmentReader,
) -> Result<Vec<(DocId, Score)>, QueryError> {
    let scoring = EnableScoring::enabled_from_statistics_provider(rarity, searcher);
    let scorer: AnyScorer<'_, EmptyScorer> = query_scorer(query, alloc, scoring, reader, 1)?;
    Ok(scores_left(alloc, scorer)?)
}
