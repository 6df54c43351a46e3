//! A scorer of one's own, in a tree with those of a query: what documents are rated elsewhere, as by their
//! readers.

ghost use Rattle.std.specs.Prelude.{◌≡◌, ◌≤◌, IfOk, map};
ghost use Rattle.qm_combine.specs.AllDocuments.{IsOverAll, all_left, all_limits};
ghost use Rattle.qm_combine.specs.AllDocumentsFacts.{AreEntries-all_from};
ghost use Rattle.qm_combine.specs.Rescored.{limited, rescored};
ghost use Rattle.qm_combine.specs.RescoredFacts.{AreEntries-rescored};
ghost use Rattle.qm_docset.specs.Lists.{IsPlaced};
ghost use Rattle.qm_weight.specs.Tree.{matching};
ghost use Rattle.example_uses.specs.Rated.{most_rated, rating, rating-le};

use qm_combine::{AllScorer, Scorer, scores_left};
use qm_docset::{DocId, DocSet, Score, TERMINATED};
use qm_postings::SegmentReader;
use qm_schema::QueryError;
use qm_scorer::{AnyScorer, required_optional};
use qm_weight::Weight;
use std::alloc::Global;

/// What a document scores at most.
const MOST_RATED: u32 = 100;

/// All documents of a segment, each with its rating, held at [`MOST_RATED`]; 0 where the ratings end
/// before it.
#[derive(Drop)]
pub struct Rated<'a> {
    all: AllScorer,
    ratings: &'a [u32],
}

impl<'a> Rated<'a> {
    /// A scorer over the documents below `max_doc`. Asks that this is at most [`TERMINATED`].
    pub fn new(max_doc: DocId, ratings: &'a [u32]) -> Rated<'a>
        requires { max_doc ≤ TERMINATED }
        ensures { IsPlaced ⟦<Rated<'a> as DocSet>⟧ result }
    {
        Rated {
            all: AllScorer::new(max_doc),
            ratings,
        }
    }

    fn rating(&self, doc: DocId) -> u32
        ensures { result ≡ rating self.now.ratings.now doc }
    {
        match self.ratings.get(doc as usize) {
            Some(rating) => MOST_RATED.min(*rating),
            None => 0,
        }
    }
}

// Where it goes is what the cursor that it holds does; `entries` says which scores these documents have, and
// `limits` the greatest.
#[tactic(auto, using(qm_combine::specs::RescoredFacts::rescoring))]
impl<'a> DocSet for Rated<'a> {
    ghost entries = { λ s. rescored (λ e. rating s.ratings.now e.document) (all_left s.all) };

    ghost limits = { λ _. limited most_rated all_limits };

    ghost placed = { λ _. Unit {0} };

    ghost valid = { λ s. IsOverAll s.all };

    fn doc(&self) -> DocId {
        self.all.doc()
    }

    fn advance(&mut self) -> DocId {
        self.all.advance()
    }

    fn seek(&mut self, target: DocId) -> DocId {
        self.all.seek(target)
    }

    fn size_hint(&self) -> u32 {
        self.all.size_hint()
    }

    ghost ascending = { λ s h.
        AreEntries-rescored _ most_rated 0 all_limits _ (λ e _. rating-le s.ratings.now e.document) (AreEntries-all_from s.all.doc s.all.max_doc h.0) };
}

#[tactic(auto, using(qm_combine::specs::RescoredFacts::rescoring))]
impl<'a> Scorer for Rated<'a> {
    fn score(&mut self) -> Score {
        Score::from(self.rating(self.all.doc()))
    }

    fn max_score(&self) -> Score {
        Score::from(MOST_RATED)
    }
}

/// What a weight matches in a segment, each document with what it is rated beside its score.
pub fn rated_matches<W: Weight>(
    alloc: Global,
    weight: &W,
    reader: &SegmentReader,
    ratings: &[u32],
) -> Result<Vec<(DocId, Score)>, QueryError>
    ensures documents { IfOk result (λ found. map (λ pair. pair.0) found.items ≡ matching (W.tree weight.now) reader.now.segment) }
{
    let found: AnyScorer<'_, Rated<'_>> = weight.scorer(alloc, reader, 1)?;
    let rated = AnyScorer::Own(Rated::new(reader.max_doc(), ratings));
    let both = required_optional(alloc, found, rated)?;
    Ok(scores_left(alloc, both)?)
}
