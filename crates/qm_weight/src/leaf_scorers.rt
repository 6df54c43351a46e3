//! A leaf's own scorer as one of a tree of scorers.

ghost use Rattle.std.specs.Prelude.{IfOk, IsOkUnless};
ghost use Rattle.qm_docset.specs.Lists.{IsPlaced, Lists};
ghost use Rattle.qm_scorer.specs.Bare.{bare, scores_to};
ghost use Rattle.qm_weight.specs.LeafScorers.{IsLeafOf};
ghost use Rattle.qm_weight.specs.Scorers.{IsScorerOf};

use crate::shared_runs::StandsFor;
use qm_combine::{ConstScorer, EmptyScorer, Scorer};
use qm_docset::{BitSetDocSet, DocSet};
use qm_phrase::{PhrasePrefixScorer, PhraseScorer};
use qm_postings::{SegmentPostings, SegmentReader, TermDocuments};
use qm_schema::QueryError;
use qm_scorer::AnyScorer;
use qm_term::TermScorer;
use std::alloc::Global;

/// A scorer that a leaf makes over a segment, for which a tree of scorers has a variant.
pub(crate) trait IntoTree<T: Scorer>: Scorer {
    // That variant over the scorer: it has the same documents left, with the same scores and the same `max_score`.
    fn into_tree(self, alloc: Global) -> Result<T, QueryError>
        requires { IsPlaced Self.DocSet self }
        ensures lists { IfOk result (λ s. Lists T.DocSet s (bare (Self.entries self)) (scores_to (Self.limits self).top)) }
        ensures refused { IsOkUnless result QueryError.Memory };
}

impl<'a, S: Scorer> IntoTree<AnyScorer<'a, S>> for TermScorer<'a> {
    fn into_tree(self, alloc: Global) -> Result<AnyScorer<'a, S>, QueryError> {
        Ok(AnyScorer::Term(Box::new(alloc, self)?))
    }
}

// The scorers and documents of terms that are a tree's own are leaves as they are, with no box around them.
impl<'a> IntoTree<AnyScorer<'a, TermScorer<'a, &'a [u32; 256]>>>
    for TermScorer<'a, &'a [u32; 256]> {
    fn into_tree(
        self,
        _alloc: Global,
    ) -> Result<AnyScorer<'a, TermScorer<'a, &'a [u32; 256]>>, QueryError> {
        Ok(AnyScorer::Own(self))
    }
}

impl<'a> IntoTree<AnyScorer<'a, ConstScorer<TermDocuments<'a>>>>
    for ConstScorer<TermDocuments<'a>> {
    fn into_tree(
        self,
        _alloc: Global,
    ) -> Result<AnyScorer<'a, ConstScorer<TermDocuments<'a>>>, QueryError> {
        Ok(AnyScorer::Own(self))
    }
}

impl<'a, S: Scorer> IntoTree<AnyScorer<'a, S>> for PhraseScorer<'a, SegmentPostings<'a>> {
    fn into_tree(self, alloc: Global) -> Result<AnyScorer<'a, S>, QueryError> {
        Ok(AnyScorer::Phrase(Box::new(alloc, self)?))
    }
}

impl<'a, S: Scorer> IntoTree<AnyScorer<'a, S>> for PhrasePrefixScorer<'a, SegmentPostings<'a>> {
    fn into_tree(self, alloc: Global) -> Result<AnyScorer<'a, S>, QueryError> {
        Ok(AnyScorer::PhrasePrefix(Box::new(alloc, self)?))
    }
}

impl<'a, S: Scorer> IntoTree<AnyScorer<'a, S>> for ConstScorer<BitSetDocSet> {
    fn into_tree(self, alloc: Global) -> Result<AnyScorer<'a, S>, QueryError> {
        Ok(AnyScorer::BitSet(Box::new(alloc, self)?))
    }
}

// The scorer of a leaf at a boost as one of a tree, and the empty one where the leaf has none. The weight and
// the segment are those that the leaf is of.
pub(crate) fn scorer_of_leaf<'a, W: StandsFor, L: IntoTree<AnyScorer<'a, S>>, S: Scorer>(
    weight: &W,
    alloc: Global,
    reader: &SegmentReader,
    leaf: Option<L>,
    boost: u64,
) -> Result<AnyScorer<'a, S>, QueryError>
    requires leaf { IsLeafOf L.DocSet (W.tree weight.now) boost reader.now.segment leaf }
    ensures scorer { IfOk result (IsScorerOf ⟦<AnyScorer<'a, S> as DocSet>⟧ (W.tree weight.now) boost reader.now.segment) }
    ensures refused { IsOkUnless result QueryError.Memory }
{
    match leaf {
        Some(scorer) => scorer.into_tree(alloc),
        None => Ok(AnyScorer::Empty(EmptyScorer)),
    }
}
