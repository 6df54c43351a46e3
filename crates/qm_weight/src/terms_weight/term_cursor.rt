//! The cursors of terms.

ghost use Rattle.std.specs.Prelude.{◌≤◌, IfErr, IfOk, IsTrue};
ghost use Rattle.qm_docset.specs.Entry.{greatest_score};
ghost use Rattle.qm_weight.specs.LeafScorers.{IsLeafOf};
ghost use Rattle.qm_weight.specs.Scorers.{IsRefusalOf};
ghost use Rattle.qm_weight.specs.TermUnions.{is_scored_in, tree_in};

use crate::terms_weight::clause_in::ClauseIn;
use qm_combine::{ConstScorer, Scorer};
use qm_docset::DocSet;
use qm_postings::{SegmentReader, TermDocuments};
use qm_schema::QueryError;
use qm_term::TermScorer;

// The scorer of a term by norms that stand in the weight.
pub(super) type Borrowing<'a> = TermScorer<'a, &'a [u32; 256]>;

// The documents of a term, for whom no score is asked.
pub(super) type Unscored<'a> = ConstScorer<TermDocuments<'a>>;

/// A cursor over the documents of a segment that hold a term.
pub(super) trait TermCursor<'a>: Scorer {
    // whether its scores are those of the term
    ghost gives_scores: { Type 0 };

    // The cursor of a clause's term at a boost, and none where no document holds the term.
    fn of_term(
        clause: ClauseIn<'a>,
        reader: &'a SegmentReader,
        boost: u64,
    ) -> Result<Option<Self>, QueryError>
        requires boost { boost ≤ greatest_score }
        requires scores { IsTrue (is_scored_in clause) → gives_scores }
        ensures cursor { IfOk result (IsLeafOf Self.DocSet (tree_in clause.entry) boost reader.now.segment) }
        ensures refused { IfErr result (IsRefusalOf (tree_in clause.entry) boost) };
}

impl<'a> TermCursor<'a> for Borrowing<'a> {
    ghost gives_scores = { Unit {0} };

    fn of_term(
        clause: ClauseIn<'a>,
        reader: &'a SegmentReader,
        boost: u64,
    ) -> Result<Option<Borrowing<'a>>, QueryError> {
        let weight = clause.weight_at(boost)?;
        let option = clause.clause.index_record_option;
        Ok(TermScorer::for_term(reader, &clause.clause.term, option, &weight))
    }
}

impl<'a> TermCursor<'a> for Unscored<'a> {
    ghost gives_scores = { ⊥ };

    fn of_term(
        clause: ClauseIn<'a>,
        reader: &'a SegmentReader,
        _boost: u64,
    ) -> Result<Option<Unscored<'a>>, QueryError> {
        let term = &clause.clause.term;
        let index = reader.inverted_index(term.field());
        match index.read_documents(term) {
            Some(documents) => Ok(Some(ConstScorer::new(documents, 0))),
            None => Ok(None),
        }
    }
}

// The term's own scorer at a boost, with norms of its own: it outlives the weight.
pub(super) fn scorer_of_term<'a>(
    clause: ClauseIn<'_>,
    reader: &'a SegmentReader,
    boost: u64,
) -> Result<Option<TermScorer<'a>>, QueryError>
    requires boost { boost ≤ greatest_score }
    ensures scorer { IfOk result (IsLeafOf ⟦<TermScorer<'a> as DocSet>⟧ (tree_in clause.entry) boost reader.now.segment) }
    ensures refused { IfErr result (IsRefusalOf (tree_in clause.entry) boost) }
{
    let weight = clause.weight_at(boost)?.owned();
    let option = clause.clause.index_record_option;
    Ok(TermScorer::for_term(reader, &clause.clause.term, option, &weight))
}
