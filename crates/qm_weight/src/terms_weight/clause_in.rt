//! A clause by the norms of its weight.

ghost use Rattle.std.specs.Prelude.{◌≡◌, ◌≤◌, IfErr, IfOk};
ghost use Rattle.qm_docset.specs.Entry.{greatest_score};
ghost use Rattle.qm_term.specs.Bm25Weight.{weighing};
ghost use Rattle.qm_weight.specs.Scorers.{IsRefusalOf};
ghost use Rattle.qm_weight.specs.TermUnions.{clause_weighing, tree_in};

use crate::shared_runs::StandsFor;
use crate::terms_weight::{TermClause, TermsWeight};
use qm_docset::Score;
use qm_schema::QueryError;
use qm_term::Bm25Weight;

/// One of the clauses of a weight, beside that weight.
#[derive(Clone, Copy)]
pub(crate) struct ClauseIn<'w> {
    pub(super) weight: &'w TermsWeight,
    pub(super) clause: &'w TermClause,
}

impl StandsFor for ClauseIn<'_> {
    ghost tree = { tree_in };
}

impl<'w> ClauseIn<'w> {
    // What the term weighs at a boost. With scoring off its boost is 0, which fits whatever it weighs.
    pub(super) fn weight_at(&self, boost: u64) -> Result<Bm25Weight<&'w [u32; 256]>, QueryError>
        requires { boost ≤ greatest_score }
        ensures weighing { IfOk result (λ w. weighing w ≡ clause_weighing self.now boost) }
        ensures refused { IfErr result (IsRefusalOf (tree_in self.now) boost) }
    {
        let boost = if self.weight.rule.scoring_enabled {
            boost as Score
        } else {
            0
        };
        Bm25Weight::borrowing(self.clause.weight as Score, boost, &self.weight.norms)
    }
}
