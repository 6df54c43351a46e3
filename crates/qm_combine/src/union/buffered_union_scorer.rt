//! The documents that any of several scorers has.

ghost use Rattle.std.specs.Prelude.{IfErr, IfOk};
ghost use Rattle.qm_docset.specs.Lists.{ArePlaced};
ghost use Rattle.qm_combine.specs.Union.{InAnyOrder, IsBoundOrMemory, IsRefusedByBounds, ListsGathered};

use crate::do_nothing_combiner::DoNothingCombiner;
use crate::score_combiner::ScoreCombiner;
use crate::scorer::Scorer;
use crate::union::buffered_union::BufferedUnion;
use crate::union::least_members::AnyMember;
use qm_docset::DocSet;
use qm_schema::QueryError;
use std::alloc::Global;

/// The documents that any of its members has, each with what a combiner makes of the members'
/// scores there: see [`BufferedUnion`].
pub type BufferedUnionScorer<S, C = DoNothingCombiner> = BufferedUnion<S, C, AnyMember>;

impl<S: Scorer, C: ScoreCombiner> BufferedUnionScorer<S, C> {
    /// The union of any number of scorers, in any order, in a segment of `num_docs` documents, which
    /// only the size hint depends on. The combiner is cleared first. The members are moved past the
    /// first window.
    ///
    /// Refuses with [`QueryError::ScoreBound`] exactly where the members' `max_score` add up to more
    /// than 9223372036854775807, and otherwise with [`QueryError::Memory`] alone, where there is no
    /// room for a [`Window`](crate::Window). No later call takes memory.
    pub fn build(
        alloc: Global,
        docsets: Vec<S>,
        combiner: C,
        num_docs: u32,
    ) -> Result<BufferedUnionScorer<S, C>, QueryError>
        requires placed { ArePlaced S.DocSet docsets.items }
        ensures refused { IsRefusedByBounds S.DocSet docsets.items result }
        ensures only { IfErr result IsBoundOrMemory }
        ensures lists { IfOk result (ListsGathered ⟦<BufferedUnionScorer<S, C> as DocSet>⟧ S.DocSet 1 (C.combined combiner) docsets.items) }
        ensures any_order { InAnyOrder docsets.items (λ members.
            IfOk result (ListsGathered ⟦<BufferedUnionScorer<S, C> as DocSet>⟧ S.DocSet 1 (C.combined combiner) members)) }
    {
        BufferedUnion::over(alloc, docsets, combiner, AnyMember, num_docs)
    }
}
