//! The documents that enough of several scorers have.
//!
//! A count beside each state says how many members had the document, so a posting costs one step.

ghost use Rattle.std.specs.Prelude.{◌≤◌, IfErr, IfOk};
ghost use Rattle.qm_docset.specs.Lists.{ArePlaced};
ghost use Rattle.qm_combine.specs.Union.{IsBoundOrMemory, IsRefusedByBounds, ListsGathered};

use crate::counted::Counted;
use crate::do_nothing_combiner::DoNothingCombiner;
use crate::score_combiner::ScoreCombiner;
use crate::scorer::Scorer;
use crate::union::buffered_union::BufferedUnion;
use crate::union::least_members::AtLeast;
use qm_docset::DocSet;
use qm_schema::QueryError;
use std::alloc::Global;

/// The documents that at least a minimum of its members have, each with what a combiner makes of the
/// members' scores there: see [`BufferedUnion`]. A cursor that is a member twice counts twice.
///
/// It lists what a [`Disjunction`](crate::Disjunction) does. Each document of a member costs one step and one
/// score of that member, however many members there are; but the members stand behind the window. For members
/// that are asked for few of their documents the `Disjunction` is cheaper.
pub type BufferedDisjunction<S, C = DoNothingCombiner> = BufferedUnion<S, Counted<C>, AtLeast>;

impl<S: Scorer, C: ScoreCombiner> BufferedDisjunction<S, C> {
    /// The documents that at least `minimum` of the scorers have, in a segment of `num_docs` documents,
    /// which only the size hint depends on: none where the scorers are fewer. The combiner is cleared first.
    /// Asks for a minimum of 1 or more, which may be `usize::MAX`. The members are moved past the first
    /// window that has a document of enough of them; where they are fewer than that each is sent to its end at once.
    ///
    /// Refuses with [`QueryError::ScoreBound`] exactly where the members' `max_score` add up to more
    /// than 9223372036854775807, and otherwise with [`QueryError::Memory`] alone, where there is no
    /// room for a [`Window`](crate::Window). No later call takes memory.
    pub fn build(
        alloc: Global,
        docsets: Vec<S>,
        combiner: C,
        minimum: usize,
        num_docs: u32,
    ) -> Result<BufferedDisjunction<S, C>, QueryError>
        requires placed { ArePlaced S.DocSet docsets.items }
        requires minimum { 1 ≤ minimum }
        ensures refused { IsRefusedByBounds S.DocSet docsets.items result }
        ensures only { IfErr result IsBoundOrMemory }
        ensures lists { IfOk result
            (ListsGathered ⟦<BufferedDisjunction<S, C> as DocSet>⟧ S.DocSet minimum (C.combined combiner) docsets.items) }
    {
        BufferedUnion::over(
            alloc,
            docsets,
            Counted::new(combiner),
            AtLeast::new(minimum),
            num_docs,
        )
    }
}
