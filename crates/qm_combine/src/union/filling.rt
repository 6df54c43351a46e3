//! The filling of a window out of the members of a cursor.

ghost use Rattle.std.specs.Prelude.{◌≡◌, ℕ, ◌+◌, ◌<◌, ◌≤◌, fold, length, map, nat_le, true, false};
ghost use Rattle.qm_docset.specs.Entry.{from, greatest_score};
ghost use Rattle.qm_docset.specs.Gather.{scores_at};
ghost use Rattle.qm_docset.specs.Lists.{ArePlaced, bounds, lists};
ghost use Rattle.qm_combine.specs.Combiner.{IsCleared};
ghost use Rattle.qm_combine.specs.Union.{least_head, total_top};
ghost use Rattle.qm_combine.specs.Window.{IsUntil, window_combiner, window_has, window_start, window_state};

use crate::score_combiner::ScoreCombiner;
use crate::scorer::Scorer;
use crate::union::window::Window;
use qm_docset::{DocId, DocSet, TERMINATED};

/// Lets the window begin at the least document of the members, and takes into it all that they have
/// out of so many documents from there on. Answers the least document that they then stand on.
pub(super) fn take_members<S: Scorer, C: ScoreCombiner>(
    members: &mut [S],
    window: &mut Window<C>,
    first: DocId,
    span: u32,
) -> DocId
    requires members { ArePlaced S.DocSet members.old }
    requires room { total_top (bounds S.DocSet members.old) ≤ greatest_score }
    requires until { IsUntil window.old }
    requires cleared { IsCleared C.cleared (window_combiner window.old) }
    requires first { first ≡ least_head (lists S.DocSet members.old) }
    requires span { (1 ≤ span) × (span ≤ 4096) }
    requires some { first < TERMINATED }
    ensures documents { (d : ℕ) → d < first + span →
        window_has window.new d ≡ nat_le 1 (length (scores_at d (lists S.DocSet members.old))) }
    ensures beyond { (d : ℕ) → first + span ≤ d → window_has window.new d ≡ false }
    ensures states { (d : ℕ) → d < first + span →
        window_state window.new d ≡ fold C.step (window_combiner window.old) (scores_at d (lists S.DocSet members.old)) }
    ensures left { lists S.DocSet members.new ≡ map (from (first + span)) (lists S.DocSet members.old) }
    ensures least { result ≡ least_head (lists S.DocSet members.new) }
    ensures behind { (d : ℕ) → window_has window.new d ≡ true → d < result }
    ensures start { window_start window.new ≡ first }
    ensures until { IsUntil window.new }
    ensures combiner { window_combiner window.new ≡ window_combiner window.old }
    ensures limits { bounds S.DocSet members.new ≡ bounds S.DocSet members.old }
    ensures members { ArePlaced S.DocSet members.new }
{
    window.reset_until_last(first);
    let mut least = TERMINATED;
    // the window has what the members before have below its bound, and they stand at or past it
    for member in members.iter_mut() {
        least = window.take_in(member, first + span).min(least);
    }
    least
}
