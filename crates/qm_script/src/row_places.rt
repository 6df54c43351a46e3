//! Where the rows of terms stand in a segment.

ghost use Rattle.std.specs.Prelude.{◌≡◌, ◌<◌, ◌≤◌, IfSome, length, map};
ghost use Rattle.std.specs.Ordering.{eq_by_cmp};
ghost use Rattle.qm_postings.specs.Restriction.{rows_wanted};
ghost use Rattle.qm_postings.specs.TermRange.{IsStartOf};
ghost use Rattle.qm_schema.specs.Term.{term_cmp};
ghost use Rattle.qm_script.specs.RowPlaces.{rows_at};

use qm_postings::SegmentReader;
use qm_schema::Term;
use std::cmp::Ordering;

/// The place of the row of a term, and none where the segment has none of it. Costs the logarithm of the number of rows.
pub(crate) fn row_place(segment: &SegmentReader, term: &Term) -> Option<usize>
    ensures there { IfSome result (λ place. place < length segment.now.rows) }
    ensures row { rows_wanted (eq_by_cmp term_cmp term.now) segment.now.rows ≡ rows_at segment.now.rows result }
{
    let place = first_place(segment, term);
    if place < segment.row_count() && segment.row(place).term() == term {
        Some(place)
    } else {
        None
    }
}

// The place of the first row whose term does not come before one. By halving.
fn first_place(segment: &SegmentReader, term: &Term) -> usize
    ensures within { result ≤ length segment.now.rows }
    ensures start { IsStartOf term.now (map (λ r. r.term) segment.now.rows) result }
{
    let mut low = 0;
    let mut high = segment.row_count();
    // each row before `low` is of a term that comes before it, and none from `high` on
    while low < high {
        let middle = low + (high - low) / 2;
        match segment.row(middle).term().cmp(term) {
            Ordering::Less => low = middle + 1,
            Ordering::Equal | Ordering::Greater => high = middle,
        }
    }
    low
}
