//! Rows that are lent one by one, wherever they lie.

ghost use Rattle.std.specs.Prelude.{◌≡◌, ◌<◌, ◌↔◌, IsTrue, List, length, slice_index_or};
ghost use Rattle.qm_postings.specs.LentRow.{lent_row};
ghost use Rattle.qm_postings.specs.Rows.{Row, no_row};
ghost use Rattle.qm_postings.specs.RowsSoFar.{IsLaid};

use crate::rows_builder::checks::is_laid;
use crate::term_row::{TermRow, TermRowRef};

/// Some rows.
pub(crate) trait LentRows {
    // what they are
    ghost rows: { Self → List Row };

    // How many there are.
    fn row_count(&self) -> usize
        ensures { result ≡ length (rows self.now) };

    // The row at a place.
    fn row_at(&self, place: usize) -> TermRowRef<'_>
        requires { place < length (rows self.now) }
        ensures { lent_row result ≡ slice_index_or (rows self.now) place no_row };

    // Whether the documents of the row at a place ascend, each has a frequency, and there are positions, which ascend,
    // of each posting or of none.
    fn is_laid_at(&self, place: usize) -> bool
        requires { place < length (rows self.now) }
        ensures { IsTrue result ↔ IsLaid (slice_index_or (rows self.now) place no_row) };
}

impl LentRows for Vec<TermRow> {
    ghost rows = { λ v. v.items };

    fn row_count(&self) -> usize {
        self.len()
    }

    fn row_at(&self, place: usize) -> TermRowRef<'_> {
        self[place].lent()
    }

    fn is_laid_at(&self, place: usize) -> bool {
        is_laid(&self[place])
    }
}
