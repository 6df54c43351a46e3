//! The places that all of some terms have in a document.

ghost use Rattle.std.specs.Prelude.{◌≡◌, ◌∷◌, ◌≤◌, [], All, length, min, slice_index_or};
ghost use Rattle.qm_phrase.specs.PhrasePrefix.{IsCommonOf, common_count};
ghost use Rattle.qm_phrase.specs.Places.{Ascends, places_left, places_of, room_of, shift_of};
ghost use Rattle.qm_phrase.specs.TermRows.{AreInside, first_term, rows_left, terms_of};

use crate::counting::{first_places, pass};
use crate::places::Places;
use crate::row::ALL_PLACES;
use crate::term_row::TermRow;

/// Leaves in `common` the places that all terms have.
///
/// One pass: the least of the first places is common exactly where it is the greatest of them too, and
/// then every term that begins with it passes it, and at once what lies below the greatest. So it takes
/// at most the number of places times the number of terms. Asks that `common` is shifted as the first
/// term, and has room for its places.
pub(crate) fn collect_common(rows: &mut [TermRow], positions: &[Vec<u32>], common: &mut Places)
    requires some { 1 ≤ length rows.old }
    requires inside { AreInside (length positions.now) (terms_of rows.old) }
    requires rows { All (Ascends 0) (rows_left positions.now rows.old) }
    requires shift { shift_of common.old ≡ (first_term (terms_of rows.old)).0 }
    requires room { length (slice_index_or (rows_left positions.now rows.old) 0 []) ≤ room_of common.old }
    ensures common { IsCommonOf (rows_left positions.now rows.old) (places_of common.new) }
    ensures shift { shift_of common.new ≡ shift_of common.old }
    ensures room { room_of common.old ≤ room_of common.new }
    ensures terms { terms_of rows.new ≡ terms_of rows.old }
{
    common.clear();
    // of what the rows have gone by, the places that all have are in the list
    loop {
        let (least, greatest) = first_places(rows, positions);
        if greatest == ALL_PLACES {
            return;
        }
        if least == greatest {
            let first = &rows[0];
            common.push_first(&positions[first.member], &first.row);
        }
        pass(rows, positions, least, greatest);
    }
}

/// How many places of a row are among the common ones, held at 4294967295. The two are merged, and what
/// lies before the first place of the other is passed at once: it takes at most the number of their
/// places, and at most that of either times the logarithm of the other.
pub(crate) fn count_shared(common: &mut Places, row: &mut Places) -> u32
    requires common { Ascends 0 (places_of common.old) }
    requires row { Ascends 0 (places_left row.old) }
    ensures count { result ≡ min 4294967295 (common_count (places_left row.old ∷ places_of common.old ∷ [])) }
    ensures common { places_of common.new ≡ places_of common.old }
    ensures common_shift { shift_of common.new ≡ shift_of common.old }
    ensures common_room { room_of common.new ≡ room_of common.old }
    ensures shift { shift_of row.new ≡ shift_of row.old }
    ensures room { room_of row.new ≡ room_of row.old }
{
    common.rewind();
    let mut count = 0;
    // of what both rows have gone by, so many places are in both
    while count < u32::MAX {
        let (place, other) = (row.first(), common.first());
        let greatest = place.max(other);
        if greatest == ALL_PLACES {
            break;
        }
        if place == other {
            count += 1;
        }
        let least = place.min(other);
        row.pass(least);
        common.pass(least);
        row.pass_below(greatest);
        common.pass_below(greatest);
    }
    count
}
