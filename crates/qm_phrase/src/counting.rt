//! How many starts a phrase has in a document.
//!
//! What lies further than the slop before the greatest of the first places is passed at once: no start is there.

ghost use Rattle.std.specs.Prelude.{◌≡◌, ◌<◌, All, length, map, min};
ghost use Rattle.qm_phrase.specs.Places.{Ascends, HavePassed, greatest_first_place, least_first_place, past};
ghost use Rattle.qm_phrase.specs.Starts.{starts};
ghost use Rattle.qm_phrase.specs.TermRows.{AreInside, rows_left, terms_of};

use crate::row::ALL_PLACES;
use crate::term_row::TermRow;

/// The least and the greatest of the first places; [`ALL_PLACES`] stands for that of a term which has
/// none left.
pub(crate) fn first_places(rows: &[TermRow], positions: &[Vec<u32>]) -> (u64, u64)
    requires { AreInside (length positions.now) (terms_of rows.now) }
    ensures least { result.0 ≡ least_first_place (rows_left positions.now rows.now) }
    ensures greatest { result.1 ≡ greatest_first_place (rows_left positions.now rows.now) }
{
    let mut least = ALL_PLACES;
    let mut greatest = 0;
    // the least and the greatest of the first places of the rows before this one
    for row in rows {
        let place = row.first(positions);
        least = place.min(least);
        greatest = place.max(greatest);
    }
    (least, greatest)
}

/// Lets every term that begins with a place pass it, and then the places below a floor.
pub(crate) fn pass(rows: &mut [TermRow], positions: &[Vec<u32>], place: u64, floor: u64)
    requires inside { AreInside (length positions.now) (terms_of rows.old) }
    requires place { place < ALL_PLACES }
    requires rows { All (Ascends 0) (rows_left positions.now rows.old) }
    ensures left { HavePassed floor (map (past place) (rows_left positions.now rows.old)) (rows_left positions.now rows.new) }
    ensures terms { terms_of rows.new ≡ terms_of rows.old }
{
    // the rows before this one have gone by the place, and by all below the floor
    for row in rows.iter_mut() {
        row.pass(positions, place, floor);
    }
}

/// The number of starts, or `most` where there are more. It stops at that many, and where a term has
/// no place left.
///
/// One pass: the least of the first places is a start exactly where the greatest of them is within the
/// slop, and then every term that begins with it passes it. What lies further than the slop before the
/// greatest is no start, and is passed at once. So it takes at most the number of places times the number
/// of terms, and where terms have few places near each other their number times the logarithm of these.
pub(crate) fn count_starts(
    rows: &mut [TermRow],
    positions: &[Vec<u32>],
    slop: u32,
    most: u32,
) -> u32
    requires some { 0 < length rows.old }
    requires inside { AreInside (length positions.now) (terms_of rows.old) }
    requires rows { All (Ascends 0) (rows_left positions.now rows.old) }
    ensures count { result ≡ min most (starts slop (rows_left positions.now rows.old)) }
    ensures terms { terms_of rows.new ≡ terms_of rows.old }
{
    let mut count = 0;
    // of what the rows have gone by, so many places begin the phrase
    while count < most {
        let (least, greatest) = first_places(rows, positions);
        if greatest == ALL_PLACES {
            break;
        }
        if greatest <= least + u64::from(slop) {
            count += 1;
        }
        pass(
            rows,
            positions,
            least,
            greatest.saturating_sub(u64::from(slop)),
        );
    }
    count
}
