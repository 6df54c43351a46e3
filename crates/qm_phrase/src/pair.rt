//! How many starts a phrase of two terms has in a document.

ghost use Rattle.std.specs.Prelude.{◌≡◌, ◌∷◌, [], All, min};
ghost use Rattle.qm_postings.specs.Positions.{shifted};
ghost use Rattle.qm_phrase.specs.Places.{Ascends};
ghost use Rattle.qm_phrase.specs.Starts.{starts};

/// The number of starts of two terms, each with its positions and how far they are shifted, or `most`
/// where there are more. It stops at that many, and where a term has no place left.
///
/// A merge of their places: it takes at most a step for each of them, and no step has a branch that hangs
/// on which of them comes first.
#[inline]
pub(crate) fn count_pair(
    shift: u32,
    positions: &[u32],
    other_shift: u32,
    other_positions: &[u32],
    slop: u32,
    most: u32,
) -> u32
    requires { All (Ascends 0) (shifted shift positions.now ∷ shifted other_shift other_positions.now ∷ []) }
    ensures { result ≡ min most (starts slop (shifted shift positions.now ∷ shifted other_shift other_positions.now ∷ [])) }
{
    let mut passed = 0;
    let mut other_passed = 0;
    let mut count = 0;
    // the starts counted and those of what is left are all starts
    while count < most && passed < positions.len() && other_passed < other_positions.len() {
        let place = u64::from(positions[passed]) + u64::from(shift);
        let other_place = u64::from(other_positions[other_passed]) + u64::from(other_shift);
        let least = place.min(other_place);
        if place.max(other_place) <= least + u64::from(slop) {
            count += 1;
        }
        passed += usize::from(place == least);
        other_passed += usize::from(other_place == least);
    }
    count
}
