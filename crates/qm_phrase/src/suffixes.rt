//! The terms that begin with the prefix of a phrase prefix. They need not stand anywhere between two
//! calls.
//!
//! They stand in a row which is a tree: the middle of a row is its root, and the rows on both sides of
//! it are its branches. Each term knows a document before which it has none, and one before which
//! neither it nor its branches have any; so branches that lie past a document are left out.

ghost use Rattle.std.specs.Prelude.{◌≡◌, ◌<◌, ◌≤◌, All, IfOk, map, min, sum_by};
ghost use Rattle.qm_docset.specs.Entry.{from};
ghost use Rattle.qm_docset.specs.Lists.{lists};
ghost use Rattle.qm_phrase.specs.PhrasePrefix.{shared_count};
ghost use Rattle.qm_phrase.specs.Places.{Ascends, places_of, room_of, shift_of};
ghost use Rattle.qm_phrase.specs.Suffixes.{AreSuffixes, IsSuffix, NoneBefore, postings_of_suffix, suffix_bounds, suffix_lists};

use crate::common_places::count_shared;
use crate::places::Places;
use qm_docset::{DocId, DocSet, SeekDangerResult, TERMINATED};
use qm_postings::Postings;
use std::alloc::{AllocError, Global};

/// A term that begins with the prefix, in a row of them. It has no document before its own bound, and
/// neither it nor its branches have one before the least bound.
#[derive(Drop)]
pub(crate) struct Suffix<P> {
    pub(crate) postings: P,
    pub(crate) own_bound: DocId,
    pub(crate) least_bound: DocId,
}

/// The row of some terms, of which no bounds are known yet. Fails where there is no room for it.
pub(crate) fn row_of_suffixes<P: Postings>(
    alloc: Global,
    suffixes: Vec<P>,
    places: &Places,
) -> Result<Vec<Suffix<P>>, AllocError>
    requires valid { All P.valid suffixes.items }
    requires fit { All (λ m. (P.limits m).room ≤ room_of places.now) suffixes.items }
    ensures row { IfOk result (λ row. AreSuffixes P.DocSet row.items places.now) }
    ensures lists { IfOk result (λ row. suffix_lists P.DocSet row.items ≡ lists P.DocSet suffixes.items) }
{
    let mut row = Vec::with_capacity(alloc, suffixes.len())?;
    // the suffixes before this one are in the row, with bounds of 0
    for postings in suffixes {
        row.push(Suffix {
            postings,
            own_bound: 0,
            least_bound: 0,
        })?;
    }
    Ok(row)
}

/// Takes one term to a document, where it may have that, and answers how many of the common places it
/// has there, held at 4294967295.
fn count_suffix<P: Postings>(
    suffix: &mut Suffix<P>,
    places: &mut Places,
    common: &mut Places,
    doc: DocId,
) -> u32
    requires suffix { IsSuffix P.DocSet suffix.old }
    requires room { (P.limits (postings_of_suffix suffix.old)).room ≤ room_of places.old }
    requires shift { shift_of places.old ≤ 4294967295 }
    requires common { Ascends 0 (places_of common.old) }
    requires doc { doc < TERMINATED }
    ensures count { result ≡ min 4294967295 (shared_count (shift_of places.old) (places_of common.old) doc (P.entries (postings_of_suffix suffix.old))) }
    ensures entries { P.entries (postings_of_suffix suffix.new) ≡ from doc (P.entries (postings_of_suffix suffix.old)) }
    ensures limits { P.limits (postings_of_suffix suffix.new) ≡ P.limits (postings_of_suffix suffix.old) }
    ensures suffix { IsSuffix P.DocSet suffix.new }
    ensures shift { shift_of places.new ≡ shift_of places.old }
    ensures room { room_of places.old ≤ room_of places.new }
    ensures common { places_of common.new ≡ places_of common.old }
    ensures common_shift { shift_of common.new ≡ shift_of common.old }
    ensures common_room { room_of common.new ≡ room_of common.old }
{
    if doc < suffix.own_bound {
        return 0;
    }
    match suffix.postings.seek_danger(doc) {
        SeekDangerResult::Found => {
            suffix.own_bound = doc;
            places.read(&mut suffix.postings);
            count_shared(common, places)
        }
        SeekDangerResult::SeekLowerBound(bound) => {
            suffix.own_bound = bound;
            0
        }
    }
}

/// Takes the terms of a row to a document, and answers how many of the common places each has there,
/// all together, held at 4294967295; and a document before which none of them has any then. Takes no
/// memory.
///
/// Branches that have nothing before their least bound are left out where that is past the document. So
/// it costs what the terms cost that may have the document, and for each of them at most the logarithm
/// of the number of terms.
pub(crate) fn count_suffixes<P: Postings>(
    row: &mut [Suffix<P>],
    places: &mut Places,
    common: &mut Places,
    doc: DocId,
) -> (u32, DocId)
    requires row { AreSuffixes P.DocSet row.old places.old }
    requires shift { shift_of places.old ≤ 4294967295 }
    requires common { Ascends 0 (places_of common.old) }
    requires doc { doc < TERMINATED }
    ensures count { result.0 ≡ min 4294967295 (sum_by (shared_count (shift_of places.old) (places_of common.old) doc) (suffix_lists P.DocSet row.old)) }
    ensures bound { NoneBefore result.1 row.new }
    ensures entries { suffix_lists P.DocSet row.new ≡ map (from doc) (suffix_lists P.DocSet row.old) }
    ensures limits { suffix_bounds P.DocSet row.new ≡ suffix_bounds P.DocSet row.old }
    ensures row { AreSuffixes P.DocSet row.new places.new }
    ensures shift { shift_of places.new ≡ shift_of places.old }
    ensures room { room_of places.old ≤ room_of places.new }
    ensures common { places_of common.new ≡ places_of common.old }
    ensures common_shift { shift_of common.new ≡ shift_of common.old }
    ensures common_room { room_of common.new ≡ room_of common.old }
{
    let middle = row.len() / 2;
    let (left, others) = row.split_at_mut(middle);
    let Some((root, right)) = others.split_first_mut() else {
        return (0, TERMINATED);
    };
    if doc < root.least_bound {
        return (0, root.least_bound);
    }
    let (before, low) = count_suffixes(left, places, common, doc);
    let here = count_suffix(root, places, common, doc);
    let (behind, high) = count_suffixes(right, places, common, doc);
    root.least_bound = root.own_bound.min(low).min(high);
    let count = before.saturating_add(here).saturating_add(behind);
    (count, root.least_bound)
}
