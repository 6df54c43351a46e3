//! Documents whose words are handed in with their places, and with a length.

ghost use Rattle.std.specs.Prelude.{◌≡◌, ◌≢◌, ◌↔◌, IfErr, IfOk, IsErrOf, OnErr, OnOk, slice_range};
ghost use Rattle.qm_index.specs.Indexed.{indexed, statistics, with_document_of};
ghost use Rattle.birchagain.specs.Body.{body_term};
ghost use Rattle.birchagain.specs.CutWords.{IsCutRefusal, bytes_between};
ghost use Rattle.birchagain.specs.Placed.{ArePlaced, AreUneven, IsPlacedRefusal, IsPlacedWord, IsRowsRefusal, placed_draft};

use crate::body::{body, body_term};
use crate::cut_words::text_between;
use crate::refusal::Refusal;
use qm_index::{GivenDocument, Index};
use qm_schema::Term;
use std::alloc::Global;

/// Adds a document with these words, each at these places, to the open segment. The words stand in the bytes one behind
/// the other, as [`crate::add_words`] takes them, but may have spaces, and each stands there once. Their places,
/// counted in words from 0 up, stand one behind the other too; those of a word end where its number of `place_ends`
/// says. So there may be gaps, and words that share a place. `length` is the document's length id, whatever the number
/// of its words. Costs a copy of the words and places, and what [`Index::add_given`] does.
///
/// Refused with [`Refusal::UnevenRows`] exactly where there are not as many ends of places as of words. Else with
/// [`Refusal::NotWords`] or [`Refusal::NotText`] only where these are no words with places: ends that do not ascend
/// within the bytes, or ends of places that fall or lie beyond them, or a word that is not UTF-8. Else as
/// [`Index::add_given`] is: with [`QueryError::BadDocument`](qm_schema::QueryError::BadDocument) where a word is given
/// twice or has no place, or its places do not ascend or reach 4294967295.
pub fn add_placed(
    alloc: Global,
    index: &mut Index,
    bytes: &[u8],
    ends: &[usize],
    places: &[u32],
    place_ends: &[usize],
    length: u8,
) -> Result<(), Refusal>
    ensures added { OnOk result
        (indexed index.new ≡ with_document_of (indexed index.old) (placed_draft ends.now place_ends.now bytes.now places.now length)) }
    ensures good { OnOk result (ArePlaced 0 0 ends.now place_ends.now bytes.now places.now) }
    ensures unchanged { OnErr result (indexed index.new ≡ indexed index.old) }
    ensures statistics { statistics index.new ≡ statistics index.old }
    ensures uneven { IsErrOf result Refusal.UnevenRows ↔ AreUneven ends.now place_ends.now }
    ensures refused { IfErr result
        (IsPlacedRefusal ends.now place_ends.now bytes.now places.now length (indexed index.old).current) }
{
    let document = placed_document(alloc, bytes, ends, places, place_ends, length)?;
    index.add_given(alloc, document)?;
    Ok(())
}

// The document of these words with their places, and of this length id.
fn placed_document(
    alloc: Global,
    bytes: &[u8],
    ends: &[usize],
    places: &[u32],
    place_ends: &[usize],
    length: u8,
) -> Result<GivenDocument, Refusal>
    ensures draft { IfOk result (λ document. document ≡ placed_draft ends.now place_ends.now bytes.now places.now length) }
    ensures good { OnOk result (ArePlaced 0 0 ends.now place_ends.now bytes.now places.now) }
    ensures uneven { IsErrOf result Refusal.UnevenRows ↔ AreUneven ends.now place_ends.now }
    ensures refused { IfErr result (IsRowsRefusal ends.now place_ends.now bytes.now places.now) }
{
    if place_ends.len() != ends.len() {
        return Err(Refusal::UnevenRows);
    }
    let mut document = GivenDocument::new(alloc);
    let mut start = 0;
    let mut first = 0;
    // the words that end before `start` are in it, and good, with their places, which end before `first`
    for (end, last) in ends.iter().zip(place_ends) {
        let (term, positions) = placed_word(alloc, bytes, start, *end, places, first, *last)?;
        document.add_term(term, positions)?;
        start = *end;
        first = *last;
    }
    document.set_length(body(), length)?;
    Ok(document)
}

// The word that the bytes from one place to another are, as a term, and the places that stand from one on to another.
fn placed_word(
    alloc: Global,
    bytes: &[u8],
    start: usize,
    end: usize,
    places: &[u32],
    first: usize,
    last: usize,
) -> Result<(Term, Vec<u32>), Refusal>
    ensures term { IfOk result (λ given. given.0 ≡ body_term (bytes_between start end bytes.now)) }
    ensures places { IfOk result (λ given. given.1.items ≡ slice_range places.now first last) }
    ensures good { OnOk result (IsPlacedWord start end first last bytes.now places.now) }
    ensures refused { IfErr result (IsCutRefusal (IsPlacedWord start end first last bytes.now places.now)) }
{
    if first > last || last > places.len() {
        return Err(Refusal::NotWords);
    }
    let word = text_between(bytes, start, end)?;
    let term = body_term(alloc, word)?;
    let positions = Vec::from_slice(alloc, &places[first..last])?;
    Ok((term, positions))
}
