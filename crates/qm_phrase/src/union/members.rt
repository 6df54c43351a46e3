//! What several postings say together of a document: each of them stands there or past it.

ghost use Rattle.std.specs.Prelude.{◌≡◌, ◌+◌, ◌<◌, ◌≤◌, All, vec_capacity, vec_len};
ghost use Rattle.std.specs.List.Sorted.{IsStrictlyIncreasing};
ghost use Rattle.qm_docset.specs.Entry.{head_document};
ghost use Rattle.qm_docset.specs.Lists.{ArePlaced, bounds, lists};
ghost use Rattle.qm_phrase.specs.PostingUnions.{entries_at, united_frequency, united_positions, united_room};
ghost use Rattle.qm_postings.specs.Positions.{HasAdded, shifted};

use qm_docset::{DocId, TERMINATED};
use qm_postings::Postings;

/// The frequencies of the members that stand on a document, added up and held at 4294967295.
pub(super) fn frequency_at<P: Postings>(members: &[P], doc: DocId) -> u32
    requires members { ArePlaced P.DocSet members.now }
    requires doc { doc < TERMINATED }
    requires reached { All (λ m. doc ≤ head_document (P.entries m)) members.now }
    ensures { result ≡ united_frequency (entries_at doc (lists P.DocSet members.now)) }
{
    let mut frequency = 0u32;
    // the sum of the frequencies in the document of the members before this one
    for postings in members {
        if postings.doc() == doc {
            frequency = frequency.saturating_add(postings.term_freq());
        }
    }
    frequency
}

/// What the members' [`max_term_freq`](Postings::max_term_freq) add up to, held at [`u64::MAX`].
pub(super) fn room_of_all<P: Postings>(members: &[P]) -> u64
    requires { All P.valid members.now }
    ensures { result ≡ united_room (bounds P.DocSet members.now) }
{
    let mut room = 0u64;
    // the sum of the rooms of the members before this one
    for member in members {
        room = room.saturating_add(member.max_term_freq());
    }
    room
}

/// Adds to the output the positions of the members that stand on a document, each plus `offset`, and
/// leaves the whole output ascending, each number once. Asks for what
/// [`append_positions_with_offset`](Postings::append_positions_with_offset) does; takes no memory.
pub(super) fn append_positions<P: Postings>(
    members: &mut [P],
    doc: DocId,
    offset: u32,
    output: &mut Vec<u32>,
)
    requires members { ArePlaced P.DocSet members.old }
    requires doc { doc < TERMINATED }
    requires reached { All (λ m. doc ≤ head_document (P.entries m)) members.old }
    requires sums { All (λ p. p + offset ≤ 4294967295) (united_positions (entries_at doc (lists P.DocSet members.old))) }
    requires room { vec_len output.old + united_room (bounds P.DocSet members.old) ≤ vec_capacity output.old }
    ensures added { HasAdded (shifted offset (united_positions (entries_at doc (lists P.DocSet members.old)))) output.old.items output.new.items }
    ensures ascending { IsStrictlyIncreasing output.new.items }
    ensures longer { vec_len output.new ≤ vec_len output.old + united_room (bounds P.DocSet members.old) }
    ensures capacity { vec_capacity output.old ≤ vec_capacity output.new }
    ensures entries { lists P.DocSet members.new ≡ lists P.DocSet members.old }
    ensures limits { bounds P.DocSet members.new ≡ bounds P.DocSet members.old }
    ensures members { ArePlaced P.DocSet members.new }
{
    // the members before this one that stand on the document have added their positions
    for member in members.iter_mut() {
        if member.doc() == doc {
            member.append_positions_with_offset(offset, output);
        }
    }
    output.sort_unstable();
    output.dedup();
}
