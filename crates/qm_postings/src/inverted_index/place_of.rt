//! The place of a term among the terms of a segment.

ghost use Rattle.std.specs.Prelude.{◌≡◌, [], Some, IfSome};
ghost use Rattle.std.specs.List.{slice_get};
ghost use Rattle.std.specs.Option.{IsNone};
ghost use Rattle.qm_schema.specs.Term.{term_cmp};
ghost use Rattle.qm_postings.specs.Segment.{holders};

use super::sought_term::SoughtTerm;
use crate::segment_reader::SegmentReader;

// Where a term stands among the terms of a segment, and `None` exactly where no document holds it. Most terms stand
// where they are guessed to.
pub(super) fn place_of(reader: &SegmentReader, sought: SoughtTerm<'_>) -> Option<usize>
    ensures place { IfSome result (λ place. slice_get reader.now.terms place ≡ Some sought.entry.term.now) }
    ensures none { IsNone result → holders reader.now.segment sought.entry.term.now ≡ [] }
{
    if let Some(place) = guessed_place(reader, sought) {
        return Some(place);
    }
    searched_place(reader, sought)
}

// Where it is guessed to stand, if it does.
fn guessed_place(reader: &SegmentReader, sought: SoughtTerm<'_>) -> Option<usize>
    ensures { IfSome result (λ place. slice_get reader.now.terms place ≡ Some sought.entry.term.now) }
{
    let slot = reader.guesses.slot_of(sought.head(), sought.text());
    // the slots before say nothing of it
    for guess in reader.guesses.guesses_from(slot) {
        let place = *guess as usize;
        if place < reader.terms.len() && sought.is_of(&reader.terms[place]) {
            return Some(place);
        }
    }
    None
}

// The same by halving the terms, which are in order.
fn searched_place(reader: &SegmentReader, sought: SoughtTerm<'_>) -> Option<usize>
    ensures place { IfSome result (λ place. slice_get reader.now.terms place ≡ Some sought.entry.term.now) }
    ensures none { IsNone result → holders reader.now.segment sought.entry.term.now ≡ [] }
{
    let place = reader.terms.binary_search_by(
        |entry|
            ensures { result ≡ term_cmp entry.now.term sought.entry.term.now }
        { sought.compare(entry) },
    );
    let Ok(place) = place else {
        return None;
    };
    Some(place)
}
