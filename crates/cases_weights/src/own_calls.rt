//! Calls of a kind of weights itself, and not of the type that is any of them.

use cases::{Done, Listing, Memory};
use cases_given::ask_weight;
use qm_postings::SegmentReader;
use qm_weight::AnyWeight;
use std::alloc::Global;

/// Writes what the kind that a weight is answers to a call.
pub fn ask_kind_of_weight(
    alloc: Global,
    segment: &SegmentReader,
    weight: &AnyWeight,
    call: &str,
    memory: Memory,
    text: &mut Listing,
) -> Done {
    match weight {
        AnyWeight::All(kind) => ask_weight(alloc, segment, kind, call, memory, text),
        AnyWeight::Empty(kind) => ask_weight(alloc, segment, kind, call, memory, text),
        AnyWeight::Term(kind) => ask_weight(alloc, segment, kind, call, memory, text),
        AnyWeight::Terms(kind) => ask_weight(alloc, segment, kind, call, memory, text),
        AnyWeight::Phrase(kind) => ask_weight(alloc, segment, kind, call, memory, text),
        AnyWeight::PhrasePrefix(kind) => ask_weight(alloc, segment, kind, call, memory, text),
        AnyWeight::Prefix(kind) => ask_weight(alloc, segment, kind, call, memory, text),
        AnyWeight::Boost(kind) => ask_weight(alloc, segment, kind, call, memory, text),
        AnyWeight::Const(kind) => ask_weight(alloc, segment, kind, call, memory, text),
        AnyWeight::Boolean(kind) => ask_weight(alloc, segment, kind, call, memory, text),
    }
}
