//! Explanations, of which a row has the values.

use cases::{Done, Fault, Listing, Memory, end_refusals};
use qm_docset::DocId;
use qm_postings::SegmentReader;
use qm_term::Explanation;
use qm_weight::Weight;
use std::alloc::Global;

/// The value of a weight's explanation, or those of its details.
pub fn explain<W: Weight>(
    alloc: Global,
    segment: &SegmentReader,
    weight: &W,
    doc: DocId,
    are_details: bool,
    memory: Memory,
    text: &mut Listing,
) -> Done {
    memory.begin(alloc);
    let explained = weight.explain(alloc, segment, doc);
    end_refusals(alloc);
    Ok(write_values(&explained?, are_details, text))
}

/// Whether the text behind `prints DOC` stands in what is printed of a weight's explanation.
pub fn print<W: Weight>(
    alloc: Global,
    segment: &SegmentReader,
    weight: &W,
    doc: DocId,
    call: &str,
    text: &mut Listing,
) -> Done {
    let Some((_, wanted)) = call
        .split_once(' ')
        .and_then(|(_, rest)| rest.split_once(' '))
    else {
        return Err(Fault::NotUnderstood);
    };
    let explanation = weight.explain(alloc, segment, doc)?;
    let printed = format!(in alloc; "{explanation:?}")?;
    Ok(write!(text, "{}", printed.contains(wanted)))
}

/// Writes the value of an explanation, or those of its details.
pub fn write_values(explanation: &Explanation, are_details: bool, text: &mut Listing) {
    if !are_details {
        return text.add(explanation.value());
    }
    // the values of the details before this one are written
    for detail in explanation.details() {
        text.add(detail.value());
    }
}
