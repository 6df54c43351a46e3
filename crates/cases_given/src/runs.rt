//! The runs of a weight, with some requests for memory refused in the one call.

use cases::{Done, Fault, Listing, Memory, Pruning, end_refusals};
use qm_docset::Score;
use qm_postings::SegmentReader;
use qm_weight::Weight;
use std::alloc::Global;

/// The calls of `for_each`.
pub fn run_each<W: Weight>(
    alloc: Global,
    segment: &SegmentReader,
    weight: &W,
    memory: Memory,
    text: &mut Listing,
) -> Done {
    memory.begin(alloc);
    let run = weight.for_each(alloc, segment, &mut |doc, score| text.score(doc, score));
    Ok(run?)
}

/// The documents of the calls of `for_each`, where their scores are open.
pub fn run_called<W: Weight>(
    alloc: Global,
    segment: &SegmentReader,
    weight: &W,
    memory: Memory,
    text: &mut Listing,
) -> Done {
    memory.begin(alloc);
    let run = weight.for_each(alloc, segment, &mut |doc, _score| text.next(doc));
    Ok(run?)
}

/// How long the slices of `for_each_no_score` are.
pub fn run_slices<W: Weight>(
    alloc: Global,
    segment: &SegmentReader,
    weight: &W,
    memory: Memory,
    text: &mut Listing,
) -> Done {
    memory.begin(alloc);
    let run = weight.for_each_no_score(alloc, segment, &mut |docs| text.add(docs.len()));
    Ok(run?)
}

/// The slices of `for_each_no_score`, joined.
pub fn run_documents<W: Weight>(
    alloc: Global,
    segment: &SegmentReader,
    weight: &W,
    memory: Memory,
    text: &mut Listing,
) -> Done {
    memory.begin(alloc);
    let run = weight.for_each_no_score(alloc, segment, &mut |docs| text.documents(docs));
    Ok(run?)
}

/// The calls of `for_each_pruning` from a threshold on.
pub fn run_pruning<W: Weight>(
    alloc: Global,
    segment: &SegmentReader,
    weight: &W,
    threshold: Score,
    memory: Memory,
    mut pruning: Pruning<'_>,
) -> Done {
    memory.begin(alloc);
    let run = weight.for_each_pruning(
        alloc,
        threshold,
        segment,
        &mut |doc, score| pruning.call(doc, score),
    );
    Ok(run?)
}

/// How many documents `for_each_pruning_counted` scores from a threshold on.
pub fn run_counted<W: Weight>(
    alloc: Global,
    segment: &SegmentReader,
    weight: &W,
    threshold: Score,
    memory: Memory,
    mut pruning: Pruning<'_>,
) -> Result<u128, Fault> {
    memory.begin(alloc);
    let run = weight.for_each_pruning_counted(
        alloc,
        threshold,
        segment,
        &mut |doc, score| pruning.call(doc, score),
    );
    end_refusals(alloc);
    Ok(run?.ticks)
}
