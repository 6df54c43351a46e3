//! What a weight answers to rows.

use crate::asked::{Asked, read_asked};
use crate::explained::{explain, print};
use crate::phrase_counts::{write_counts, write_kind};
use crate::runs::{run_called, run_counted, run_documents, run_each, run_pruning, run_slices};
use cases::{Done, Fault, Listing, Memory, Pruning, Reply, end_refusals, replies_of, threshold_of};
use qm_docset::Score;
use qm_postings::SegmentReader;
use qm_weight::Weight;
use std::alloc::Global;

/// The number that a text spells.
pub fn read_number(text: &str) -> Result<u32, Fault> {
    match text.parse() {
        Ok(number) => Ok(number),
        Err(_) => Err(Fault::NotUnderstood),
    }
}

/// Writes what a weight answers to a call.
pub fn ask_weight<W: Weight>(
    alloc: Global,
    segment: &SegmentReader,
    weight: &W,
    call: &str,
    memory: Memory,
    text: &mut Listing,
) -> Done {
    if let Some(boost) = call.strip_prefix("fits ") {
        return write_fits(weight, boost, text);
    }
    match read_asked(alloc, call)? {
        Asked::Each => run_each(alloc, segment, weight, memory, text),
        Asked::Slices => run_slices(alloc, segment, weight, memory, text),
        Asked::Docs => run_documents(alloc, segment, weight, memory, text),
        Asked::Called => run_called(alloc, segment, weight, memory, text),
        Asked::Prune => prune(alloc, segment, weight, call, true, memory, text),
        Asked::Pruned => prune(alloc, segment, weight, call, false, memory, text),
        Asked::Scored => write_scored(alloc, segment, weight, call, memory, text),
        Asked::Count => count(alloc, segment, weight, memory, text),
        Asked::Explain(doc) => explain(alloc, segment, weight, doc, false, memory, text),
        Asked::Details(doc) => explain(alloc, segment, weight, doc, true, memory, text),
        Asked::Prints(doc) => print(alloc, segment, weight, doc, call, text),
        Asked::PhraseCounts => write_counts(alloc, segment, weight, text),
        Asked::Kind => write_kind(alloc, segment, weight, memory, text),
    }
}

// Whether a weight fits at the boost that a text spells.
fn write_fits<W: Weight>(weight: &W, boost: &str, text: &mut Listing) -> Done {
    let Ok(boost) = boost.parse::<Score>() else {
        return Err(Fault::NotUnderstood);
    };
    if boost < 0 {
        return Err(Fault::NotAllowed);
    }
    Ok(write!(text, "{}", weight.fits(boost)))
}

fn prune<W: Weight>(
    alloc: Global,
    segment: &SegmentReader,
    weight: &W,
    call: &str,
    has_scores: bool,
    memory: Memory,
    text: &mut Listing,
) -> Done {
    let threshold = threshold_of(alloc, call)?;
    let replies = replies_of(alloc, call)?;
    let pruning = Pruning {
        text,
        replies: replies.as_slice(),
        last: Reply::ItsScore,
        has_scores,
    };
    run_pruning(alloc, segment, weight, threshold, memory, pruning)
}

// How many documents a pruned run scores. The text, which was empty, has room for what its calls say, so that no memory
// is asked for but what the run takes; no more than the number is left in it.
fn write_scored<W: Weight>(
    alloc: Global,
    segment: &SegmentReader,
    weight: &W,
    call: &str,
    memory: Memory,
    text: &mut Listing,
) -> Done {
    let scored = count_scored(alloc, segment, weight, call, memory, text)?;
    text.clear();
    Ok(write!(text, "{scored}"))
}

fn count_scored<W: Weight>(
    alloc: Global,
    segment: &SegmentReader,
    weight: &W,
    call: &str,
    memory: Memory,
    text: &mut Listing,
) -> Result<u128, Fault> {
    let threshold = threshold_of(alloc, call)?;
    let replies = replies_of(alloc, call)?;
    let pruning = Pruning {
        text,
        replies: replies.as_slice(),
        last: Reply::ItsScore,
        has_scores: true,
    };
    run_counted(alloc, segment, weight, threshold, memory, pruning)
}

fn count<W: Weight>(
    alloc: Global,
    segment: &SegmentReader,
    weight: &W,
    memory: Memory,
    text: &mut Listing,
) -> Done {
    memory.begin(alloc);
    let counted = weight.count(alloc, segment);
    end_refusals(alloc);
    Ok(write!(text, "{}", counted?))
}
