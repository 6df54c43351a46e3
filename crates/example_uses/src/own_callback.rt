//! A callback of one's own: how many documents a query finds in a segment, and what they score together.

ghost use Rattle.std.specs.Prelude.{◌≡◌, ◌+◌, IfOk, length, min};
ghost use Rattle.qm_weight.specs.Tree.{matching};

use qm_docset::Score;
use qm_postings::SegmentReader;
use qm_schema::QueryError;
use qm_weight::Weight;
use std::alloc::Global;

/// What some documents come to.
#[derive(Clone, Copy, Debug)]
pub struct Totals {
    pub documents: u32,
    /// How many documents the segment has.
    pub of: u32,
    /// Their scores, added up, and held at 9223372036854775807.
    pub scores: Score,
}

impl Totals {
    // One document more.
    fn add(&mut self, score: Score)
        ensures { self.new.documents ≡ min 4294967295 (self.old.documents + 1) }
    {
        self.documents = self.documents.saturating_add(1);
        self.scores = self.scores.saturating_add(score);
    }
}

/// What the documents of a segment come to that a weight matches: one call of the callback for each.
pub fn sum_up<W: Weight>(
    alloc: Global,
    weight: &W,
    reader: &SegmentReader,
) -> Result<Totals, QueryError>
    ensures documents { IfOk result (λ totals. totals.documents ≡ length (matching (W.tree weight.now) reader.now.segment)) }
{
    let mut totals = Totals {
        documents: 0,
        of: reader.max_doc(),
        scores: 0,
    };
    weight.for_each(alloc, reader, &mut |_doc, score| totals.add(score))?;
    Ok(totals)
}
