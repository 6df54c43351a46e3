//! A row of documents in which those below a target are found without a look at all others.

ghost use Rattle.std.specs.Prelude.{◌≡◌, ℕ, ◌+◌, ◌*◌, ◌/◌, ◌<◌, ◌≤◌, ◌↔◌, IfOk, drop, length, min, nat_eq, set, slice_index_or, take, true};
ghost use Rattle.std.specs.List.{count_by};
ghost use Rattle.qm_scorer.specs.LeastDocs.{AreLeasts, IsLeastDocs, least_of};

use qm_docset::{DocId, TERMINATED};
use std::alloc::{AllocError, Global};

/// So many documents have one least above them, and so many leasts one above these.
const SPAN: usize = 32;

/// Documents in places, which change one at a time, with the least of each 32 and the least of each 32
/// of these.
#[derive(Drop)]
pub(crate) struct LeastDocs {
    pub(crate) docs: Vec<DocId>,
    pub(crate) leasts: Vec<DocId>,
    pub(crate) tops: Vec<DocId>,
}

// The least of some documents, and the end where there are none.
fn least_doc(docs: &[DocId]) -> DocId
    ensures { result ≡ least_of docs.now }
{
    let mut least = TERMINATED;
    // the least of the documents before the i-th
    for i in 0..docs.len() {
        least = least.min(docs[i]);
    }
    least
}

// The least of the documents in one span of a row.
fn least_in(row: &[DocId], span: usize) -> DocId
    requires within { 32 * span ≤ length row.now }
    ensures { result ≡ least_of (take 32 (drop (32 * span) row.now)) }
{
    let start = SPAN * span;
    let end = start + SPAN.min(row.len() - start);
    least_doc(&row[start..end])
}

// The least of each span of a row.
fn leasts_of(alloc: Global, row: &[DocId]) -> Result<Vec<DocId>, AllocError>
    ensures { IfOk result (λ leasts. AreLeasts leasts.items row.now) }
{
    let mut leasts = Vec::with_capacity(alloc, row.len().div_ceil(SPAN))?;
    let mut span = 0;
    // the spans before this one have their least documents
    while SPAN * span < row.len() {
        leasts.push(least_in(row, span))?;
        span += 1;
    }
    Ok(leasts)
}

// The first place before an end whose document is below a target, or the end.
fn first_below(row: &[DocId], from: usize, end: usize, target: DocId) -> usize
    requires order { from ≤ end }
    requires within { end ≤ length row.now }
    ensures within { (from ≤ result) × (result ≤ end) }
    ensures passed { (k : ℕ) → from ≤ k → k < result → target ≤ slice_index_or row.now k 0 }
    ensures found { result < end → slice_index_or row.now result 0 < target }
{
    let mut place = from;
    // no place before this one has a document below the target
    while place < end && target <= row[place] {
        place += 1;
    }
    place
}

impl LeastDocs {
    /// The documents, each in its place.
    pub(crate) fn new(alloc: Global, docs: Vec<DocId>) -> Result<LeastDocs, AllocError>
        ensures valid { IfOk result IsLeastDocs }
        ensures docs { IfOk result (λ row. row.docs.items ≡ docs.items) }
    {
        let leasts = leasts_of(alloc, &docs)?;
        let tops = leasts_of(alloc, &leasts)?;
        Ok(LeastDocs { docs, leasts, tops })
    }

    /// The least document.
    pub(crate) fn least(&self) -> DocId
        requires valid { IsLeastDocs self.now }
        ensures { result ≡ least_of self.now.docs.items }
    {
        least_doc(&self.tops)
    }

    /// Puts a document in a place.
    pub(crate) fn put(&mut self, place: usize, doc: DocId)
        requires valid { IsLeastDocs self.old }
        requires within { place < length self.old.docs.items }
        ensures docs { self.new.docs.items ≡ set self.old.docs.items place doc }
        ensures valid { IsLeastDocs self.new }
    {
        let span = place / SPAN;
        let top = span / SPAN;
        self.docs[place] = doc;
        self.leasts[span] = least_in(&self.docs, span);
        self.tops[top] = least_in(&self.leasts, top);
    }

    /// The first place from one on whose document is below a target, or the number of places.
    pub(crate) fn next_below(&self, from: usize, target: DocId) -> usize
        requires valid { IsLeastDocs self.now }
        requires within { from ≤ length self.now.docs.items }
        ensures within { (from ≤ result) × (result ≤ length self.now.docs.items) }
        ensures passed { (k : ℕ) → from ≤ k → k < result → target ≤ slice_index_or self.now.docs.items k 0 }
        ensures found { result < length self.now.docs.items → slice_index_or self.now.docs.items result 0 < target }
    {
        let len = self.docs.len();
        let end = end_of_span(from, len);
        let place = first_below(&self.docs, from, end, target);
        if place < end || end == len {
            return place;
        }
        let span = self.next_span(from / SPAN + 1, target);
        first_below(&self.docs, (SPAN * span).min(len), len, target)
    }

    // The first span from one on whose least is below a target, or the number of spans.
    fn next_span(&self, from: usize, target: DocId) -> usize
        requires valid { IsLeastDocs self.now }
        requires within { from ≤ length self.now.leasts.items }
        ensures within { (from ≤ result) × (result ≤ length self.now.leasts.items) }
        ensures passed { (k : ℕ) → from ≤ k → k < result → target ≤ slice_index_or self.now.leasts.items k 0 }
    {
        let len = self.leasts.len();
        let end = end_of_span(from, len);
        let place = first_below(&self.leasts, from, end, target);
        if place < end || end == len {
            return place;
        }
        let top = first_below(&self.tops, from / SPAN + 1, self.tops.len(), target);
        first_below(&self.leasts, (SPAN * top).min(len), len, target)
    }

    /// Whether a document, before which there is none, stands in so many places at least.
    pub(crate) fn has_times(&self, doc: DocId, minimum: usize) -> bool
        requires valid { IsLeastDocs self.now }
        requires least { doc ≤ least_of self.now.docs.items }
        requires below { doc < TERMINATED }
        ensures { (result ≡ true) ↔ (minimum ≤ count_by (λ d. nat_eq d doc) self.now.docs.items) }
    {
        let mut count = 0;
        let mut place = 0;
        // so many of the places before have it
        while count < minimum {
            place = self.next_below(place, doc + 1);
            if place == self.docs.len() {
                return false;
            }
            count += 1;
            place += 1;
        }
        true
    }
}

// The end of the span that a place is in.
fn end_of_span(place: usize, len: usize) -> usize
    requires within { place ≤ len }
    ensures { result ≡ min (32 * (place / 32 + 1)) len }
{
    let start = SPAN * (place / SPAN);
    start + SPAN.min(len - start)
}
