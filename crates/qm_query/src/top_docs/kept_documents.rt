//! The best documents so far.
//!
//! What is kept is known by its order alone, so no lemma speaks of how a heap is laid out. A refused request for memory
//! leaves a mark, since a callback can't be refused.

ghost use Rattle.std.specs.Prelude.{◌≡◌, ◌≤◌};
ghost use Rattle.std.specs.BinaryHeap.{IsHeap, heap_items, heap_len};
ghost use Rattle.std.proofs.Props.{props};
ghost use Rattle.qm_postings.specs.Segment.{is_alive};
ghost use Rattle.qm_query.specs.KeptDocument.{ranked, worst_last};
ghost use Rattle.qm_query.specs.Ranking.{ranked_with};

use super::kept_document::KeptDocument;
use qm_docset::{DocId, Score};
use qm_postings::{DocAddress, SegmentReader};
use qm_schema::QueryError;
use std::alloc::{AllocError, Global};
use std::collections::BinaryHeap;

/// The best documents so far, at most so many.
#[derive(Drop)]
pub(super) struct KeptDocuments {
    limit: usize,
    // the worst of them at the top
    documents: BinaryHeap<KeptDocument>,
    // whether memory was refused; then nothing is known of the documents
    refused: bool,
    ghost ordered: { IsHeap worst_last (heap_items documents) } by { Prim.hlevel props },
    ghost few: { heap_len documents ≤ limit } by { Prim.hlevel props },
}

impl KeptDocuments {
    ghost use Rattle.std.specs.Prelude.{IfOk, IsOkUnless, OnOk, false, [], map};
    ghost use Rattle.qm_query.specs.KeptDocument.{IsThreshold, answer_of};
    ghost use Rattle.qm_query.specs.KeptDocuments.{CollectsAt, ranked_kept};

    /// None so far, with room for so many.
    pub(super) fn with_limit(
        alloc: Global,
        limit: usize,
        room: usize,
    ) -> Result<KeptDocuments, AllocError>
        ensures limit { IfOk result (λ kept. kept.limit ≡ limit) }
        ensures none { IfOk result (λ kept. heap_items kept.documents ≡ []) }
    {
        Ok(KeptDocuments {
            limit,
            documents: BinaryHeap::with_capacity(alloc, room)?,
            refused: false,
        })
    }

    /// What a further document must score more than, as far as the score says: -1 until so many are kept
    /// as there may be, and then the least of their scores.
    pub(super) fn threshold(&self) -> Score
        ensures { IsThreshold self.now.limit (heap_items self.now.documents) result }
    {
        match self.documents.peek() {
            Some(worst) if self.documents.len() == self.limit => worst.score,
            _ => -1,
        }
    }

    /// Takes in a document of a segment, unless it was deleted, and answers the threshold after it.
    pub(super) fn collect(
        &mut self,
        reader: &SegmentReader,
        segment_ord: u32,
        doc: DocId,
        score: Score,
    ) -> Score
        ensures collected { CollectsAt segment_ord reader.now.segment self.old doc score result self.new }
    {
        if is_alive(reader, doc) {
            self.refused |= self
                .take_in(KeptDocument {
                    score,
                    address: DocAddress::new(segment_ord, doc),
                })
                .is_err();
        }
        self.threshold()
    }

    // Takes in a document, and lets the worst go where there are more than there may be.
    fn take_in(&mut self, document: KeptDocument) -> Result<(), AllocError>
        ensures limit { self.new.limit ≡ self.old.limit }
        ensures refused { self.new.refused ≡ self.old.refused }
        ensures best { OnOk result (ranked_kept self.new ≡ ranked_with worst_last self.old.limit document (ranked_kept self.old)) }
    {
        if self.documents.len() < self.limit {
            self.documents.push(document)?;
        } else {
            replace_worst(&mut self.documents, document);
        }
        Ok(())
    }

    /// These documents with their scores, the best first.
    pub(super) fn into_best(self, alloc: Global) -> Result<Vec<(Score, DocAddress)>, QueryError>
        ensures best { IfOk result (λ found. found.items ≡ map answer_of (ranked_kept self)) }
        ensures complete { IfOk result (λ _. self.refused ≡ false) }
        ensures refused { IsOkUnless result QueryError.Memory }
    {
        if self.refused {
            return Err(QueryError::Memory);
        }
        let sorted = self.documents.into_sorted_vec();
        let mut best = Vec::with_capacity(alloc, sorted.len())?;
        // those that stand before are in it
        for document in &sorted {
            best.push((document.score, document.address))?;
        }
        Ok(best)
    }
}

// Puts a document in the place of the worst, where it is better than that.
fn replace_worst(documents: &mut BinaryHeap<KeptDocument>, document: KeptDocument)
    requires heap { IsHeap worst_last (heap_items documents.old) }
    ensures heap { IsHeap worst_last (heap_items documents.new) }
    ensures len { heap_len documents.new ≡ heap_len documents.old }
    ensures best { ranked (heap_items documents.new) ≡ ranked_with worst_last (heap_len documents.old) document (ranked (heap_items documents.old)) }
{
    if let Some(mut worst) = documents.peek_mut() {
        if document < *worst {
            *worst = document;
        }
    }
}

// Whether a segment has a document, and it wasn't deleted.
fn is_alive(reader: &SegmentReader, doc: DocId) -> bool
    ensures { result ≡ is_alive reader.now.segment doc }
{
    match reader.alive_bitset() {
        Some(alive) => alive.is_alive(doc),
        None => doc < reader.max_doc(),
    }
}
