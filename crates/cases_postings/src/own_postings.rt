//! Postings of the cases' own.

ghost use Rattle.std.specs.Prelude.{◌≡◌, ◌≤◌, IfOk, IsTrue, vec_len};
ghost use Rattle.std.proofs.Common.{arith, refl};
ghost use Rattle.std.proofs.lemmas.List.Elements.{All-map};
ghost use Rattle.qm_docset.specs.DocumentsFacts.{AreEntries-documents};
ghost use Rattle.qm_docset.specs.Entry.{no_limits};
ghost use Rattle.qm_docset.specs.Lists.{IsPlaced};
ghost use Rattle.qm_docset.specs.VecDocSet.{IsVecCursor, remaining_documents};
ghost use Rattle.qm_phrase.specs.PostingUnions.{described};
ghost use Rattle.qm_phrase.specs.PostingUnionFacts.{AreEntries-described};
ghost use Rattle.qm_postings.specs.Positions.{ArePositions};

use cases::Fault;
use qm_docset::{DocId, DocSet, VecDocSet, are_documents};
use qm_postings::Postings;

/// Postings of documents that all hold the term alike: so often, at these positions.
#[derive(Drop)]
pub struct OwnPostings {
    documents: VecDocSet,
    frequency: u32,
    positions: Vec<u32>,
    room: u64,
}

impl OwnPostings {
    /// Postings of documents that all hold the term so often, at these positions, and that say to have at
    /// most `room` of them.
    pub fn new(
        documents: Vec<DocId>,
        frequency: u32,
        positions: Vec<u32>,
        room: u64,
    ) -> Result<OwnPostings, Fault>
        ensures { IfOk result (IsPlaced ⟦<OwnPostings as DocSet>⟧) }
    {
        if positions.len() as u64 > room {
            return Err(Fault::NotUnderstood);
        }
        if !are_positions(&positions) {
            return Err(Fault::NotUnderstood);
        }
        if !are_documents(&documents) {
            return Err(Fault::NotUnderstood);
        }
        Ok(OwnPostings {
            documents: VecDocSet::new(documents),
            frequency,
            positions,
            room,
        })
    }
}

// Whether positions ascend strictly and are below 4294967295.
fn are_positions(positions: &[u32]) -> bool
    ensures { IsTrue result → ArePositions positions.now }
{
    let mut next = 0;
    // the positions so far are below the next one
    for position in positions {
        if *position < next || *position == u32::MAX {
            return false;
        }
        next = *position + 1;
    }
    true
}

impl DocSet for OwnPostings {
    ghost entries = { λ s. described (λ d. record { document = d; score = 0; frequency = s.frequency; positions = s.positions.items }) (remaining_documents s.documents) };

    ghost limits = { λ s. record { top = 0; room = s.room } };

    ghost placed = { λ _. Unit {0} };

    ghost valid = { λ s. IsVecCursor s.documents × (vec_len s.positions ≤ s.room) × ArePositions s.positions.items };

    fn doc(&self) -> DocId {
        self.documents.doc()
    }

    fn advance(&mut self) -> DocId {
        self.documents.advance()
    }

    fn seek(&mut self, target: DocId) -> DocId {
        self.documents.seek(target)
    }

    fn size_hint(&self) -> u32 {
        self.documents.size_hint()
    }

    ghost ascending = { λ s h. AreEntries-described (λ d. record { document = d; score = 0; frequency = s.frequency; positions = s.positions.items }) (λ d. refl) 0 no_limits (record { top = 0; room = s.room }) (remaining_documents s.documents) (λ d. (Prim.omega arith, Prim.omega (arith, s.positions.ok.0, h.1))) (AreEntries-documents s.documents.cursor s.documents.docs.items h.0.documents) };
}

impl Postings for OwnPostings {
    fn term_freq(&self) -> u32 {
        self.frequency
    }

    fn max_term_freq(&self) -> u64 {
        self.room
    }

    fn append_positions_with_offset(&mut self, offset: u32, output: &mut Vec<u32>) {
        // the output holds the positions so far, each plus the offset
        for position in &self.positions {
            output.push(*position + offset).unwrap();
        }
    }

    ghost ordered = { λ s h. All-map (λ e. ArePositions e.positions) (λ e. record { document = e.document; score = 0; frequency = s.frequency; positions = s.positions.items }) (remaining_documents s.documents) (λ k d below. h.2) };
}
