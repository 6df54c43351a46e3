//! The documents that any of several postings has.

ghost use Rattle.std.specs.Prelude.{◌≡◌, ◌+◌, ◌<◌, ◌≤◌, ⊤, All, [], map, vec_capacity, vec_len};
ghost use Rattle.std.specs.List.Sorted.{IsStrictlyIncreasing};
ghost use Rattle.qm_docset.specs.Entry.{head_document, head_positions};
ghost use Rattle.qm_docset.specs.Lists.{ArePlaced, Lists, bounds, lists};
ghost use Rattle.qm_phrase.specs.PostingUnions.{limits_of_postings, united_entries};
ghost use Rattle.qm_phrase.specs.PostingUnionFacts.{AreEntries-united, ArePositions-united};
ghost use Rattle.qm_phrase.specs.SimpleUnion.{IsSimpleUnion, simple_union_left, simple_union_limits};
ghost use Rattle.qm_postings.specs.Positions.{HasAdded, shifted};

use super::members::{append_positions, frequency_at, room_of_all};
use qm_combine::{least_document, seek_below};
use qm_docset::{DocId, DocSet, TERMINATED};
use qm_postings::Postings;

/// The documents that any of its members has. A document's frequency is the sum of the members' there,
/// held at 4294967295, and its positions are those that any of them has there.
///
/// Every member is kept at or past the document: a step or a seek looks at each and moves those that
/// stand below its target, and a frequency only reads. No call takes memory.
#[derive(Drop)]
pub struct SimpleUnion<D> {
    members: Vec<D>,
    doc: DocId,
}

impl<D: Postings> SimpleUnion<D> {
    /// The union of any number of postings. No member is moved. Takes no memory.
    pub fn build(docsets: Vec<D>) -> SimpleUnion<D>
        requires placed { ArePlaced D.DocSet docsets.items }
        ensures lists { Lists ⟦<SimpleUnion<D> as DocSet>⟧ result
            (united_entries (lists D.DocSet docsets.items)) (limits_of_postings (bounds D.DocSet docsets.items)) }
    {
        let doc = least_document(&docsets);
        SimpleUnion {
            members: docsets,
            doc,
        }
    }
}

impl<D: Postings> DocSet for SimpleUnion<D> {
    ghost entries = { λ s. simple_union_left D.DocSet s };

    ghost limits = { λ s. simple_union_limits D.DocSet s };

    // it is always placed: no call leaves it elsewhere
    ghost placed = { λ _. ⊤ };

    ghost valid = { λ s. IsSimpleUnion D.DocSet s };

    fn doc(&self) -> DocId {
        self.doc
    }

    fn advance(&mut self) -> DocId {
        self.seek((self.doc + 1).min(TERMINATED))
    }

    fn seek(&mut self, target: DocId) -> DocId {
        if target <= self.doc {
            return self.doc;
        }
        self.doc = seek_below(&mut self.members, target);
        self.doc
    }

    fn size_hint(&self) -> u32 {
        let mut hint = 0;
        // the greatest of the hints of the members before this one
        for member in &self.members {
            hint = member.size_hint().max(hint);
        }
        hint
    }

    ghost ascending = { λ s h. AreEntries-united D.limits D.entries s.members.items (λ k d below. D.ascending _ (h.members.valid k d below)) };
}

impl<D: Postings> Postings for SimpleUnion<D> {
    fn term_freq(&self) -> u32 {
        frequency_at(&self.members, self.doc)
    }

    fn max_term_freq(&self) -> u64 {
        room_of_all(&self.members)
    }

    /// Adds to the output the positions of the document that the union stands on, each plus `offset`,
    /// and leaves the whole output ascending, each number once. Sorts it in place.
    ///
    /// Asks that the union stands on a document, that each sum is at most 4294967295, and that the
    /// output has room for [`max_term_freq`](Postings::max_term_freq) more. Takes no memory.
    fn append_positions_with_offset(&mut self, offset: u32, output: &mut Vec<u32>)
        requires valid { IsSimpleUnion D.DocSet self.old }
        requires here { head_document (simple_union_left D.DocSet self.old) < TERMINATED }
        requires sums { All (λ p. p + offset ≤ 4294967295) (head_positions (simple_union_left D.DocSet self.old)) }
        requires room { vec_len output.old + (simple_union_limits D.DocSet self.old).room ≤ vec_capacity output.old }
        ensures members { HasAdded (shifted offset (head_positions (simple_union_left D.DocSet self.old))) output.old.items output.new.items }
        ensures ascending { IsStrictlyIncreasing output.new.items }
        ensures alone { output.old.items ≡ [] → output.new.items ≡ shifted offset (head_positions (simple_union_left D.DocSet self.old)) }
        ensures longer { vec_len output.new ≤ vec_len output.old + (simple_union_limits D.DocSet self.old).room }
        ensures capacity { vec_capacity output.old ≤ vec_capacity output.new }
        ensures entries { simple_union_left D.DocSet self.new ≡ simple_union_left D.DocSet self.old }
        ensures limits { simple_union_limits D.DocSet self.new ≡ simple_union_limits D.DocSet self.old }
        ensures valid { IsSimpleUnion D.DocSet self.new }
    {
        append_positions(&mut self.members, self.doc, offset, output);
    }

    ghost ordered = { λ s h. ArePositions-united (map D.entries s.members.items) };
}
