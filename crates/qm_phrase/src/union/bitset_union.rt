//! The documents of a bit set, each with what several postings say of it.

ghost use Rattle.std.specs.Prelude.{◌≡◌, ◌+◌, ◌<◌, ◌≤◌, ⊤, All, [], map, vec_capacity, vec_len};
ghost use Rattle.std.specs.List.Sorted.{IsStrictlyIncreasing};
ghost use Rattle.qm_docset.specs.BitSetDocSet.{remaining_members};
ghost use Rattle.qm_docset.specs.BitSetDocSetFacts.{AreEntries-remaining};
ghost use Rattle.qm_docset.specs.Entry.{head_document, head_positions, no_limits};
ghost use Rattle.qm_docset.specs.Lists.{ArePlaced, IsPlaced, Lists, bounds, lists};
ghost use Rattle.qm_phrase.specs.BitSetPostingUnion.{IsBitSetUnion, bitset_union_left, bitset_union_limits};
ghost use Rattle.qm_phrase.specs.PostingUnions.{limits_of_postings, united_over};
ghost use Rattle.qm_phrase.specs.PostingUnionFacts.{AreEntries-over, ArePositions-over};
ghost use Rattle.qm_postings.specs.Positions.{HasAdded, shifted};

use super::members::{append_positions, frequency_at, room_of_all};
use qm_combine::seek_below;
use qm_docset::{BitSetDocSet, DocId, DocSet, TERMINATED};
use qm_postings::Postings;

/// The documents of a bit set. A document's frequency is the sum of the members' there, held at
/// 4294967295, and its positions are those that any of them has there: none of either where no member
/// has the document.
///
/// Every member is kept at or past the document: building, a step and a seek look at each and move
/// those that stand below it, and a frequency only reads. No call takes memory.
#[derive(Drop)]
pub struct BitSetPostingUnion<D> {
    members: Vec<D>,
    bitset: BitSetDocSet,
}

impl<D: Postings> BitSetPostingUnion<D> {
    /// The union of any number of postings over a set. The members are moved to the set's first
    /// document. Takes no memory.
    pub fn build(docsets: Vec<D>, bitset: BitSetDocSet) -> BitSetPostingUnion<D>
        requires placed { ArePlaced D.DocSet docsets.items }
        requires set { IsPlaced ⟦<BitSetDocSet as DocSet>⟧ bitset }
        ensures lists { Lists ⟦<Self as DocSet>⟧ result
            (united_over (remaining_members bitset) (lists D.DocSet docsets.items)) (limits_of_postings (bounds D.DocSet docsets.items)) }
    {
        let mut members = docsets;
        seek_below(&mut members, bitset.doc());
        BitSetPostingUnion { members, bitset }
    }
}

impl<D: Postings> DocSet for BitSetPostingUnion<D> {
    ghost entries = { λ s. bitset_union_left D.DocSet s };

    ghost limits = { λ s. bitset_union_limits D.DocSet s };

    // it is always placed: no call leaves it elsewhere
    ghost placed = { λ _. ⊤ };

    ghost valid = { λ s. IsBitSetUnion D.DocSet s };

    fn doc(&self) -> DocId {
        self.bitset.doc()
    }

    fn advance(&mut self) -> DocId {
        let doc = self.bitset.advance();
        seek_below(&mut self.members, doc);
        doc
    }

    fn seek(&mut self, target: DocId) -> DocId {
        let doc = self.bitset.seek(target);
        seek_below(&mut self.members, doc);
        doc
    }

    fn size_hint(&self) -> u32 {
        self.bitset.size_hint()
    }

    ghost ascending = { λ s h. AreEntries-over D.limits D.entries s.members.items no_limits (remaining_members s.bitset) (λ k d below. D.ascending _ (h.members.valid k d below)) (AreEntries-remaining s.bitset h.set) };
}

impl<D: Postings> Postings for BitSetPostingUnion<D> {
    fn term_freq(&self) -> u32 {
        frequency_at(&self.members, self.bitset.doc())
    }

    fn max_term_freq(&self) -> u64 {
        room_of_all(&self.members)
    }

    /// Adds to the output the positions of the document that the union stands on, each plus `offset`,
    /// and leaves the whole output ascending, each number once. Sorts it in place.
    ///
    /// Asks that the union stands on a document, that each sum is at most 4294967295, and that the
    /// output has room for [`max_term_freq`](Postings::max_term_freq) more. Takes no memory.
    fn append_positions_with_offset(&mut self, offset: u32, output: &mut Vec<u32>)
        requires valid { IsBitSetUnion D.DocSet self.old }
        requires here { head_document (bitset_union_left D.DocSet self.old) < TERMINATED }
        requires sums { All (λ p. p + offset ≤ 4294967295) (head_positions (bitset_union_left D.DocSet self.old)) }
        requires room { vec_len output.old + (bitset_union_limits D.DocSet self.old).room ≤ vec_capacity output.old }
        ensures members { HasAdded (shifted offset (head_positions (bitset_union_left D.DocSet self.old))) output.old.items output.new.items }
        ensures ascending { IsStrictlyIncreasing output.new.items }
        ensures alone { output.old.items ≡ [] → output.new.items ≡ shifted offset (head_positions (bitset_union_left D.DocSet self.old)) }
        ensures longer { vec_len output.new ≤ vec_len output.old + (bitset_union_limits D.DocSet self.old).room }
        ensures capacity { vec_capacity output.old ≤ vec_capacity output.new }
        ensures entries { bitset_union_left D.DocSet self.new ≡ bitset_union_left D.DocSet self.old }
        ensures limits { bitset_union_limits D.DocSet self.new ≡ bitset_union_limits D.DocSet self.old }
        ensures valid { IsBitSetUnion D.DocSet self.new }
    {
        let doc = self.bitset.doc();
        append_positions(&mut self.members, doc, offset, output);
    }

    ghost ordered = { λ s h. ArePositions-over (map D.entries s.members.items) (remaining_members s.bitset) };
}
