//! What every union over a window does in the same way.
//!
//! So steps, buffers and counts of every such union are proved once.

ghost use Rattle.std.specs.Prelude.{◌≡◌, ◌<◌, ◌≤◌, List, [], drop, length, min, take, true};
ghost use Rattle.qm_docset.specs.Entry.{documents, from, head_document};
ghost use Rattle.qm_docset.specs.Gather.{gather};
ghost use Rattle.qm_combine.specs.United.{HasSameMembers, IsGoing, Shown, shown_list};
ghost use Rattle.qm_combine.specs.Window.{window_combiner, window_has};

use crate::score_combiner::ScoreCombiner;
use crate::union::window::{HORIZON, Window};
use qm_docset::{COLLECT_BLOCK_BUFFER_LEN, DocId, TERMINATED};

/// A union that has taken documents of its members into a [`Window`], stands on one of these, and takes in the
/// next ones once it has gone through. How it takes them in is its own (`go_on`), since that depends on what its
/// members are; its steps, buffers and counts are those of every such union.
pub trait WindowedUnion<C: ScoreCombiner> {
    // what it shows: its window, where it stands, and what its members have left
    ghost shown: { Self → Shown C };
    // that it is such a union: constructors give it, and every call asks and keeps it
    ghost standing: { Self → Type 0 };

    /// The documents that it has taken in.
    fn window(&self) -> &Window<C>
        ensures { result.now ≡ (shown self.now).window };

    /// The document that it stands on, or [`TERMINATED`] at its end.
    fn document(&self) -> DocId
        ensures { result ≡ (shown self.now).document };

    /// Out of how many documents it is to fill its next window.
    fn next_span(&self) -> u32
        requires { standing self.now }
        ensures { (1 ≤ result) × (result ≤ 4096) };

    /// Goes to a document of its window that does not lie before its own.
    fn stand_on(&mut self, doc: DocId)
        requires standing { standing self.old }
        requires behind { (shown self.old).document ≤ doc }
        requires there { window_has (shown self.old).window doc ≡ true }
        ensures document { (shown self.new).document ≡ doc }
        ensures entries { shown_list C.combined C.value (shown self.new) ≡ from doc (shown_list C.combined C.value (shown self.old)) }
        ensures members { HasSameMembers (shown self.old) (shown self.new) }
        ensures standing { standing self.new };

    /// Fills the window from the least document of its members on, out of so many documents at first: at least
    /// one, and at most [`HORIZON`]. Goes to its first document there. Whatever the window has is passed over.
    fn go_on(&mut self, span: u32) -> DocId
        requires standing { standing self.old }
        requires span { (1 ≤ span) × (span ≤ 4096) }
        ensures head { result ≡ head_document (shown_list C.combined C.value (shown self.new)) }
        ensures entries { shown_list C.combined C.value (shown self.new)
            ≡ gather (shown self.old).least (C.combined (window_combiner (shown self.old).window)) (shown self.old).lists }
        ensures members { HasSameMembers (shown self.old) (shown self.new) }
        ensures standing { standing self.new };

    /// Goes to its first document at or past a target, which lies past its own document and not past the members'
    /// first.
    fn go_to(&mut self, target: DocId) -> DocId
        requires standing { standing self.old }
        requires past { (shown self.old).document < target }
        requires reach { min target TERMINATED ≤ (shown self.old).ahead }
        ensures head { result ≡ head_document (shown_list C.combined C.value (shown self.new)) }
        ensures entries { shown_list C.combined C.value (shown self.new) ≡ from target (shown_list C.combined C.value (shown self.old)) }
        ensures members { HasSameMembers (shown self.old) (shown self.new) }
        ensures standing { standing self.new }
    {
        if let Some(doc) = self.window().next_until_last(target) {
            self.stand_on(doc);
            return doc;
        }
        let span = self.next_span();
        self.go_on(span)
    }

    /// Goes to its next document and answers it; stays at the end.
    fn step(&mut self) -> DocId
        requires standing { standing self.old }
        ensures head { result ≡ head_document (shown_list C.combined C.value (shown self.new)) }
        ensures entries { shown_list C.combined C.value (shown self.new) ≡ drop 1 (shown_list C.combined C.value (shown self.old)) }
        ensures members { HasSameMembers (shown self.old) (shown self.new) }
        ensures standing { standing self.new }
    {
        let next = self.document() + 1;
        self.go_to(next)
    }

    /// Takes documents of its window, from its own on, as many as there is room for, and goes past them. Asks for
    /// room for one, and that it stands on a document.
    fn take_window(&mut self, places: &mut [DocId]) -> usize
        requires standing { standing self.old }
        requires here { (shown self.old).document < TERMINATED }
        requires places { 1 ≤ length places.old }
        ensures some { (1 ≤ result) × (result ≤ length places.old) }
        ensures within { result ≤ length (shown_list C.combined C.value (shown self.old)) }
        ensures documents { take result places.new ≡ documents (take result (shown_list C.combined C.value (shown self.old))) }
        ensures entries { shown_list C.combined C.value (shown self.new) ≡ drop result (shown_list C.combined C.value (shown self.old)) }
        ensures members { HasSameMembers (shown self.old) (shown self.new) }
        ensures standing { standing self.new }
    {
        let count = self.window().fill(self.document(), places);
        self.go_to(places[count - 1] + 1);
        count
    }

    /// Takes its next documents, as many as the buffer has room for.
    fn fill(&mut self, buffer: &mut [DocId; COLLECT_BLOCK_BUFFER_LEN]) -> usize
        requires standing { standing self.old }
        ensures count { result ≡ min COLLECT_BLOCK_BUFFER_LEN (length (shown_list C.combined C.value (shown self.old))) }
        ensures documents { take result buffer.new
            ≡ documents (take COLLECT_BLOCK_BUFFER_LEN (shown_list C.combined C.value (shown self.old))) }
        ensures entries { shown_list C.combined C.value (shown self.new)
            ≡ drop COLLECT_BLOCK_BUFFER_LEN (shown_list C.combined C.value (shown self.old)) }
        ensures members { HasSameMembers (shown self.old) (shown self.new) }
        ensures standing { standing self.new }
    {
        let mut taken = 0;
        // so many documents were taken, and it stands behind them
        while taken < COLLECT_BLOCK_BUFFER_LEN && self.document() < TERMINATED {
            taken += self.take_window(&mut buffer[taken..]);
        }
        taken
    }

    /// The number of its documents; leaves none. All are wanted, so each further window is as long as may be.
    fn total(&mut self) -> u32
        requires standing { standing self.old }
        ensures count { result ≡ length (shown_list C.combined C.value (shown self.old)) }
        ensures entries { shown_list C.combined C.value (shown self.new) ≡ [] }
        ensures members { HasSameMembers (shown self.old) (shown self.new) }
        ensures standing { standing self.new }
    {
        let mut count = 0;
        // with those that are left, all of them are counted
        while self.document() < TERMINATED {
            count += self.window().len_from(self.document());
            self.go_on(HORIZON);
        }
        count
    }

    // it stands on its first document, and its members' lists are those of cursors
    ghost going: { (s : Self) → standing s → IsGoing C.combined C.value (shown s) };
}
