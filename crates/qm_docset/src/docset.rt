//! The contract of a cursor over documents.
//!
//! Why it is so:
//! - Scores, frequencies and positions stand in one list of entries, which the trait of the plain cursor owns. So no
//!   trait above says again what a move does.
//! - What a type keeps is a relation of two cursors (`keeps`), so it composes over calls without a law.
//! - `fill_buffer_below` hands on a buffer below a bound, so that a union fills its window without a step for each
//!   document.

ghost use Rattle.std.specs.Prelude.{◌≡◌, ◌≤◌, List, [], length, take, drop, min};
ghost use Rattle.qm_docset.specs.AliveBitSet.{alive_entries};
ghost use Rattle.qm_docset.specs.Cursor.{IsSeekAnswer, OnFound};
ghost use Rattle.qm_docset.specs.Entry.{Entry, Limits, no_limits, below, documents, head_document, from, AreEntries};

use crate::alive_bitset::AliveBitSet;
use crate::numbers::{COLLECT_BLOCK_BUFFER_LEN, DocId, TERMINATED};

/// What [`DocSet::seek_danger`] answers.
#[derive(Clone, Copy, Debug, PartialEq, Eq, Hash)]
pub enum SeekDangerResult {
    /// The target is the cursor's document.
    Found,
    /// The target is not there. The bound is past it, and no remaining document stands before the
    /// bound; it is [`TERMINATED`] where the target was.
    SeekLowerBound(DocId),
}

/// What a [`seek_danger`](DocSet::seek_danger) answers that has sought the target, and so stands on `doc`: that it
/// is found where it is that document, and else that document as the bound. Asks that `doc` is at or past the
/// target, and [`TERMINATED`] at most.
pub fn seek_answer(target: DocId, doc: DocId) -> SeekDangerResult
    requires { (target ≤ doc) × (doc ≤ TERMINATED) }
    ensures { (es : List Entry) → head_document es ≡ doc → IsSeekAnswer target es result }
{
    if doc == target && target < TERMINATED {
        SeekDangerResult::Found
    } else {
        SeekDangerResult::SeekLowerBound(doc)
    }
}

/// A cursor over documents, in ascending order, all below [`TERMINATED`].
///
/// A cursor stands on the first of the documents that remain. It is *placed* when it is made and
/// after every call, save a [`seek_danger`](DocSet::seek_danger) that answered a lower bound: until
/// the next `seek`, or a `seek_danger` that finds, no call is allowed that asks it to be placed.
pub trait DocSet: Drop {
    // the entries that remain, in order
    ghost entries: { Self → List Entry };
    // what no call changes
    ghost limits: { Self → Limits } = { λ _. no_limits };
    // that a cursor is as another is, in all that it keeps beside its list and limits
    ghost keeps: { Self → Self → Type 0 } = { λ _ _. Unit {0} };
    // whether the cursor stands on its first entry
    ghost placed: { Self → Type 0 };
    // that the value is a cursor: constructors give it, and every call asks and keeps it
    ghost valid: { Self → Type 0 };

    /// The document that the cursor stands on, or [`TERMINATED`] at its end.
    fn doc(&self) -> DocId
        requires valid { valid self.now }
        requires placed { placed self.now }
        ensures { result ≡ head_document (entries self.now) };

    /// Goes to the next document and answers it; stays at the end.
    fn advance(&mut self) -> DocId
        requires valid { valid self.old }
        requires placed { placed self.old }
        ensures head { result ≡ head_document (entries self.new) }
        ensures entries { entries self.new ≡ drop 1 (entries self.old) }
        ensures limits { limits self.new ≡ limits self.old }
        ensures kept { (s : Self) → keeps s self.old → keeps s self.new }
        ensures valid { valid self.new }
        ensures placed { placed self.new };

    /// Goes to the first remaining document at or past `target`, and answers it. Any target up to
    /// [`TERMINATED`] is allowed; one at or below the cursor's document leaves it there.
    fn seek(&mut self, target: DocId) -> DocId
        requires valid { valid self.old }
        requires target { target ≤ TERMINATED }
        ensures head { result ≡ head_document (entries self.new) }
        ensures entries { entries self.new ≡ from target (entries self.old) }
        ensures limits { limits self.new ≡ limits self.old }
        ensures kept { (s : Self) → keeps s self.old → keeps s self.new }
        ensures valid { valid self.new }
        ensures placed { placed self.new };

    /// Drops the documents below `target`, and says whether `target` is the first that remains.
    /// Where it is not, the cursor may stand nowhere, which can be cheaper than a `seek`; then only
    /// a `seek` or a further `seek_danger` is allowed.
    ///
    /// By default it calls `seek`, and the bound is the document reached.
    fn seek_danger(&mut self, target: DocId) -> SeekDangerResult
        requires valid { valid self.old }
        requires target { target ≤ TERMINATED }
        ensures answer { IsSeekAnswer target (entries self.new) result }
        ensures entries { entries self.new ≡ from target (entries self.old) }
        ensures limits { limits self.new ≡ limits self.old }
        ensures kept { (s : Self) → keeps s self.old → keeps s self.new }
        ensures valid { valid self.new }
        ensures placed { OnFound result (placed self.new) }
    {
        let doc = self.seek(target);
        seek_answer(target, doc)
    }

    /// Takes the next [`COLLECT_BLOCK_BUFFER_LEN`] documents, or all where fewer remain, into the
    /// front of the buffer, and answers how many they are.
    ///
    /// By default it steps.
    fn fill_buffer(&mut self, buffer: &mut [DocId; COLLECT_BLOCK_BUFFER_LEN]) -> usize
        requires valid { valid self.old }
        requires placed { placed self.old }
        ensures count { result ≡ min COLLECT_BLOCK_BUFFER_LEN (length (entries self.old)) }
        ensures documents { take result buffer.new ≡ documents (take COLLECT_BLOCK_BUFFER_LEN (entries self.old)) }
        ensures entries { entries self.new ≡ drop COLLECT_BLOCK_BUFFER_LEN (entries self.old) }
        ensures limits { limits self.new ≡ limits self.old }
        ensures kept { (s : Self) → keeps s self.old → keeps s self.new }
        ensures valid { valid self.new }
        ensures placed { placed self.new }
    {
        let mut doc = self.doc();
        // so many documents were taken, and the cursor stands behind them
        for (taken, place) in buffer.iter_mut().enumerate() {
            if doc == TERMINATED {
                return taken;
            }
            *place = doc;
            doc = self.advance();
        }
        COLLECT_BLOCK_BUFFER_LEN
    }

    /// Takes the next documents below `bound`, at most [`COLLECT_BLOCK_BUFFER_LEN`], into the front of the
    /// buffer, and answers how many they are: fewer than the buffer has room for only where all of them
    /// were taken. Takes every bound. A union fills its window so.
    ///
    /// By default it steps.
    fn fill_buffer_below(
        &mut self,
        bound: DocId,
        buffer: &mut [DocId; COLLECT_BLOCK_BUFFER_LEN],
    ) -> usize
        requires valid { valid self.old }
        requires placed { placed self.old }
        ensures count { result ≡ min COLLECT_BLOCK_BUFFER_LEN (length (below bound (entries self.old))) }
        ensures documents { take result buffer.new ≡ documents (take result (entries self.old)) }
        ensures entries { entries self.new ≡ drop result (entries self.old) }
        ensures limits { limits self.new ≡ limits self.old }
        ensures kept { (s : Self) → keeps s self.old → keeps s self.new }
        ensures valid { valid self.new }
        ensures placed { placed self.new }
    {
        let end = bound.min(TERMINATED);
        let mut doc = self.doc();
        // so many documents below the bound were taken, and the cursor stands behind them
        for (taken, place) in buffer.iter_mut().enumerate() {
            if doc >= end {
                return taken;
            }
            *place = doc;
            doc = self.advance();
        }
        COLLECT_BLOCK_BUFFER_LEN
    }

    /// About how many documents remain; no answer of a query depends on it.
    fn size_hint(&self) -> u32
        requires { valid self.now };

    /// About what it costs to go through the cursor, for choosing which of several leads; no answer
    /// of a query depends on it. By default the size hint.
    fn cost(&self) -> u64
        requires { valid self.now }
    {
        u64::from(self.size_hint())
    }

    /// The number of remaining documents that are alive; leaves none.
    ///
    /// By default it steps.
    fn count(&mut self, alive: &AliveBitSet) -> u32
        requires valid { valid self.old }
        requires placed { placed self.old }
        ensures count { result ≡ length (alive_entries alive.now (entries self.old)) }
        ensures entries { entries self.new ≡ [] }
        ensures limits { limits self.new ≡ limits self.old }
        ensures kept { (s : Self) → keeps s self.old → keeps s self.new }
        ensures valid { valid self.new }
        ensures placed { placed self.new }
    {
        let mut count = 0;
        let mut doc = self.doc();
        // with the alive ones that are left, all of them are counted
        while doc < TERMINATED {
            if alive.is_alive(doc) {
                count += 1;
            }
            doc = self.advance();
        }
        count
    }

    /// The number of remaining documents, deleted ones too; leaves none.
    ///
    /// By default it steps.
    fn count_including_deleted(&mut self) -> u32
        requires valid { valid self.old }
        requires placed { placed self.old }
        ensures count { result ≡ length (entries self.old) }
        ensures entries { entries self.new ≡ [] }
        ensures limits { limits self.new ≡ limits self.old }
        ensures kept { (s : Self) → keeps s self.old → keeps s self.new }
        ensures valid { valid self.new }
        ensures placed { placed self.new }
    {
        let mut count = 0;
        let mut doc = self.doc();
        // with those that are left, all of them are counted
        while doc != TERMINATED {
            count += 1;
            doc = self.advance();
        }
        count
    }

    // a cursor's entries ascend, stay below TERMINATED and keep within its limits
    ghost ascending: { (s : Self) → valid s → AreEntries 0 (limits s) (entries s) };
}
