//! The cells of a stretch: what its documents' scores come to, and the bounds of their blocks.

ghost use Rattle.std.specs.Prelude.{◌≡◌, ℕ, ◌+◌, ◌*◌, ◌/◌, ◌<◌, ◌≤◌, ◌==◌, ◌||◌, true, length, set, slice_index_or, vec_capacity, vec_len};
ghost use Rattle.std.specs.Prelude.{IfOk, IfSome, IsOkUnless, None};
ghost use Rattle.qm_docset.specs.Entry.{greatest_score};
ghost use Rattle.qm_docset.specs.Words.{words_have};
ghost use Rattle.qm_docset.specs.declared.numbers.TheConstants.{TERMINATED};
ghost use Rattle.qm_term.specs.CellSteps.{cell_with};

use crate::wand::front::scored;
use qm_combine::BoundedBySum;
use qm_docset::{DocId, TERMINATED, TinySet};
use qm_schema::QueryError;
use std::alloc::Global;

/// How many documents a stretch has at most.
pub(super) const MOST_DOCUMENTS: u32 = 4096;

/// What is known of a document: the sum of the bounds of its blocks, and what its scores come to.
#[derive(Clone, Copy)]
pub(crate) struct Cell<C> {
    pub(crate) bound: u64,
    pub(crate) state: C,
}

/// The documents of a stretch, a bit for each in one of 64 words, and a cell for each place. The cell of a
/// document that is not there is clear. No call but `new` takes memory.
#[derive(Drop)]
pub(crate) struct Cells<C> {
    start: DocId,
    words: Vec<TinySet>,
    // one for each place up to the greatest that a stretch had so far
    cells: Vec<Cell<C>>,
    clear: Cell<C>,
    ghost sixty_four: { vec_len words ≡ 64 },
    ghost room: { 4096 ≤ vec_capacity cells },
    ghost few: { vec_len cells ≤ 4096 },
    ghost within: { start < TERMINATED },
}

impl<C: BoundedBySum> Cells<C> {
    ghost use Rattle.qm_term.specs.Cells.{Adds, AreClear, IsFirstIn, LackAll, TakesOut, cell_of, cells_clear, cells_end, cells_has, cells_start};

    /// Cells of no document. Refused for want of memory alone.
    pub(super) fn new(alloc: Global, combiner: C) -> Result<Cells<C>, QueryError>
        ensures clear { IfOk result AreClear }
        ensures state { IfOk result (λ w. cells_clear w ≡ record { bound = 0; state = C.cleared combiner }) }
        ensures only { IsOkUnless result QueryError.Memory }
    {
        let mut state = combiner;
        state.clear();
        let words = vec![in alloc; TinySet::empty(); 64]?;
        let cells = Vec::with_capacity(alloc, MOST_DOCUMENTS as usize)?;
        Ok(Cells {
            start: 0,
            words,
            cells,
            clear: Cell { bound: 0, state },
        })
    }

    /// Goes to a stretch of so many documents, at most 4096.
    pub(super) fn begin(&mut self, start: DocId, count: u32)
        requires clear { AreClear self.old }
        requires start { start < TERMINATED }
        requires count { count ≤ 4096 }
        ensures clear { AreClear self.new }
        ensures same { cells_clear self.new ≡ cells_clear self.old }
        ensures start { cells_start self.new ≡ start }
        ensures end { start + count ≤ cells_end self.new }
    {
        self.start = start;
        if self.cells.len() < count as usize {
            self.cells.resize(count as usize, self.clear).unwrap();
        }
    }

    /// Adds a score of a document, and the bound of the block that it is in.
    #[inline(always)]
    pub(super) fn add(&mut self, doc: DocId, score: u64, bound: u64)
        requires span { (cells_start self.old ≤ doc) × (doc < cells_end self.old) }
        requires score { score ≤ greatest_score }
        requires room { C.has_room (cell_of self.old doc).state score }
        requires fits { (cell_of self.old doc).bound + bound ≤ greatest_score }
        ensures { Adds C.step doc score bound self.old self.new }
    {
        let place = (doc - self.start) as usize;
        put(&mut self.words, &mut self.cells, place, score, bound);
    }

    /// Takes the first document of a word out, and answers it with its cell.
    #[inline(always)]
    pub(super) fn pop_first(&mut self, word: usize) -> Option<Taken<C>>
        requires word { word < 64 }
        requires inside { (d : ℕ) → cells_has self.old d ≡ true → d < cells_end self.old }
        ensures none { result ≡ None → LackAll self.old (cells_start self.old + 64 * word) (cells_start self.old + 64 * (word + 1)) }
        ensures same { result ≡ None → self.new ≡ self.old }
        ensures first { IfSome result (λ taken. IsFirstIn word self.old taken.doc) }
        ensures taken { IfSome result (λ taken. TakesOut self.old taken.doc taken.cell self.new) }
    {
        let mut left = self.words[word];
        let lowest = left.pop_lowest()?;
        self.words[word] = left;
        let place = word * 64 + lowest as usize;
        let cell = self.cells[place];
        self.cells[place] = self.clear;
        Some(Taken {
            doc: self.start + place as u32,
            cell,
        })
    }
}

/// A document that was taken out, and its cell.
#[derive(Clone, Copy)]
pub(super) struct Taken<C> {
    pub(super) doc: DocId,
    pub(super) cell: Cell<C>,
}

// Adds a score and a bound at a place.
#[inline(always)]
fn put<C: BoundedBySum>(
    words: &mut [TinySet],
    cells: &mut [Cell<C>],
    place: usize,
    score: u64,
    bound: u64,
)
    requires place { place < length cells.old }
    requires words { place < 64 * length words.old }
    requires score { score ≤ greatest_score }
    requires room { (d : _) → C.has_room (slice_index_or cells.old place d).state score }
    requires fits { (d : _) → (slice_index_or cells.old place d).bound + bound ≤ greatest_score }
    ensures words { (x : ℕ) → words_have words.new x ≡ (x == place || words_have words.old x) }
    ensures cells { (d : _) → cells.new ≡ set cells.old place (cell_with C.step score bound (slice_index_or cells.old place d)) }
{
    words[place / 64].insert_mut((place % 64) as u32);
    let cell = cells[place];
    let mut state = cell.state;
    let mut one = scored(score);
    state.update(&mut one);
    cells[place] = Cell {
        bound: cell.bound + bound,
        state,
    };
}
