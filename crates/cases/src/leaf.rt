//! Cursors of the cases' own.

ghost use Rattle.std.specs.Prelude.{◌≡◌, ℕ, ◌+◌, ◌*◌, ◌%◌, ◌≤◌, IfOk, IsTrue, vec_len, length};
ghost use Rattle.std.proofs.Common.{arith};
ghost use Rattle.qm_docset.specs.DocumentsFacts.{AreEntries-documents};
ghost use Rattle.qm_docset.specs.Entry.{Entry, documents, no_limits};
ghost use Rattle.qm_docset.specs.Lists.{ArePlaced, IsPlaced};
ghost use Rattle.qm_docset.specs.VecDocSet.{IsVecCursor, remaining_documents};
ghost use Rattle.qm_combine.specs.Rescored.{limited, rescored};
ghost use Rattle.qm_combine.specs.RescoredFacts.{AreEntries-rescored};

use crate::documents::read_documents;
use crate::fault::Fault;
use crate::moves::Moves;
use crate::words::{behind, number, word};
use qm_combine::Scorer;
use qm_docset::{DocId, DocSet, Score, SeekDangerResult, TERMINATED, VecDocSet, are_documents};
use std::alloc::Global;
use std::cell::Cell;

/// What a leaf answers where its trait leaves it free.
#[derive(Clone, Copy, PartialEq, Eq)]
enum Manner {
    /// the documents reached as bounds, and its length as size hint
    Plain,
    /// the least bounds that are allowed, and the least hint
    Least,
    /// the least bounds, and the greatest hint, with a cost that is greater by one
    Greatest,
    /// the least bounds, and another hint each time
    Fickle,
}

/// A list of documents that keeps the laws of its traits in a manner of its own, answers document 0
/// where it is not placed, and counts how often it is moved.
#[derive(Drop)]
pub struct Leaf<'a> {
    docs: VecDocSet,
    /// the score of an even document
    score: u32,
    /// what an odd one scores more
    more: u32,
    manner: Manner,
    hint: Cell<u32>,
    standing: bool,
    is_first: bool,
    moves: &'a Moves,
}

impl<'a> Leaf<'a> {
    fn count_move(&self) {
        let moves = if self.is_first {
            &self.moves.first
        } else {
            &self.moves.others
        };
        moves.set(moves.get().wrapping_add(1));
    }
}

#[tactic(auto, using(qm_combine::specs::RescoredFacts::rescoring))]
impl<'a> DocSet for Leaf<'a> {
    ghost entries = { λ s. rescored (λ e. s.score + s.more * (e.document % 2)) (remaining_documents s.docs) };

    ghost limits = { λ s. limited (s.score + s.more) no_limits };

    ghost placed = { λ s. IsTrue s.standing };

    ghost valid = { λ s. IsVecCursor s.docs };

    fn doc(&self) -> DocId {
        if self.standing { self.docs.doc() } else { 0 }
    }

    fn advance(&mut self) -> DocId {
        self.count_move();
        self.docs.advance()
    }

    fn seek(&mut self, target: DocId) -> DocId {
        self.count_move();
        self.standing = true;
        self.docs.seek(target)
    }

    fn seek_danger(&mut self, target: DocId) -> SeekDangerResult {
        self.count_move();
        let doc = self.docs.seek(target);
        if target == TERMINATED {
            self.standing = false;
            return SeekDangerResult::SeekLowerBound(TERMINATED);
        }
        if doc == target {
            self.standing = true;
            return SeekDangerResult::Found;
        }
        self.standing = false;
        if self.manner == Manner::Plain {
            return SeekDangerResult::SeekLowerBound(doc);
        }
        SeekDangerResult::SeekLowerBound(target + 1)
    }

    fn size_hint(&self) -> u32 {
        match self.manner {
            Manner::Plain => self.docs.size_hint(),
            Manner::Least => 0,
            Manner::Greatest => u32::MAX,
            Manner::Fickle => {
                // some 2.6 thousand million apart from one call to the next
                self.hint.set(self.hint.get().wrapping_add(2654435769));
                self.hint.get()
            }
        }
    }

    fn cost(&self) -> u64 {
        if self.manner == Manner::Greatest {
            // more than any hint
            return u64::from(u32::MAX) + 1;
        }
        u64::from(self.size_hint())
    }

    ghost ascending = { λ s h. AreEntries-rescored _ (s.score + s.more) 0 no_limits _ (λ e _. Prim.grind arith) (AreEntries-documents _ _ h.documents) };
}

#[tactic(auto, using(qm_combine::specs::RescoredFacts::rescoring))]
impl<'a> Scorer for Leaf<'a> {
    fn score(&mut self) -> Score {
        if self.docs.doc() % 2 == 0 {
            i64::from(self.score)
        } else {
            i64::from(self.score) + i64::from(self.more)
        }
    }

    fn max_score(&self) -> Score {
        i64::from(self.score) + i64::from(self.more)
    }
}

/// The leaf that words spell: its manner, the score of an even document, `odd` and what an odd one
/// scores more where that is not 0, and its documents.
pub fn read_leaf<'a>(
    alloc: Global,
    words: &[&str],
    is_first: bool,
    moves: &'a Moves,
) -> Result<Leaf<'a>, Fault>
    ensures placed { IfOk result (λ s. IsPlaced ⟦<Leaf<'a> as DocSet>⟧ s) }
{
    let is_uneven = word(words, 2) == "odd";
    let docs = read_documents(alloc, behind(words, if is_uneven { 4 } else { 2 }))?;
    if !are_documents(&docs) {
        return Err(Fault::NotUnderstood);
    }
    let more = if is_uneven { number(words, 3) } else { Some(0) };
    let (Some(manner), Some(score), Some(more)) = (
        read_manner(word(words, 0)),
        number(words, 1),
        more,
    ) else {
        return Err(Fault::NotUnderstood);
    };
    Ok(Leaf {
        docs: VecDocSet::new(docs),
        score,
        more,
        manner,
        hint: Cell::new(0),
        standing: true,
        is_first,
        moves,
    })
}

fn read_manner(name: &str) -> Option<Manner> {
    match name {
        "list" => Some(Manner::Plain),
        "least" => Some(Manner::Least),
        "greatest" => Some(Manner::Greatest),
        "fickle" => Some(Manner::Fickle),
        _ => None,
    }
}

/// The leaves that words spell, with `;` between two.
pub fn read_leaves<'a>(
    alloc: Global,
    words: &[&str],
    moves: &'a Moves,
) -> Result<Vec<Leaf<'a>>, Fault>
    ensures placed { IfOk result (λ row. ArePlaced ⟦<Leaf<'a> as DocSet>⟧ row.items) }
{
    let mut leaves = Vec::new(alloc);
    if words.is_empty() {
        return Ok(leaves);
    }
    // the leaves of the parts before this one are there, and all of them are placed
    for part in words.split(|word| *word == ";") {
        let is_first = leaves.is_empty();
        leaves.push(read_leaf(alloc, part, is_first, moves)?)?;
    }
    Ok(leaves)
}
