//! What a query lists: documents of one segment after another, written to one text.
//!
//! It remembers that memory was refused, so that a run over a segment need not be told. The text of a listing counts as the
//! query's, so that one too large for memory costs its own line alone.

ghost use Rattle.std.specs.Prelude.{◌≡◌, ◌≤◌, ◌*◌, ◌+◌, ◌∷◌, [], ℕ, ℤ, IsOkUnless, List, None, OnOk, Option, Some, length, map, string_bytes};
ghost use Rattle.qm_docset.specs.declared.numbers.TheConstants.{TERMINATED};
ghost use Rattle.qm_script.specs.ProgramNumbers.{most_segments};
ghost use Rattle.qm_script.specs.Text.{IsListing, numbered};

use crate::item_writer::ItemWriter;
use qm_docset::{DocId, Score};
use qm_schema::QueryError;
use std::alloc::Global;

/// What was listed so far. Once memory was refused nothing more is written, and what was is of no use.
#[derive(Drop)]
pub(crate) struct Listing {
    writer: ItemWriter,
    // the number of the first document of the segment whose documents come
    first: u64,
    is_refused: bool,
    ghost few: { first ≤ most_segments * TERMINATED },
}

impl Listing {
    ghost use Rattle.qm_script.specs.Written.{KeepsListed, ListsMore, ListsSoFar};

    /// Takes an empty text, to write to it. It comes back by [`finish`](Listing::finish).
    pub(crate) fn new(alloc: Global, text: &mut String) -> Listing
        requires { length (string_bytes text.old) ≡ 0 }
        ensures { ListsSoFar [] result }
    {
        Listing {
            writer: ItemWriter::new(alloc, text),
            first: 0,
            is_refused: false,
        }
    }

    /// Gives the text back, with room behind it for the end of its line. Refused where memory was.
    pub(crate) fn finish(self, text: &mut String) -> Result<(), QueryError>
        ensures listed { (items : List (ℕ × Option ℤ)) → ListsSoFar items self → OnOk result (IsListing items (string_bytes text.new)) }
        ensures refused { IsOkUnless result QueryError.Memory }
    {
        if self.is_refused {
            return Err(QueryError::Memory);
        }
        self.writer.finish(text)
    }

    /// Goes on with a segment whose first document has this number.
    pub(crate) fn begin_segment(&mut self, first: u64)
        requires few { first ≤ most_segments * TERMINATED }
        ensures first { self.new.first ≡ first }
        ensures kept { KeepsListed self.old self.new }
    {
        self.first = first;
    }

    /// Writes documents of the segment behind those before them.
    pub(crate) fn add_documents(&mut self, documents: &[DocId])
        ensures first { self.new.first ≡ self.old.first }
        ensures listed { ListsMore (numbered self.old.first (map (λ d. (d, None)) documents.now)) self.old self.new }
    {
        // those before this one are listed
        for document in documents {
            self.add_document(*document);
        }
    }

    // Writes one.
    fn add_document(&mut self, document: DocId)
        ensures first { self.new.first ≡ self.old.first }
        ensures listed { ListsMore ((self.old.first + document, None) ∷ []) self.old self.new }
    {
        if !self.is_refused {
            let number = self.first + u64::from(document);
            self.is_refused = self.writer.write_document(number).is_err();
        }
    }

    /// Writes one with its score.
    pub(crate) fn add_score(&mut self, document: DocId, score: Score)
        ensures first { self.new.first ≡ self.old.first }
        ensures listed { ListsMore ((self.old.first + document, Some score) ∷ []) self.old self.new }
    {
        if !self.is_refused {
            let number = self.first + u64::from(document);
            self.is_refused = self.writer.write_score(number, score).is_err();
        }
    }
}
