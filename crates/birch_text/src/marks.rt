//! Which words of a text were asked for.

use crate::accents::Accents;
use crate::clause::{Clause, Scope};
use crate::words::{WordReader, is_between};
use std::alloc::{AllocError, Global};
use unicode_segmentation::UnicodeSegmentation;

/// A word that was asked for, by the bytes of the text where it stands.
#[derive(Clone, Copy, PartialEq, Eq)]
pub struct Mark {
    /// Its first byte.
    pub start: usize,
    /// The byte behind it.
    pub end: usize,
}

/// Finds the words that a query asks for.
#[derive(Drop)]
pub struct Marker<'a> {
    reader: WordReader,
    // room for a word that is folded
    folded: String,
    // in order
    words: Vec<&'a str>,
    // in order, and none begins with another
    beginnings: Vec<&'a str>,
}

impl<'a> Marker<'a> {
    /// Of the words of these clauses, but those of files' names. Those of a field are marked in all of the text. Costs what
    /// it takes to sort them.
    ///
    /// Refused for want of memory alone.
    pub fn new(
        alloc: Global,
        accents: Accents,
        clauses: &[&'a Clause],
    ) -> Result<Marker<'a>, AllocError> {
        let mut marker = Marker {
            reader: WordReader::new(alloc, accents),
            folded: String::new(alloc),
            words: Vec::new(alloc),
            beginnings: Vec::new(alloc),
        };
        // the words of the clauses before this one are wanted
        for clause in clauses {
            match clause.scope {
                Scope::FileName => {}
                Scope::Text | Scope::Field(_) => marker.add(clause)?,
            }
        }
        marker.put_in_order();
        Ok(marker)
    }

    // Adds the words of one clause.
    fn add(&mut self, clause: &'a Clause) -> Result<(), AllocError> {
        // the words before this one are wanted
        for word in &clause.words {
            self.words.push(word.as_str())?;
        }
        if clause.is_prefix {
            if let Some(begin) = self.words.pop() {
                self.beginnings.push(begin)?;
            }
        }
        Ok(())
    }

    // Puts the words in order, and leaves out each beginning that begins with another.
    fn put_in_order(&mut self) {
        self.words.sort_unstable();
        self.beginnings.sort_unstable();
        let mut last: Option<&'a str> = None;
        self.beginnings.retain(|begin| match last {
            Some(other) if begin.starts_with(other) => false,
            _ => {
                last = Some(*begin);
                true
            }
        });
    }

    /// The words of a text that were asked for, in order. Costs the text's length times the logarithm of how many words
    /// were.
    ///
    /// Refused for want of memory alone.
    pub fn marks(&mut self, alloc: Global, text: &str) -> Result<Vec<Mark>, AllocError> {
        let mut marks = Vec::new(alloc);
        // what is wanted of the words before this one is marked
        for (first, word) in text.unicode_word_indices() {
            let mut start = first;
            // and of the pieces of the word that end before `start`
            for part in word.split_inclusive(is_between) {
                let piece = part.trim_end_matches(is_between);
                self.reader.fold(&mut self.folded, piece)?;
                if self.is_wanted(self.folded.as_str()) {
                    let end = start.saturating_add(piece.len());
                    marks.push(Mark { start, end })?;
                }
                start = start.saturating_add(part.len());
            }
        }
        Ok(marks)
    }

    // Whether a folded word was asked for. If it begins with one of the beginnings, that is the last one that doesn't
    // come behind it: one between the two would begin so too.
    fn is_wanted(&self, folded: &str) -> bool {
        let before = self.beginnings.partition_point(|begin| *begin <= folded);
        let last = self.beginnings.get(before.saturating_sub(1));
        last.is_some_and(|begin| folded.starts_with(*begin))
            || self
                .words
                .binary_search_by(|word| (*word).cmp(folded))
                .is_ok()
    }
}
