//! The text of an answer.

use qm_docset::{DocId, Score, TERMINATED};
use std::alloc::{AllocError, Global};
use std::fmt::Display;

/// A text that is written word by word. Where there was no memory for one it takes none any more, and
/// remembers that: who reads the text asks for it once.
#[derive(Drop)]
pub struct Listing {
    text: String,
    is_refused: bool,
}

impl Listing {
    pub fn new(alloc: Global) -> Listing {
        Listing {
            text: String::new(alloc),
            is_refused: false,
        }
    }

    /// Takes room for so many bytes.
    pub fn reserve(&mut self, room: usize) {
        self.is_refused = self.is_refused || self.text.reserve(room).is_err();
    }

    pub fn as_str(&self) -> &str {
        self.text.as_str()
    }

    /// The text, where there was memory for all of it.
    pub fn into_string(self) -> Result<String, AllocError> {
        if self.is_refused {
            return Err(AllocError);
        }
        Ok(self.text)
    }

    /// Drops what is written.
    pub fn clear(&mut self) {
        self.text.clear();
    }

    /// Whether there was no memory for something that was to be written.
    pub fn is_refused(&self) -> bool {
        self.is_refused
    }

    /// Writes a word, or any text.
    pub fn word(&mut self, word: &str) {
        self.is_refused = self.is_refused || self.text.push_str(word).is_err();
    }

    /// What `write!` calls.
    pub fn write_fmt<D: Display + Drop>(&mut self, value: D) {
        self.is_refused = self.is_refused || write!(self.text, "{value}").is_err();
    }

    /// Writes a space where something stands there already.
    pub fn space(&mut self) {
        if !self.text.as_str().is_empty() {
            self.word(" ");
        }
    }

    /// Writes something behind what stands there.
    pub fn add<D: Display + Drop>(&mut self, value: D) {
        self.space();
        write!(self, "{value}");
    }

    /// Writes bytes, each as the character of its number.
    pub fn bytes(&mut self, bytes: &[u8]) {
        // the bytes before this one are written
        for byte in bytes {
            write!(self, "{}", char::from(*byte));
        }
    }

    /// Writes a document, or `end`.
    pub fn document(&mut self, doc: DocId) {
        if doc == TERMINATED {
            self.word("end");
        } else {
            write!(self, "{doc}");
        }
    }

    /// Writes a document behind what stands there.
    pub fn next(&mut self, doc: DocId) {
        self.space();
        self.document(doc);
    }

    /// Writes documents behind what stands there.
    pub fn documents(&mut self, docs: &[DocId]) {
        // the documents before this one are written
        for doc in docs {
            self.next(*doc);
        }
    }

    /// Writes a document with its score behind what stands there.
    pub fn score(&mut self, doc: DocId, score: Score) {
        self.next(doc);
        write!(self, ":{score}");
    }
}
