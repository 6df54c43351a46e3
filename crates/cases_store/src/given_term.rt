//! A term that is given by hand, and terms that are read of bytes.

use crate::spelled::{bytes_of, read_text, write_bytes};
use cases::{Asker, Done, Fault, Listing, Memory, behind, end_refusals, number, word};
use qm_schema::{Field, QueryError, Term};
use qm_store::{push_term, read_term};
use std::alloc::Global;

/// A term.
#[derive(Drop)]
pub struct GivenTerm {
    term: Term,
}

impl GivenTerm {
    /// The term of the words `term FIELD TEXT`, where `-` stands for no text.
    pub fn make(alloc: Global, words: &[&str]) -> Result<GivenTerm, Fault> {
        let Some(field) = number(words, 1) else {
            return Err(Fault::NotUnderstood);
        };
        let text = read_text(word(words, 2));
        let term = Term::from_field_text(alloc, Field::from_field_id(field), text)?;
        Ok(GivenTerm { term })
    }
}

impl Asker for GivenTerm {
    // `bytes`, those of the term behind one of 255.
    fn ask(&mut self, alloc: Global, call: &str, memory: Memory, text: &mut Listing) -> Done {
        if call != "bytes" {
            return Err(Fault::NotUnderstood);
        }
        let mut bytes = Vec::new(alloc);
        bytes.push(255)?;
        memory.begin(alloc);
        let pushed = push_term(&mut bytes, &self.term);
        end_refusals(alloc);
        match pushed {
            Ok(()) => Ok(write_bytes(&bytes, text)),
            Err(_) => Err(Fault::Refused(QueryError::Memory)),
        }
    }
}

/// Bytes that begin with a term, or don't.
#[derive(Drop)]
pub struct GivenBytes {
    bytes: Vec<u8>,
}

impl GivenBytes {
    /// Those of the words `begin BYTES`.
    pub fn make(alloc: Global, words: &[&str]) -> Result<GivenBytes, Fault> {
        let bytes = bytes_of(alloc, behind(words, 1))?;
        Ok(GivenBytes { bytes })
    }
}

impl Asker for GivenBytes {
    // `term`, the one that they begin with: its field, the bytes of its text, and those that are left.
    fn ask(&mut self, alloc: Global, call: &str, memory: Memory, text: &mut Listing) -> Done {
        if call != "term" {
            return Err(Fault::NotUnderstood);
        }
        memory.begin(alloc);
        let read = read_term(&self.bytes);
        end_refusals(alloc);
        let Some((field, spelled, rest)) = read else {
            return Ok(text.word("none"));
        };
        write!(text, "{} text", field.field_id());
        write_bytes(spelled, text);
        text.word(" left");
        Ok(write_bytes(rest, text))
    }
}
