//! Rows on terms, prefixes and addresses.

use crate::spelled::{cut, read_bytes, read_number, read_text, write_bytes};
use cases::{Asker, Done, Fault, Listing, Memory, end_refusals, word, words_of};
use qm_phrase::prefix_end;
use qm_postings::DocAddress;
use qm_schema::{Field, Term};
use std::alloc::Global;
use std::cmp::Ordering;

/// The term that the words `FIELD WORD` spell, a field by its number. Some requests for memory are refused
/// as it is made.
pub fn make_term(alloc: Global, words: &[&str], memory: Memory) -> Result<Term, Fault> {
    let text = read_text(alloc, word(words, 1))?;
    let field = Field::from_field_id(read_number(word(words, 0))?);
    memory.begin(alloc);
    let term = Term::from_field_text(alloc, field, text.as_str());
    end_refusals(alloc);
    Ok(term?)
}

/// Rows on a term.
#[derive(Drop)]
pub struct TermRows<'t> {
    pub term: &'t Term,
}

impl<'t> Asker for TermRows<'t> {
    fn ask(&mut self, alloc: Global, call: &str, memory: Memory, text: &mut Listing) -> Done {
        let (name, rest) = cut(call);
        match name {
            "field" => write!(text, "{}", self.term.field().field_id()),
            "bytes" => write_bytes(self.term.serialized_value_bytes(), text),
            "cmp" => {
                let other = make_term(alloc, &words_of(alloc, rest)?, Memory::Ample)?;
                write_order(self.term, &other, text);
            }
            "clone" => write_copy(alloc, self.term, memory, text)?,
            _ => return Err(Fault::NotUnderstood),
        }
        Ok(())
    }
}

// Writes how a term compares, and where its calls do not agree.
fn write_order(term: &Term, other: &Term, text: &mut Listing) {
    let order = term.cmp(other);
    text.word(order_name(order));
    if term.partial_cmp(other) != Some(order) || (term == other) != (order == Ordering::Equal) {
        text.word(" by one call alone");
    }
}

fn order_name(order: Ordering) -> &'static str {
    match order {
        Ordering::Less => "less",
        Ordering::Equal => "equal",
        Ordering::Greater => "greater",
    }
}

// Writes the field and the bytes of a copy.
fn write_copy(alloc: Global, term: &Term, memory: Memory, text: &mut Listing) -> Done {
    memory.begin(alloc);
    let copy = term.clone(alloc);
    end_refusals(alloc);
    let copy = copy?;
    write!(text, "{} ", copy.field().field_id());
    Ok(write_bytes(copy.serialized_value_bytes(), text))
}

/// Rows on the address of a document.
#[derive(Drop)]
pub struct AddressRows {
    pub address: DocAddress,
}

/// The address that the words `SEGMENT DOCUMENT` spell.
pub fn read_address(words: &[&str]) -> Result<DocAddress, Fault> {
    let (segment, doc) = (read_number(word(words, 0))?, read_number(word(words, 1))?);
    Ok(DocAddress::new(segment, doc))
}

impl Asker for AddressRows {
    fn ask(&mut self, alloc: Global, call: &str, _memory: Memory, text: &mut Listing) -> Done {
        let (name, rest) = cut(call);
        match name {
            "segment_ord" => write!(text, "{}", self.address.segment_ord),
            "doc_id" => write!(text, "{}", self.address.doc_id),
            "cmp" => {
                let other = read_address(&words_of(alloc, rest)?)?;
                text.word(order_name(self.address.cmp(&other)));
            }
            _ => return Err(Fault::NotUnderstood),
        }
        Ok(())
    }
}

/// Rows on where prefixes end.
#[derive(Drop)]
pub struct PrefixEndRows;

impl Asker for PrefixEndRows {
    fn ask(&mut self, alloc: Global, call: &str, memory: Memory, text: &mut Listing) -> Done {
        let Some(prefix) = call.strip_prefix("of ") else {
            return Err(Fault::NotUnderstood);
        };
        let prefix = read_bytes(alloc, prefix)?;
        memory.begin(alloc);
        let end = prefix_end(alloc, &prefix);
        end_refusals(alloc);
        match end? {
            Some(end) => Ok(write_bytes(&end, text)),
            None => Ok(text.word("none")),
        }
    }
}
