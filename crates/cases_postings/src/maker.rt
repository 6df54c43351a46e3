//! A segment that is being made.

ghost use Rattle.std.specs.Prelude.{◌≤◌, length};

use crate::spelled::{
    cut, read_field, read_number, read_numbers, read_term, read_text, read_texts,
};
use cases::{Asker, Done, Fault, Listing, Memory, end_refusals, read_document};
use qm_postings::{PlainDoc, SegmentBuilder, SegmentReader};
use qm_schema::Schema;
use std::alloc::{AllocError, Global};
use std::mem;

/// Makes a segment, document by document.
#[derive(Drop)]
pub struct Maker<'s> {
    schema: &'s Schema,
    builder: SegmentBuilder,
    count: u32,
    // the document that is made part by part
    document: PlainDoc,
    ghost counted: { count ≤ length builder.documents },
}

impl<'s> Maker<'s> {
    /// A segment in blocks of so many postings. Some requests for memory are refused as it is begun.
    pub fn new(
        alloc: Global,
        schema: &'s Schema,
        block_len: u32,
        memory: Memory,
    ) -> Result<Maker<'s>, Fault> {
        memory.begin(alloc);
        let builder = SegmentBuilder::new(alloc, schema, block_len);
        end_refusals(alloc);
        Ok(Maker {
            schema,
            builder: builder?,
            count: 0,
            document: PlainDoc::new(alloc),
        })
    }

    /// The segment of all documents that were added. Some requests for memory are refused meanwhile.
    pub fn finish(self, alloc: Global, memory: Memory) -> Result<SegmentReader, Fault> {
        memory.begin(alloc);
        let built = self.builder.build(alloc);
        end_refusals(alloc);
        Ok(built?)
    }

    // Adds a document, and writes its number.
    fn add(
        &mut self,
        alloc: Global,
        document: PlainDoc,
        memory: Memory,
        text: &mut Listing,
    ) -> Done {
        memory.begin(alloc);
        let added = self.builder.add_document(document);
        end_refusals(alloc);
        let doc = added?;
        self.count = doc.saturating_add(1);
        Ok(write!(text, "{doc}"))
    }

    // The document of these texts.
    fn read_whole(&self, alloc: Global, spelled: &str) -> Result<PlainDoc, Fault> {
        let mut document = PlainDoc::new(alloc);
        // the document has the texts before this one
        for (field, text) in read_texts(alloc, self.schema, spelled)? {
            document.add_text(field, text.as_str())?;
        }
        Ok(document)
    }

    // So many documents of the same texts: `N TEXTS`. Writes the number of the last one.
    fn add_alike(&mut self, alloc: Global, spelled: &str, text: &mut Listing) -> Done {
        let (count, texts) = cut(spelled);
        // as many such documents are added as there were turns, and the text is the number of the last one
        for _ in 0..read_number(count)? {
            text.clear();
            let document = self.read_whole(alloc, texts)?;
            self.add(alloc, document, Memory::Ample, text)?;
        }
        Ok(())
    }

    // A text of a field.
    fn add_text(&mut self, alloc: Global, spelled: &str, memory: Memory) -> Done {
        let (name, rest) = cut(spelled);
        let field = read_field(self.schema, name)?;
        let text = read_text(alloc, rest)?;
        memory.begin(alloc);
        Ok(self.document.add_text(field, text.as_str())?)
    }

    // A text of a field: so many numbers from 0 up, each less what is left of it by another number.
    fn add_numbers(&mut self, alloc: Global, spelled: &str) -> Done {
        let (name, rest) = cut(spelled);
        let (count, terms) = cut(rest);
        let text = numbers_text(alloc, read_number(count)?, read_number(terms)?)?;
        let field = read_field(self.schema, name)?;
        Ok(self.document.add_text(field, text.as_str())?)
    }

    // A term of a field at positions.
    fn add_term(&mut self, alloc: Global, spelled: &str, memory: Memory) -> Done {
        let (name, rest) = cut(spelled);
        let (word, places) = cut(rest);
        let term = read_term(alloc, read_field(self.schema, name)?, word)?;
        let positions = read_numbers(alloc, places)?;
        memory.begin(alloc);
        Ok(self.document.add_term(term, positions)?)
    }

    // The length id of a field.
    fn set_length(&mut self, alloc: Global, spelled: &str, memory: Memory) -> Done {
        let (name, id) = cut(spelled);
        let field = read_field(self.schema, name)?;
        let Ok(id) = id.parse::<u8>() else {
            return Err(Fault::NotUnderstood);
        };
        memory.begin(alloc);
        Ok(self.document.set_length(field, id)?)
    }

    // Deletes a document that was added.
    fn delete(&mut self, alloc: Global, spelled: &str, memory: Memory) -> Done {
        let Some(doc) = read_document(spelled) else {
            return Err(Fault::NotUnderstood);
        };
        if doc >= self.count {
            return Err(Fault::NotAllowed);
        }
        memory.begin(alloc);
        Ok(self.builder.delete(doc)?)
    }
}

impl<'s> Asker for Maker<'s> {
    fn ask(&mut self, alloc: Global, call: &str, memory: Memory, text: &mut Listing) -> Done {
        let (name, rest) = cut(call);
        match name {
            // these were read before
            "field" | "blocks" => Ok(()),
            "doc" => {
                let document = self.read_whole(alloc, rest)?;
                self.add(alloc, document, memory, text)
            }
            "docs" => self.add_alike(alloc, rest, text),
            "add" => {
                let document = mem::replace(&mut self.document, PlainDoc::new(alloc));
                self.add(alloc, document, memory, text)
            }
            "text" => self.add_text(alloc, rest, memory),
            "numbers" => self.add_numbers(alloc, rest),
            "term" => self.add_term(alloc, rest, memory),
            "length" => self.set_length(alloc, rest, memory),
            "delete" => self.delete(alloc, rest, memory),
            _ => Err(Fault::NotUnderstood),
        }
    }
}

fn numbers_text(alloc: Global, count: u32, terms: u32) -> Result<String, AllocError> {
    let mut text = Listing::new(alloc);
    // what is left of each number before this one stands in the text
    for number in 0..count {
        write!(text, "{} ", number % terms.max(1));
    }
    text.into_string()
}
