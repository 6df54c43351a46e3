//! Documents that an index is handed, as words spell them.

use crate::spelled::{cut, read_field, read_numbers, read_term, read_text};
use cases::{Done, Fault, Memory, end_refusals};
use qm_index::GivenDocument;
use qm_schema::Schema;
use std::alloc::Global;

/// The document that `PART ; PART ..` spell: `NAME: WORDS` is a text, the others are as of [`add_part`].
pub fn read_given(alloc: Global, schema: &Schema, spelled: &str) -> Result<GivenDocument, Fault> {
    let mut texts = Vec::new(alloc);
    // the texts of the parts before this one are there, each with its field
    for part in spelled.split(';') {
        if let Some((name, words)) = part.split_once(':') {
            let field = read_field(schema, name.trim())?;
            texts.push((field, read_text(alloc, words.trim())?))?;
        }
    }
    let mut document = GivenDocument::of_texts(alloc, texts);
    add_parts(alloc, schema, &mut document, spelled)?;
    Ok(document)
}

// Gives a document the terms and the length ids that `PART ; PART ..` spell.
fn add_parts(alloc: Global, schema: &Schema, document: &mut GivenDocument, spelled: &str) -> Done {
    // the document has the terms and the length ids of the parts before this one
    for part in spelled.split(';') {
        if !part.contains(':') {
            add_part(alloc, schema, document, part.trim(), Memory::Ample)?;
        }
    }
    Ok(())
}

/// Gives a document what `term FIELD WORD NUMBERS` or `length FIELD ID` spell.
pub fn add_part(
    alloc: Global,
    schema: &Schema,
    document: &mut GivenDocument,
    spelled: &str,
    memory: Memory,
) -> Done {
    let (name, rest) = cut(spelled);
    match name {
        "term" => add_term(alloc, schema, document, rest, memory),
        "length" => set_length(alloc, schema, document, rest, memory),
        _ => Err(Fault::NotUnderstood),
    }
}

// A term of a field at positions.
fn add_term(
    alloc: Global,
    schema: &Schema,
    document: &mut GivenDocument,
    spelled: &str,
    memory: Memory,
) -> Done {
    let (name, rest) = cut(spelled);
    let (word, places) = cut(rest);
    let term = read_term(alloc, read_field(schema, name)?, word)?;
    let positions = read_numbers(alloc, places)?;
    memory.begin(alloc);
    let added = document.add_term(term, positions);
    end_refusals(alloc);
    Ok(added?)
}

// The length id of a field.
fn set_length(
    alloc: Global,
    schema: &Schema,
    document: &mut GivenDocument,
    spelled: &str,
    memory: Memory,
) -> Done {
    let (name, id) = cut(spelled);
    let field = read_field(schema, name)?;
    let id = id.parse::<u8>().map_err(|_| Fault::NotUnderstood)?;
    memory.begin(alloc);
    let set = document.set_length(field, id);
    end_refusals(alloc);
    Ok(set?)
}
