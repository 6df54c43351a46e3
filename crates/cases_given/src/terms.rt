//! Terms and phrases as words.

ghost use Rattle.std.specs.Prelude.{◌≤◌, All, IfOk};

use cases::Fault;
use qm_schema::{Field, Schema, Term};
use std::alloc::Global;

/// The term of a word: of the first field, or `NAME:WORD`, of that field. A number is the field of that
/// number.
pub fn read_term(alloc: Global, schema: &Schema, word: &str) -> Result<Term, Fault> {
    let (field, text) = match word.split_once(':') {
        Some((name, text)) => (read_field(schema, name)?, text),
        None => (Field::from_field_id(0), word),
    };
    Ok(Term::from_field_text(alloc, field, text)?)
}

/// The field of a name, or of a number.
pub fn read_field(schema: &Schema, name: &str) -> Result<Field, Fault> {
    if let Some(field) = schema.get_field(name) {
        return Ok(field);
    }
    match name.parse() {
        Ok(number) => Ok(Field::from_field_id(number)),
        Err(_) => Err(Fault::NotUnderstood),
    }
}

/// The terms of `OFFSET W OFFSET W ..`, where no offset is past the greatest.
pub fn read_placed(
    alloc: Global,
    schema: &Schema,
    words: &[&str],
    greatest: usize,
) -> Result<Vec<(usize, Term)>, Fault>
    ensures { IfOk result (λ terms. All (λ pair. pair.0 ≤ greatest) terms.items) }
{
    let mut terms = Vec::new(alloc);
    let mut offset = None;
    // no offset that was read is past the greatest
    for word in words {
        match offset {
            None => offset = Some(read_offset(word, greatest)?),
            Some(place) => {
                terms.push((place, read_term(alloc, schema, word)?))?;
                offset = None;
            }
        }
    }
    Ok(terms)
}

fn read_offset(word: &str, greatest: usize) -> Result<usize, Fault>
    ensures { IfOk result (λ offset. offset ≤ greatest) }
{
    match word.parse::<usize>() {
        Ok(offset) if offset <= greatest => Ok(offset),
        _ => Err(Fault::NotUnderstood),
    }
}
