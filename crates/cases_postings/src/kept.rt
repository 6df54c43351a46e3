//! The fields of a schema, and what they keep.

ghost use Rattle.std.specs.Prelude.{◌≤◌, length};

use crate::spelled::{cut, read_option, read_text};
use cases::{Asker, Done, Fault, Listing, Memory, Row, end_refusals, word, words_of};
use qm_schema::{Field, IndexRecordOption, Schema, SchemaBuilder};
use std::alloc::Global;

const MOST_FIELDS: u32 = 1000;

/// What a field's postings keep, by its word; `nothing` where it has none.
fn read_kept(name: &str) -> Result<Option<IndexRecordOption>, Fault> {
    if name == "nothing" {
        Ok(None)
    } else {
        Ok(Some(read_option(name)?))
    }
}

/// Makes a schema, field by field.
#[derive(Drop)]
pub struct SchemaMaker {
    builder: SchemaBuilder,
    count: u32,
    ghost counted: { length builder ≤ count },
}

impl SchemaMaker {
    pub fn new(alloc: Global) -> SchemaMaker {
        SchemaMaker {
            builder: Schema::builder(alloc),
            count: 0,
        }
    }

    // Adds the field of the words `NAME KEEPS lengths`.
    fn add(&mut self, alloc: Global, spelled: &str, memory: Memory) -> Result<Field, Fault> {
        let words = words_of(alloc, spelled)?;
        let name = read_text(alloc, word(&words, 0))?;
        let kept = read_kept(word(&words, 1))?;
        let has_lengths = word(&words, 2) == "lengths";
        if self.count >= MOST_FIELDS {
            return Err(Fault::NotAllowed);
        }
        memory.begin(alloc);
        let added = self
            .builder
            .add_text_field(name.as_str(), kept, has_lengths);
        end_refusals(alloc);
        self.count += 1;
        Ok(added?)
    }
}

impl Asker for SchemaMaker {
    fn ask(&mut self, alloc: Global, call: &str, memory: Memory, text: &mut Listing) -> Done {
        let (name, rest) = cut(call);
        if name != "field" {
            return Err(Fault::NotUnderstood);
        }
        let field = self.add(alloc, rest, memory)?;
        Ok(write!(text, "{}", field.field_id()))
    }
}

/// The schema of the rows `field NAME KEEPS lengths`; where there is none, of one field `body` with
/// positions and lengths.
pub fn make_schema(alloc: Global, rows: &[Row<'_>]) -> Result<Schema, Fault> {
    let mut maker = SchemaMaker::new(alloc);
    // the fields of the rows so far
    for row in rows {
        let (name, rest) = cut(row.call);
        if name == "field" {
            maker.add(alloc, rest, Memory::Ample)?;
        }
    }
    if maker.count == 0 {
        maker.add(alloc, "body positions lengths", Memory::Ample)?;
    }
    Ok(maker.builder.build())
}
