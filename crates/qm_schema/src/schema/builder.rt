//! The making of a schema.

ghost use Rattle.std.specs.Prelude.{◌≡◌, ◌<◌, ◌≤◌, [], ◌∷◌, ◌++◌, length, IfOk, OnOk, OnErr, IsOkUnless};

use crate::error::QueryError;
use crate::field::Field;
use crate::schema::{FieldEntry, IndexRecordOption, Schema};
use std::alloc::Global;
use std::marker::Model;

/// Makes a [`Schema`], field by field.
///
/// Contracts see it as the list of what is known of each field so far.
#[derive(Debug, Drop)]
pub struct SchemaBuilder {
    entries: Vec<FieldEntry>,
}

impl Model for SchemaBuilder {
    ghost use Rattle.std.specs.Prelude.{List, length, ◌≤◌};
    ghost use Rattle.qm_schema.specs.Schema.{FieldFacts};

    ghost Value = { List FieldFacts };

    ghost view = { λ b. b.entries.items };

    ghost invariant = { λ b. length b.entries.items ≤ 4294967295 };
}

impl SchemaBuilder {
    pub(super) fn new(alloc: Global) -> SchemaBuilder
        ensures { result ≡ [] }
    {
        SchemaBuilder {
            entries: Vec::new(alloc),
        }
    }

    /// Adds a field of texts, whose number is the number of fields so far. `indexed` says what its
    /// postings keep, and is `None` where the field has none; `lengths` says whether the field keeps
    /// a length for each document. Costs a copy of the name.
    ///
    /// Asks that there are fewer than 4294967295 fields so far. Refused with [`QueryError::Memory`]
    /// alone, and then the fields are those from before.
    pub fn add_text_field(
        &mut self,
        name: &str,
        indexed: Option<IndexRecordOption>,
        lengths: bool,
    ) -> Result<Field, QueryError>
        requires room { length self.old < u32.MAX }
        ensures added { OnOk result (self.new ≡ self.old ++ record { name = name.now; indexed = indexed; lengths = lengths } ∷ []) }
        ensures number { IfOk result (λ field. field ≡ length self.old) }
        ensures unchanged { OnErr result (self.new ≡ self.old) }
        ensures refused { IsOkUnless result QueryError.Memory }
    {
        let field = Field::from_field_id(self.entries.len() as u32);
        let entry = FieldEntry::new(*self.entries.allocator(), name, indexed, lengths)?;
        self.entries.push(entry)?;
        Ok(field)
    }

    /// The schema of the fields that were added, in constant time.
    pub fn build(self) -> Schema
        ensures { result ≡ self }
    {
        Schema {
            entries: self.entries,
        }
    }
}
