//! The fields that the documents of a segment may have.
//!
//! Two fields may have one name. `get_field` answers the first, by a walk, since it is asked once a query.

ghost use Rattle.std.specs.Prelude.{◌≡◌, ◌<◌, ◌≤◌, [], length, slice_get, IfSome, IfOk, IsOkUnless};
ghost use Rattle.std.specs.Option.{option_copied};
ghost use Rattle.qm_schema.specs.Schema.{field_named};

use crate::error::QueryError;
use crate::field::Field;
use std::alloc::Global;
use std::marker::Model;

mod builder;
mod entry;
mod option;

pub use builder::SchemaBuilder;
pub use entry::FieldEntry;
pub use option::IndexRecordOption;

/// The fields that the documents of a segment may have, in the order in which they were added: a
/// field's number is its place, from 0 up. Two fields may have one name.
///
/// Contracts see it as the list of what is known of each field.
#[derive(Debug, Drop)]
pub struct Schema {
    entries: Vec<FieldEntry>,
}

impl Model for Schema {
    ghost use Rattle.std.specs.Prelude.{List, length, ◌≤◌};
    ghost use Rattle.qm_schema.specs.Schema.{FieldFacts};

    ghost Value = { List FieldFacts };

    ghost view = { λ s. s.entries.items };

    ghost invariant = { λ s. length s.entries.items ≤ 4294967295 };
}

impl Schema {
    /// A builder of a schema, with no field yet; what it comes to hold is taken from `alloc`. Takes
    /// no memory.
    pub fn builder(alloc: Global) -> SchemaBuilder
        ensures { result ≡ [] }
    {
        SchemaBuilder::new(alloc)
    }

    /// The first field of that name, and `None` where no field has it. Goes through the names, since
    /// a schema has few fields.
    pub fn get_field(&self, name: &str) -> Option<Field>
        ensures { result ≡ field_named name.now self.now }
    {
        let id = self.position_of(name)?;
        Some(Field::from_field_id(id as u32))
    }

    fn position_of(&self, name: &str) -> Option<usize>
        ensures first { result ≡ field_named name.now self.now }
        ensures within { IfSome result (λ position. position < u32.MAX) }
    {
        self.entries.iter().position(|entry| entry.name() == name)
    }

    /// How many fields it has: their numbers are those below. Constant time.
    pub fn field_count(&self) -> u32
        ensures { result ≡ length self.now }
    {
        self.entries.len() as u32
    }

    /// What is known of a field, and `None` where the schema has no field of that number. Takes
    /// constant time.
    pub fn get_field_entry(&self, field: Field) -> Option<&FieldEntry>
        ensures { option_copied result ≡ slice_get self.now field }
    {
        self.entries.get(field.field_id() as usize)
    }

    /// The same schema again, in memory of its own from `alloc`; costs a copy of each name. Like every
    /// schema it has at most 4294967295 fields.
    ///
    /// Refused with [`QueryError::Memory`] alone.
    pub fn clone(&self, alloc: Global) -> Result<Schema, QueryError>
        ensures ok { IfOk result (λ schema. schema ≡ self.now) }
        ensures few { IfOk result (λ schema. length schema ≤ u32.MAX) }
        ensures refused { IsOkUnless result QueryError.Memory }
    {
        let mut entries = Vec::with_capacity(alloc, self.entries.len())?;
        // the entries before this one are copied
        for entry in &self.entries {
            entries.push(entry.clone(alloc)?)?;
        }
        Ok(Schema { entries })
    }
}
