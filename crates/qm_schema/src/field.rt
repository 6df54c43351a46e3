//! A field of a schema, by its number.

ghost use Rattle.std.specs.Prelude.{◌≡◌};

use std::marker::Model;

/// A field, by its number: its place in the schema, from 0 up. It says nothing of whether a schema
/// has such a field.
///
/// Contracts see it as that number.
#[derive(Clone, Copy, Debug, PartialEq, Eq, Hash)]
pub struct Field {
    id: u32,
}

impl Model for Field {
    ghost use Rattle.std.specs.Prelude.{ℕ};

    ghost Value = { ℕ };

    ghost view = { λ f. f.id };

    ghost inverse = { λ n. record { id = n } };
}

impl Field {
    /// The field of that number, in constant time.
    pub fn from_field_id(field_id: u32) -> Field
        ensures { result ≡ field_id }
    {
        Field { id: field_id }
    }

    /// The field's number, in constant time.
    pub fn field_id(self) -> u32
        ensures { result ≡ self }
    {
        self.id
    }
}
