//! What is known of one field.

ghost use Rattle.std.specs.Prelude.{◌≡◌, is_some, IfOk, IsOkUnless};

use crate::error::QueryError;
use crate::schema::IndexRecordOption;
use std::alloc::Global;
use std::marker::Model;

/// What is known of one field of a schema: its name, what its postings keep, and whether it keeps a
/// length for each document. Each call takes constant time.
///
/// Contracts see it as these three.
#[derive(Debug, Drop)]
pub struct FieldEntry {
    name: String,
    indexed: Option<IndexRecordOption>,
    lengths: bool,
}

impl Model for FieldEntry {
    ghost use Rattle.std.specs.String.{string_bytes};
    ghost use Rattle.qm_schema.specs.Schema.{FieldFacts};

    ghost Value = { FieldFacts };

    ghost view = { λ f. record { name = string_bytes f.name; indexed = f.indexed; lengths = f.lengths } };
}

impl FieldEntry {
    pub(super) fn new(
        alloc: Global,
        name: &str,
        indexed: Option<IndexRecordOption>,
        lengths: bool,
    ) -> Result<FieldEntry, QueryError>
        ensures ok { IfOk result (λ entry. entry ≡ record { name = name.now; indexed = indexed; lengths = lengths }) }
        ensures refused { IsOkUnless result QueryError.Memory }
    {
        let name = String::from_str(alloc, name)?;
        Ok(FieldEntry {
            name,
            indexed,
            lengths,
        })
    }

    /// The field's name.
    pub fn name(&self) -> &str
        ensures { result.now ≡ self.now.name }
    {
        self.name.as_str()
    }

    /// Whether the field has postings, so that terms can be looked for in it.
    pub fn is_indexed(&self) -> bool
        ensures { result ≡ is_some self.now.indexed }
    {
        self.indexed.is_some()
    }

    /// What the field's postings keep, and `None` where the field isn't indexed.
    pub fn index_record_option(&self) -> Option<IndexRecordOption>
        ensures { result ≡ self.now.indexed }
    {
        self.indexed
    }

    /// Whether the field keeps a length for each document.
    pub fn has_fieldnorms(&self) -> bool
        ensures { result ≡ self.now.lengths }
    {
        self.lengths
    }

    pub(super) fn clone(&self, alloc: Global) -> Result<FieldEntry, QueryError>
        ensures ok { IfOk result (λ entry. entry ≡ self.now) }
        ensures refused { IsOkUnless result QueryError.Memory }
    {
        FieldEntry::new(alloc, self.name(), self.indexed, self.lengths)
    }
}
