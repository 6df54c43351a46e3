//! The fields of a schema as bytes.

ghost use Rattle.std.specs.Prelude.{◌≡◌, ◌≤◌, ◌++◌, All, OnOk, length, option_map};
ghost use Rattle.qm_store.specs.Fields.{IsField, field_at, field_bytes, flag_by, kept_by, kept_byte, name_at, said_at, schema_at, schema_bytes};
ghost use Rattle.qm_store.specs.Pieces.{GivesSome};

use crate::byte_parts::{push_bytes, push_small, read_bytes, read_small};
use crate::store_error::StoreError;
use qm_schema::{Field, FieldEntry, IndexRecordOption, Schema};
use std::alloc::{AllocError, Global};

// Adds how many fields a schema has, and these.
#[tactic(auto, unfolding(crate::specs::Fields::schema_bytes))]
pub(crate) fn push_schema(out: &mut Vec<u8>, schema: &Schema) -> Result<(), AllocError>
    ensures added { OnOk result (out.new.items ≡ out.old.items ++ schema_bytes schema.now) }
    ensures fields { OnOk result (All IsField schema.now) }
    ensures few { length schema.now ≤ u32.MAX }
{
    let count = schema.field_count();
    push_small(out, count)?;
    // those before it are there
    for id in 0..count {
        if let Some(entry) = schema.get_field_entry(Field::from_field_id(id)) {
            push_field(out, entry)?;
        }
    }
    Ok(())
}

fn push_field(out: &mut Vec<u8>, entry: &FieldEntry) -> Result<(), AllocError>
    ensures added { OnOk result (out.new.items ≡ out.old.items ++ field_bytes entry.now) }
    ensures field { IsField entry.now }
{
    push_bytes(out, entry.name().as_bytes())?;
    out.push(kept_byte(entry.index_record_option()))?;
    out.push(u8::from(entry.has_fieldnorms()))?;
    Ok(())
}

// What postings keep, as a byte.
fn kept_byte(kept: Option<IndexRecordOption>) -> u8
    ensures { result ≡ kept_byte kept }
{
    match kept {
        None => 0,
        Some(IndexRecordOption::Basic) => 1,
        Some(IndexRecordOption::WithFreqs) => 2,
        Some(IndexRecordOption::WithFreqsAndPositions) => 3,
    }
}

// The schema that some bytes begin with, and the bytes behind it.
#[tactic(auto, unfolding(crate::specs::Fields::schema_at))]
pub(crate) fn read_schema(alloc: Global, bytes: &[u8]) -> Result<(Schema, &[u8]), StoreError>
    ensures { GivesSome (λ r. (r.0, r.1.now)) result (schema_at bytes.now) }
{
    let Some((count, behind)) = read_small(bytes) else {
        return Err(StoreError::Damaged);
    };
    let mut fields = Schema::builder(alloc);
    let mut rest = behind;
    // what is read and what is left make all
    for place in 0..count {
        let Some((name, kept, has_lengths, left)) = read_field(rest) else {
            return Err(StoreError::Damaged);
        };
        match fields.add_text_field(name, kept, has_lengths) {
            Ok(_) => rest = left,
            Err(_) => return Err(StoreError::Memory),
        }
    }
    Ok((fields.build(), rest))
}

// The name of a field, what its postings keep, whether it keeps lengths, and the bytes behind it; none where the bytes
// begin with no field.
#[tactic(auto, unfolding(crate::specs::Fields::field_at))]
fn read_field(bytes: &[u8]) -> Option<(&str, Option<IndexRecordOption>, bool, &[u8])>
    ensures { option_map (λ r. (record { name = r.0.now; indexed = r.1; lengths = r.2 }, r.3.now)) result ≡ field_at bytes.now }
{
    let (name, rest) = read_name(bytes)?;
    let (kept, rest) = read_kept(rest)?;
    let (has_lengths, rest) = read_flag(rest)?;
    Some((name, kept, has_lengths, rest))
}

fn read_name(bytes: &[u8]) -> Option<(&str, &[u8])>
    ensures { option_map (λ r. (r.0.now, r.1.now)) result ≡ name_at bytes.now }
{
    let (name, rest) = read_bytes(bytes)?;
    match str::from_utf8(name) {
        Ok(name) => Some((name, rest)),
        Err(_) => None,
    }
}

// What the first byte says that postings keep, and the bytes behind it.
fn read_kept(bytes: &[u8]) -> Option<(Option<IndexRecordOption>, &[u8])>
    ensures { option_map (λ r. (r.0, r.1.now)) result ≡ said_at kept_by bytes.now }
{
    let (byte, rest) = bytes.split_first()?;
    let kept = match *byte {
        0 => None,
        1 => Some(IndexRecordOption::Basic),
        2 => Some(IndexRecordOption::WithFreqs),
        3 => Some(IndexRecordOption::WithFreqsAndPositions),
        _ => return None,
    };
    Some((kept, rest))
}

// What the first byte says, yes or no, and the bytes behind it.
fn read_flag(bytes: &[u8]) -> Option<(bool, &[u8])>
    ensures { option_map (λ r. (r.0, r.1.now)) result ≡ said_at flag_by bytes.now }
{
    let (byte, rest) = bytes.split_first()?;
    match *byte {
        0 => Some((false, rest)),
        1 => Some((true, rest)),
        _ => None,
    }
}
