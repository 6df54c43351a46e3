//! What a manifest tells, as a case spells it.

use crate::spelled::write_numbers;
use cases::Listing;
use qm_schema::{Field, FieldEntry, IndexRecordOption};
use qm_store::Manifest;

/// Writes how many postings a block has, what most terms weigh, the norms, each field, each other weight, each segment,
/// and the note. Names, texts and the note are spelled byte for byte.
pub fn write_manifest(manifest: &Manifest, text: &mut Listing) {
    write!(text, "blocks {}", manifest.block_len);
    write!(text, " default {} norms ", manifest.default_weight);
    write_numbers(&manifest.norms, text);
    text.word(" fields");
    // the fields before this one are written
    for id in 0..manifest.schema.field_count() {
        if let Some(entry) = manifest.schema.get_field_entry(Field::from_field_id(id)) {
            write_field(entry, text);
        }
    }
    text.word(" weights");
    // the weights before this one are written, each behind its term
    for (term, weight) in &manifest.weights {
        write!(text, " {}:", term.field().field_id());
        write_digits(term.serialized_value_bytes(), text);
        write!(text, ":{weight}");
    }
    text.word(" segments");
    // the segments before this one are written, each with its deletions
    for segment in &manifest.segments {
        write!(text, " {}:{}", segment.key, segment.deletions);
        write!(text, ":{}", segment.deleted);
    }
    text.word(" note ");
    write_digits(&manifest.note, text);
}

// A field: its name, and what its postings keep.
fn write_field(entry: &FieldEntry, text: &mut Listing) {
    text.space();
    write_digits(entry.name().as_bytes(), text);
    let kept = match entry.index_record_option() {
        None => "none",
        Some(IndexRecordOption::Basic) => "basic",
        Some(IndexRecordOption::WithFreqs) => "freqs",
        Some(IndexRecordOption::WithFreqsAndPositions) => "positions",
    };
    write!(text, ":{kept}");
    if entry.has_fieldnorms() {
        text.word("+lengths");
    }
}

// Bytes, one behind the other, and `-` for none.
fn write_digits(bytes: &[u8], text: &mut Listing) {
    if bytes.is_empty() {
        text.word("-");
    }
    // the bytes before this one are written, each as two digits
    for byte in bytes {
        write!(text, "{byte:02x}");
    }
}
