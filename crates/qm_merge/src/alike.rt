//! Whether two segments may be made one.

ghost use Rattle.std.specs.Prelude.{◌≡◌, ◌↔◌, IsTrue};
ghost use Rattle.qm_merge.specs.Merging.{AreAlike};

use qm_postings::SegmentReader;
use qm_schema::{Field, FieldEntry, IndexRecordOption, Schema};

// Whether they have the same fields, and blocks of the same length.
pub(crate) fn are_alike(first: &SegmentReader, second: &SegmentReader) -> bool
    ensures { IsTrue result ↔ AreAlike first.now.segment second.now.segment }
{
    first.block_len() == second.block_len() && are_same_fields(first.schema(), second.schema())
}

// Whether two schemas have the same fields in the same order.
fn are_same_fields(first: &Schema, second: &Schema) -> bool
    ensures { IsTrue result ↔ (first.now ≡ second.now) }
{
    let count = first.field_count();
    if count != second.field_count() {
        return false;
    }
    // those before it are the same
    for id in 0..count {
        let field = Field::from_field_id(id);
        let (Some(one), Some(other)) = (first.get_field_entry(field), second.get_field_entry(field))
        else {
            return false;
        };
        if !is_same_field(one, other) {
            return false;
        }
    }
    true
}

fn is_same_field(first: &FieldEntry, second: &FieldEntry) -> bool
    ensures { IsTrue result ↔ (first.now ≡ second.now) }
{
    first.name() == second.name()
        && first.index_record_option() == second.index_record_option()
        && first.has_fieldnorms() == second.has_fieldnorms()
}
