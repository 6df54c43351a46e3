//! What queries ask of the fields of their terms.

ghost use Rattle.std.specs.Prelude.{◌≡◌};
ghost use Rattle.qm_query.specs.Fields.{indexes_positions, phrase_field_refusal, term_field_refusal};

use qm_schema::{Field, FieldEntry, QueryError, Schema};

// Why a term, or a prefix alone, can't be looked for in a field; None where it can.
pub(crate) fn term_field_refusal(schema: &Schema, field: Field) -> Option<QueryError>
    ensures { result ≡ term_field_refusal schema.now field }
{
    match schema.get_field_entry(field) {
        Some(entry) => {
            if entry.is_indexed() {
                None
            } else {
                Some(QueryError::NotIndexed)
            }
        }
        None => Some(QueryError::UnknownField),
    }
}

// Why a phrase can't; None where it can.
pub(crate) fn phrase_field_refusal(schema: &Schema, field: Field) -> Option<QueryError>
    ensures { result ≡ phrase_field_refusal schema.now field }
{
    match schema.get_field_entry(field) {
        Some(entry) => {
            if keeps_positions(entry) {
                None
            } else {
                Some(QueryError::NoPositions)
            }
        }
        None => Some(QueryError::UnknownField),
    }
}

// Whether the postings of a field keep positions.
fn keeps_positions(entry: &FieldEntry) -> bool
    ensures { result ≡ indexes_positions entry.now.indexed }
{
    match entry.index_record_option() {
        Some(option) => option.has_positions(),
        None => false,
    }
}
