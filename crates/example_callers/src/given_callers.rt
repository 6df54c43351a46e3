//! What a caller learns of a document that it hands to an index by its terms.

ghost use Rattle.std.specs.Prelude.{◌≡◌, OnErr, OnOk};
ghost use Rattle.example_callers.specs.Placed.{placed_term};
ghost use Rattle.qm_index.specs.Indexed.{indexed, with_document_of};

use qm_index::{GivenDocument, Index};
use qm_schema::{QueryError, Term};
use std::alloc::Global;

/// Adds a document that holds one term, at these positions, and whose field has this length id.
pub fn add_placed_term(
    alloc: Global,
    index: &mut Index,
    term: Term,
    positions: Vec<u32>,
    length: u8,
) -> Result<(), QueryError>
    ensures added { OnOk result (indexed index.new ≡ with_document_of (indexed index.old) (placed_term term positions.items length)) }
    ensures unchanged { OnErr result (indexed index.new ≡ indexed index.old) }
{
    let field = term.field();
    let mut document = GivenDocument::new(alloc);
    document.add_term(term, positions)?;
    document.set_length(field, length)?;
    index.add_given(alloc, document)
}
