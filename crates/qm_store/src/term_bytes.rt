//! Terms as bytes.

ghost use Rattle.std.specs.Prelude.{◌≡◌, ◌++◌, OnOk, option_map};
ghost use Rattle.qm_store.specs.TermBytes.{IsSomeTerm, term_at, term_bytes};

use crate::numbers::{push_number, read_number};
use qm_schema::{Field, Term};
use std::alloc::AllocError;

/// Adds the bytes of a term: the number of its field, how many bytes its text has, and these. Costs a copy of the text.
/// A refused call, for want of memory alone, may have added some of them.
pub fn push_term(out: &mut Vec<u8>, term: &Term) -> Result<(), AllocError>
    ensures added { OnOk result (out.new.items ≡ out.old.items ++ term_bytes term.now) }
    ensures some { OnOk result (IsSomeTerm term.now) }
{
    let text = term.serialized_value_bytes();
    push_number(out, u64::from(term.field().field_id()))?;
    push_number(out, text.len() as u64)?;
    out.extend_from_slice(text)
}

/// The term that some bytes begin with: its field, and the bytes of its text; then the bytes behind it. None where they
/// begin with no term. Whether the text is one, nothing here asks. Takes no memory, and constant time.
pub fn read_term(bytes: &[u8]) -> Option<(Field, &[u8], &[u8])>
    ensures { option_map (λ r. (record { field = r.0; bytes = r.1.now }, r.2.now)) result ≡ term_at bytes.now }
{
    let (field, rest) = read_number(bytes)?;
    if field > u64::from(u32::MAX) {
        return None;
    }
    let (count, rest) = read_number(rest)?;
    if count > rest.len() as u64 {
        return None;
    }
    let (text, rest) = rest.split_at(count as usize);
    Some((Field::from_field_id(field as u32), text, rest))
}
