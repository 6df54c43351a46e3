//! A block of the dictionary.

ghost use Rattle.std.specs.Prelude.{◌≡◌, option_map};
ghost use Rattle.std.specs.Ordering.{eq_by_cmp};
ghost use Rattle.qm_schema.specs.Term.{term_cmp};
ghost use Rattle.qm_store.specs.Entries.{lent_parts};
ghost use Rattle.qm_store.specs.Dictionary.{block_at, row_with};

use crate::entry::{PartRef, read_entry};
use crate::numbers::read_number;
use qm_schema::{Field, Term};

// Where a block says that the row of a term stands: `None` where the bytes are no block, and none in it where it has no
// entry of the term.
pub(crate) fn find_row<'a>(
    term: &Term,
    block: &'a [u8],
) -> Option<Option<(PartRef<'a>, PartRef<'a>)>>
    ensures { option_map (option_map lent_parts) result ≡ option_map (row_with term.now) (block_at block.now) }
{
    let Some((count, mut rest)) = read_number(block) else {
        return None;
    };
    let mut found = None;
    // what was found, or else is found among those that are left, is what is found
    for _ in 0..count {
        let Some((entry, behind)) = read_entry(rest) else {
            return None;
        };
        if found.is_none() && is_term(entry.field, entry.text, term) {
            found = Some(entry.parts);
        }
        rest = behind;
    }
    if rest.is_empty() { Some(found) } else { None }
}

// Whether a term is this text of a field.
#[tactic(auto, using(qm_schema::specs::Term::term_parts))]
pub(crate) fn is_term(field: Field, text: &[u8], term: &Term) -> bool
    ensures { result ≡ eq_by_cmp term_cmp (record { field = field; bytes = text.now }) term.now }
{
    if field == term.field() {
        text == term.serialized_value_bytes()
    } else {
        false
    }
}
