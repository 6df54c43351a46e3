//! What is wanted of a stored segment.

ghost use Rattle.std.specs.Prelude.{◌≡◌};
ghost use Rattle.qm_store.specs.Wanted.{is_meant, wanted_cmp};

use crate::dictionary_block::is_term;
use qm_schema::{Field, Term};
use std::cmp::Ordering;

/// What is wanted of a stored segment: a term, or all terms that begin with it. Such are ordered by their terms, and all that
/// begin with a term come before that term alone.
#[derive(Debug, Drop)]
pub struct Wanted {
    /// The term.
    pub term: Term,
    /// Whether all terms of its field are wanted whose bytes begin with its own, of which it is one itself.
    pub is_beginning: bool,
}

impl Wanted {
    // Whether a text of a field is a term that is meant.
    pub(crate) fn means(&self, field: Field, text: &[u8]) -> bool
        ensures { result ≡ is_meant self.now (record { field = field; bytes = text.now }) }
    {
        if !self.is_beginning {
            return is_term(field, text, &self.term);
        }
        if field == self.term.field() {
            text.starts_with(self.term.serialized_value_bytes())
        } else {
            false
        }
    }
}

impl PartialEq for Wanted {
    ghost use Rattle.std.specs.Ordering.{eq_by_cmp};
    ghost use Rattle.std.specs.Cmp.{partial_equiv_from_equiv};
    ghost use Rattle.qm_store.specs.Wanted.{wanted_cmp, wanted_eq_laws};

    ghost eq = { eq_by_cmp wanted_cmp };

    ghost laws = { partial_equiv_from_equiv wanted_eq_laws };

    fn eq(&self, other: &Wanted) -> bool {
        compare(self, other) == Ordering::Equal
    }
}

impl Eq for Wanted {
    ghost use Rattle.qm_store.specs.Wanted.{wanted_eq_laws};

    ghost laws = { wanted_eq_laws };
}

impl PartialOrd for Wanted {
    ghost use Rattle.std.specs.Ordering.{as_partial_cmp};
    ghost use Rattle.std.specs.Cmp.{partial_order_from_total};
    ghost use Rattle.qm_store.specs.Wanted.{wanted_cmp, wanted_cmp_total};

    ghost partial_cmp = { as_partial_cmp wanted_cmp };

    ghost laws = { partial_order_from_total wanted_cmp_total };

    fn partial_cmp(&self, other: &Wanted) -> Option<Ordering> {
        Some(compare(self, other))
    }
}

impl Ord for Wanted {
    ghost use Rattle.std.proofs.Common.{refl};
    ghost use Rattle.qm_store.specs.Wanted.{wanted_cmp, wanted_cmp_total};

    ghost cmp = { wanted_cmp };

    ghost total = { wanted_cmp_total };

    ghost matches_partial_cmp = { λ x y. refl };

    ghost matches_eq = { λ x y. refl };

    fn cmp(&self, other: &Wanted) -> Ordering {
        compare(self, other)
    }
}

// How something that is wanted stands to another.
#[tactic(auto, using(crate::specs::Wanted::wanted_cmp_parts))]
fn compare(one: &Wanted, other: &Wanted) -> Ordering
    ensures { result ≡ wanted_cmp one.now other.now }
{
    match one.term.cmp(&other.term) {
        Ordering::Equal => (!one.is_beginning).cmp(&!other.is_beginning),
        by_term => by_term,
    }
}
