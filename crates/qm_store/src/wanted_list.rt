//! Lists of what is wanted.

ghost use Rattle.std.specs.Prelude.{◌≡◌, ◌++◌, IfOk, IsOkUnless, OnOk, map};
ghost use Rattle.std.specs.List.{dedup};
ghost use Rattle.qm_schema.specs.Term.{TermKey};
ghost use Rattle.qm_store.specs.Wanted.{AreApart, is_asked, is_meant, is_wanted};

use crate::store_error::StoreError;
use crate::wanted::Wanted;
use qm_schema::Term;
use std::alloc::{AllocError, Global};

/// What is wanted of terms, and of beginnings, of which all terms are that begin so. They may stand in any order, more than
/// once, and one under another. Costs a step for each, times the logarithm of how many there are, and the list.
///
/// Refused with [`StoreError::Memory`] alone.
pub fn wanted_of(
    alloc: Global,
    terms: Vec<Term>,
    beginnings: Vec<Term>,
) -> Result<Vec<Wanted>, StoreError>
    ensures apart { IfOk result (λ wanted. AreApart wanted.items) }
    ensures asked { IfOk result (λ wanted. (t : TermKey) → is_wanted wanted.items t ≡ is_asked terms.items beginnings.items t) }
    ensures refused { IsOkUnless result StoreError.Memory }
{
    let mut wanted = Vec::new(alloc);
    push_all(&mut wanted, terms, false)?;
    push_all(&mut wanted, beginnings, true)?;
    wanted.sort_unstable();
    leave_out_meant(&mut wanted);
    Ok(wanted)
}

// Adds terms, each alone or with all that begin so.
fn push_all(
    wanted: &mut Vec<Wanted>,
    terms: Vec<Term>,
    is_beginning: bool,
) -> Result<(), AllocError>
    ensures { OnOk result (wanted.new.items ≡ wanted.old.items ++ map (λ t. record { term = t; is_beginning = is_beginning }) terms.items) }
{
    // those before it are added
    for term in terms {
        wanted.push(Wanted { term, is_beginning })?;
    }
    Ok(())
}

// Leaves out what is meant by the last that is left before it.
fn leave_out_meant(wanted: &mut Vec<Wanted>)
    ensures { wanted.new.items ≡ dedup (λ later before. is_meant before later.term) wanted.old.items }
{
    wanted.dedup_by(
        |later, before|
            ensures meant { result ≡ is_meant before.new later.new.term }
            ensures later { later.new ≡ later.old }
            ensures before { before.new ≡ before.old }
        { before.means(later.term.field(), later.term.serialized_value_bytes()) },
    );
}
