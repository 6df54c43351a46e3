//! What terms weigh, as bytes.

ghost use Rattle.std.specs.Prelude.{◌≡◌, ◌<◌, ◌^◌, ◌++◌, All, IfOk, IsOkUnless, OnOk, length, map, option_map};
ghost use Rattle.std.specs.List.Sorted.{IsStrictlySortedBy};
ghost use Rattle.qm_schema.specs.Term.{term_cmp};
ghost use Rattle.qm_store.specs.Pieces.{GivesSome};
ghost use Rattle.qm_store.specs.Weights.{IsWeight, is_last, pair_at, weights_at, weights_bytes};

use crate::numbers::{push_number, read_number};
use crate::store_error::StoreError;
use crate::term_bytes::{push_term, read_term};
use crate::words::{push_word, read_word};
use qm_schema::{Field, Term};
use std::alloc::{AllocError, Global};
use std::cmp::Ordering;
use std::collections::BTreeMap;

// Adds how many terms have a weight, and each of them with its weight.
#[tactic(auto, unfolding(crate::specs::Weights::weights_bytes))]
pub(crate) fn push_weights(
    out: &mut Vec<u8>,
    weights: &BTreeMap<Term, u64>,
) -> Result<(), AllocError>
    ensures added { OnOk result (out.new.items ≡ out.old.items ++ weights_bytes weights.now.entries) }
    ensures weights { OnOk result (All IsWeight weights.now.entries) }
    ensures ascending { IsStrictlySortedBy term_cmp (map (λ w. w.0) weights.now.entries) }
    ensures few { length weights.now.entries < 128 ^ 9 }
{
    push_number(out, weights.len() as u64)?;
    // those before it are there
    for (term, weight) in weights {
        push_term(out, term)?;
        push_word(out, *weight)?;
    }
    Ok(())
}

// The weights that some bytes begin with, and the bytes behind them.
#[tactic(auto, unfolding(crate::specs::Weights::weights_at))]
pub(crate) fn read_weights(
    alloc: Global,
    bytes: &[u8],
) -> Result<(BTreeMap<Term, u64>, &[u8]), StoreError>
    ensures { GivesSome (λ r. (r.0.entries, r.1.now)) result (weights_at bytes.now) }
{
    let Some((count, behind)) = read_number(bytes) else {
        return Err(StoreError::Damaged);
    };
    let mut weights = BTreeMap::new(alloc);
    let mut rest = behind;
    // what is read and what is left make all
    for _ in 0..count {
        let (term, weight, left) = read_weight(alloc, rest)?;
        if !is_last(&weights, &term) {
            return Err(StoreError::Damaged);
        }
        weights.insert(term, weight)?;
        rest = left;
    }
    Ok((weights, rest))
}

// The term that some bytes begin with, its weight, and the bytes behind both.
#[tactic(auto, unfolding(crate::specs::Weights::pair_at))]
fn read_weight(alloc: Global, bytes: &[u8]) -> Result<(Term, u64, &[u8]), StoreError>
    ensures { GivesSome (λ r. ((r.0, r.1), r.2.now)) result (pair_at bytes.now) }
{
    let Some((field, text, rest)) = read_term(bytes) else {
        return Err(StoreError::Damaged);
    };
    let Some((weight, rest)) = read_word(rest) else {
        return Err(StoreError::Damaged);
    };
    match Term::from_field_bytes(alloc, field, text) {
        Ok(term) => Ok((term, weight, rest)),
        Err(_) => Err(StoreError::Memory),
    }
}

// Whether a term stands behind all that have a weight.
fn is_last(weights: &BTreeMap<Term, u64>, term: &Term) -> bool
    ensures { result ≡ is_last weights.now.entries term.now }
{
    match weights.last_key_value() {
        None => true,
        Some((last, _)) => last.cmp(term) == Ordering::Less,
    }
}
