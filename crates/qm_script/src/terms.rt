//! The words of a query as terms of the one field that a script's documents have.

ghost use Rattle.std.specs.Prelude.{◌≡◌, IfOk, IsOkUnless, map};
ghost use Rattle.birchagain.specs.Body.{body_field, body_term};
ghost use Rattle.qm_script.specs.Spelled.{texts};

use qm_schema::{Field, QueryError, Term};
use std::alloc::Global;

/// The number of the one field that a script's documents have.
const BODY: u32 = 0;

/// The field of a script's documents.
pub(crate) fn body() -> Field
    ensures { result ≡ body_field }
{
    Field::from_field_id(BODY)
}

/// The word as a term. `Memory` is its only refusal.
pub(crate) fn word_term(alloc: Global, word: &str) -> Result<Term, QueryError>
    ensures term { IfOk result (λ term. term ≡ body_term word.now) }
    ensures refused { IsOkUnless result QueryError.Memory }
{
    Term::from_field_text(alloc, body(), word)
}

/// Each word as a term. `Memory` is its only refusal.
pub(crate) fn word_terms(alloc: Global, words: &[String]) -> Result<Vec<Term>, QueryError>
    ensures terms { IfOk result (λ terms. terms.items ≡ map body_term (texts words.now)) }
    ensures refused { IsOkUnless result QueryError.Memory }
{
    let mut terms = Vec::with_capacity(alloc, words.len())?;
    // the words before this one are terms
    for word in words {
        terms.push(word_term(alloc, word.as_str())?)?;
    }
    Ok(terms)
}
