//! The one field of the documents, and its words.

ghost use Rattle.std.specs.Prelude.{◌≡◌, IfOk, IsErrOf, IsOkUnless, ◌↔◌};
ghost use Rattle.std.specs.Prelude.{IsUtf8};
ghost use Rattle.birchagain.specs.Body.{body_field, body_term};

use crate::refusal::Refusal;
use qm_schema::{Field, QueryError, Term};
use std::alloc::Global;

/// The number of the one field that documents have.
const BODY: u32 = 0;

/// The field of the documents' words.
pub(crate) fn body() -> Field
    ensures { result ≡ body_field }
{
    Field::from_field_id(BODY)
}

/// A word as a term of that field. `Memory` is its only refusal.
pub(crate) fn body_term(alloc: Global, word: &str) -> Result<Term, QueryError>
    ensures term { IfOk result (λ term. term ≡ body_term word.now) }
    ensures refused { IsOkUnless result QueryError.Memory }
{
    Term::from_field_text(alloc, body(), word)
}

/// The text of some bytes, which are UTF-8.
pub(crate) fn text_of(bytes: &[u8]) -> Result<&str, Refusal>
    ensures text { IfOk result (λ text. text.now ≡ bytes.now) }
    ensures not_text { IsErrOf result Refusal.NotText ↔ ¬ IsUtf8 bytes.now }
    ensures refused { IsOkUnless result Refusal.NotText }
{
    match str::from_utf8(bytes) {
        Ok(text) => Ok(text),
        Err(_) => Err(Refusal::NotText),
    }
}
