//! The bytes of a term's text.
//!
//! Fourteen bytes of a text stand in the term itself, so most words take no memory of their own.

ghost use Rattle.std.specs.Prelude.{◌≡◌, ◌≤◌, IfOk, IsOkUnless, length};
ghost use Rattle.qm_schema.specs.TermBytes.{IsWithin, bytes_of};

use crate::error::QueryError;
use std::alloc::Global;
use std::marker::Model;

/// How many bytes a term holds in itself: with what a term is besides, as many as three words of the machine take.
const SHORT: usize = 14;

#[derive(Debug, Drop)]
enum Text {
    Short { len: u8, bytes: [u8; SHORT] },
    Long(Box<Vec<u8>>),
}

/// The bytes of a term's text. Those of most words stand in the term, and take no memory of their own.
///
/// Contracts see the list of them.
#[derive(Debug, Drop)]
pub(super) struct TermBytes {
    text: Text,
}

impl Model for TermBytes {
    ghost use Rattle.std.specs.Prelude.{ℕ, List};
    ghost use Rattle.std.specs.Coded.{coded_list, coded_ℕ};
    ghost use Rattle.qm_schema.specs.TermBytes.{IsWithin, bytes_of};

    ghost Value = { List ℕ };

    ghost coded = { coded_list coded_ℕ };

    ghost view = { λ t. bytes_of t.text };

    ghost invariant = { λ t. IsWithin t.text };
}

impl TermBytes {
    // A copy of these bytes.
    pub(super) fn from_slice(alloc: Global, text: &[u8]) -> Result<TermBytes, QueryError>
        ensures ok { IfOk result (λ bytes. bytes ≡ text.now) }
        ensures refused { IsOkUnless result QueryError.Memory }
    {
        let text = if text.len() <= SHORT {
            short(text)
        } else {
            Text::Long(Box::new(alloc, Vec::from_slice(alloc, text)?)?)
        };
        Ok(TermBytes { text })
    }

    #[inline]
    pub(super) fn as_slice(&self) -> &[u8]
        ensures { result.now ≡ self.now }
    {
        match &self.text {
            Text::Short { len, bytes } => &bytes[..*len as usize],
            Text::Long(bytes) => bytes.as_slice(),
        }
    }
}

// A short text.
fn short(text: &[u8]) -> Text
    requires { length text.now ≤ 14 }
    ensures bytes { bytes_of result ≡ text.now }
    ensures within { IsWithin result }
{
    let mut bytes = [0; SHORT];
    bytes[..text.len()].copy_from_slice(text);
    Text::Short {
        len: text.len() as u8,
        bytes,
    }
}
