//! Why a line has no meaning.

ghost use Rattle.std.specs.Prelude.{◌≡◌};
ghost use Rattle.qm_script.specs.declared.unparsed.Unparsed.TheVariants.{Memory};

use std::alloc::{AllocError, AllocFailed};

/// Why a line could not be read.
#[derive(Clone, Copy, Debug, PartialEq, Eq)]
pub enum Unparsed {
    /// There was no memory for what the line spells.
    Memory,
    /// The line isn't UTF-8, or doesn't fit the language.
    NotUnderstood,
}

impl From<AllocError> for Unparsed {
    ghost from_gives = { λ _ e. e ≡ Memory };

    fn from(_error: AllocError) -> Unparsed {
        Unparsed::Memory
    }
}

impl<T: Drop> From<AllocFailed<T>> for Unparsed {
    ghost from_gives = { λ _ e. e ≡ Memory };

    fn from(_error: AllocFailed<T>) -> Unparsed {
        Unparsed::Memory
    }
}
