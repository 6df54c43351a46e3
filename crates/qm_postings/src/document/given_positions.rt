//! The positions of a term that a document was given.

ghost use Rattle.std.specs.Prelude.{◌≡◌, ◌∷◌, ◌++◌, [], OnOk, IsOkUnless};

use qm_schema::QueryError;
use std::alloc::Global;
use std::marker::Model;
use std::slice;

/// The positions of a term. Most words stand once in a text, and one position takes no memory of its own.
///
/// Contracts see the list of them.
#[derive(Debug, Drop)]
pub(crate) struct GivenPositions {
    only: Option<u32>,
    // all of them, where there is not just the one
    all: Vec<u32>,
}

impl Model for GivenPositions {
    ghost use Rattle.std.specs.Prelude.{ℕ, List, [], ◌∷◌};
    ghost use Rattle.std.specs.Coded.{coded_list, coded_ℕ};
    ghost use Rattle.std.specs.Option.{option_map_or};

    ghost Value = { List ℕ };

    ghost coded = { coded_list coded_ℕ };

    ghost view = { λ p. option_map_or (λ q. q ∷ []) p.only p.all.items };
}

impl GivenPositions {
    // One position. Takes no memory; further ones are taken from `alloc`.
    pub(super) fn one(alloc: Global, position: u32) -> GivenPositions
        ensures { result ≡ position ∷ [] }
    {
        GivenPositions {
            only: Some(position),
            all: Vec::new(alloc),
        }
    }

    // These positions.
    pub(super) fn of(all: Vec<u32>) -> GivenPositions
        ensures { result ≡ all.items }
    {
        GivenPositions { only: None, all }
    }

    #[inline]
    pub(crate) fn as_slice(&self) -> &[u32]
        ensures { result.now ≡ self.now }
    {
        match &self.only {
            Some(position) => slice::from_ref(position),
            None => self.all.as_slice(),
        }
    }

    // Adds a position behind the others.
    pub(super) fn push(&mut self, position: u32) -> Result<(), QueryError>
        ensures pushed { OnOk result (self.new ≡ self.old ++ position ∷ []) }
        ensures refused { IsOkUnless result QueryError.Memory }
    {
        match self.only {
            Some(first) => {
                let alloc = *self.all.allocator();
                self.all = Vec::from_slice(alloc, &[first, position])?;
                self.only = None;
            }
            None => self.all.push(position)?,
        }
        Ok(())
    }
}
