//! The parentheses that are open.

ghost use Rattle.std.specs.Prelude.{◌≡◌, ◌∷◌, [], IfOk, MatchOption, length};

use crate::levels::OpenLevel;
use std::alloc::{AllocError, Global};

/// The levels around the innermost one.
#[derive(Drop)]
pub(crate) struct OuterLevels {
    levels: Vec<OpenLevel>,
}

impl OuterLevels {
    ghost use Rattle.qm_parser.specs.LevelViews.{level_of, outer_of};

    /// None.
    pub(crate) fn new(alloc: Global) -> OuterLevels
        ensures { outer_of result ≡ [] }
    {
        OuterLevels {
            levels: Vec::new(alloc),
        }
    }

    /// How many they are.
    pub(crate) fn len(&self) -> usize
        ensures { result ≡ length (outer_of self.now) }
    {
        self.levels.len()
    }

    /// Puts one inside all of them.
    pub(crate) fn push(&mut self, level: OpenLevel) -> Result<(), AllocError>
        ensures { IfOk result (λ u. outer_of self.new ≡ level_of level ∷ outer_of self.old) }
    {
        self.levels.push(level)?;
        Ok(())
    }

    /// Takes the innermost of them.
    pub(crate) fn pop(&mut self) -> Option<OpenLevel>
        ensures { MatchOption result (outer_of self.old ≡ []) (λ level. outer_of self.old ≡ level_of level ∷ outer_of self.new) }
    {
        self.levels.pop()
    }
}
