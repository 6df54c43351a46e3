//! The characters of a text, with their places.

ghost use Rattle.std.specs.Prelude.{◌≡◌, IfOk};
ghost use Rattle.qm_parser.specs.Characters.{placed_characters};

use std::alloc::{AllocError, Global};

/// A character of a text, and the place of its first byte.
#[derive(Clone, Copy)]
pub(crate) struct Character {
    pub letter: char,
    pub place: usize,
}

/// The characters of the text, each with its place.
pub(crate) fn place_characters(alloc: Global, text: &str) -> Result<Vec<Character>, AllocError>
    ensures { IfOk result (λ placed. placed.items ≡ placed_characters text.now) }
{
    let mut placed = Vec::new(alloc);
    // the characters so far are placed
    for (place, letter) in text.char_indices() {
        placed.push(Character { letter, place })?;
    }
    Ok(placed)
}
