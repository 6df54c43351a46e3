//! The tokens of a text.

ghost use Rattle.std.specs.Prelude.{◌≡◌, map};
ghost use Rattle.qm_parser.specs.Reading.{Gives};
ghost use Rattle.qm_parser.specs.Tokens.{tokens};
ghost use Rattle.qm_parser.specs.Views.{token_of};

use crate::characters::Characters;
use crate::parse_error::ParseError;
use crate::place_characters::Character;
use crate::token::ReadToken;
use std::alloc::Global;

/// The tokens of these characters, each with its place.
pub(crate) fn cut_tokens(
    alloc: Global,
    characters: &[Character],
) -> Result<Vec<ReadToken>, ParseError>
    ensures { Gives (λ v. map token_of v.items) result (tokens characters.now) }
{
    let mut left = Characters::new(characters);
    let mut cut = Vec::new(alloc);
    // the tokens so far, and those that follow, are the tokens
    for _ in 0..characters.len() {
        let Some(c) = left.peek() else {
            return Ok(cut);
        };
        if c.letter.is_whitespace() {
            left.skip();
        } else {
            let piece = left.piece(alloc, c)?;
            cut.push(ReadToken {
                piece,
                place: c.place,
            })?;
        }
    }
    Ok(cut)
}
