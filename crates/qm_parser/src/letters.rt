//! Reading the letters of a word, or of the text between quotes.

ghost use Rattle.std.specs.Prelude.{◌≡◌, string_bytes, None};
ghost use Rattle.qm_parser.specs.Letters.{is_inner_sign, is_letter, is_sign, letters_at, turn};
ghost use Rattle.qm_parser.specs.Reading.{Gives};

use crate::characters::Characters;
use crate::parse_error::{ParseError, refuse};
use crate::place_characters::Character;
use crate::refusal_kind::RefusalKind;
use std::alloc::Global;

/// What to do with a character.
#[derive(Clone, Copy)]
pub(crate) enum Turn {
    /// It is a letter.
    Take,
    /// It is a `\` before a sign.
    Escape,
    /// It is no letter: the letters end before it.
    Stop,
}

impl Characters<'_> {
    ghost use Rattle.qm_parser.specs.Cursor.{characters_left};
    ghost use Rattle.qm_parser.specs.Reading.{Reads};

    /// The letters that follow, up to what is none; between quotes all is a letter but a quote. A `\` is
    /// left out, and the sign behind it is a letter.
    pub(crate) fn letters(&mut self, alloc: Global, is_quoted: bool) -> Result<String, ParseError>
        ensures { Reads string_bytes result (characters_left self.new) (letters_at is_quoted None (characters_left self.old)) }
    {
        let mut letters = String::new(alloc);
        let mut escape = None;
        // the letters so far, and those that follow, are the letters
        while let Some(c) = self.peek() {
            match read_turn(is_quoted, escape, c)? {
                Turn::Stop => return Ok(letters),
                Turn::Escape => escape = Some(c.place),
                Turn::Take => {
                    letters.push(c.letter)?;
                    escape = None;
                }
            }
            self.skip();
        }
        match escape {
            Some(place) => refuse(RefusalKind::StrayEscape, place),
            None => Ok(letters),
        }
    }
}

// What to do with a character, behind a `\` at this place or behind none.
#[tactic(auto, unfolding(crate::specs::Letters::turn))]
fn read_turn(is_quoted: bool, escape: Option<usize>, c: Character) -> Result<Turn, ParseError>
    ensures { Gives (λ t. t) result (turn is_quoted escape c.letter) }
{
    match escape {
        Some(_) if is_sign(c.letter) => Ok(Turn::Take),
        Some(place) => refuse(RefusalKind::StrayEscape, place),
        None if c.letter == '\\' => Ok(Turn::Escape),
        None if is_letter(is_quoted, c.letter) => Ok(Turn::Take),
        None => Ok(Turn::Stop),
    }
}

// Whether a character is a letter: between quotes, or else in a word.
fn is_letter(is_quoted: bool, letter: char) -> bool
    ensures { result ≡ is_letter is_quoted letter }
{
    if is_quoted {
        return letter != '"';
    }
    !(letter.is_whitespace() | is_inner_sign(letter))
}

// Whether a character is a sign, before which a `\` may stand.
fn is_sign(letter: char) -> bool
    ensures { result ≡ is_sign letter }
{
    is_inner_sign(letter)
        | (letter == '+')
        | (letter == '-')
        | (letter == '/')
        | (letter == '<')
        | (letter == '>')
}

// Whether a character is a sign inside a word too.
fn is_inner_sign(letter: char) -> bool
    ensures { result ≡ is_inner_sign letter }
{
    (letter == '\\')
        | (letter == '"')
        | (letter == '(')
        | (letter == ')')
        | (letter == '*')
        | (letter == '?')
        | (letter == ':')
        | (letter == '^')
        | (letter == '~')
        | (letter == '[')
        | (letter == ']')
        | (letter == '{')
        | (letter == '}')
}
