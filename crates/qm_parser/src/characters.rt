//! Reading the characters of a text, one after another.

ghost use Rattle.std.specs.Prelude.{◌≡◌, drop};
ghost use Rattle.qm_parser.specs.Signs.{misplaced};

use crate::parse_error::{ParseError, refuse};
use crate::place_characters::Character;
use crate::refusal_kind::RefusalKind;

/// Reads characters, from the first on.
#[derive(Drop)]
pub(crate) struct Characters<'a> {
    characters: &'a [Character],
    next: usize,
}

impl<'a> Characters<'a> {
    ghost use Rattle.qm_parser.specs.Cursor.{characters_left};
    ghost use Rattle.qm_parser.specs.Reading.{Gives};
    ghost use Rattle.qm_parser.specs.Signs.{begins, ends, end_at, first, gap_follows, is_apart, sign_at};

    /// All of these characters.
    pub(crate) fn new(characters: &'a [Character]) -> Characters<'a>
        ensures { characters_left result ≡ characters.now }
    {
        Characters {
            characters,
            next: 0,
        }
    }

    /// The next character, which stays.
    pub(crate) fn peek(&self) -> Option<Character>
        ensures { result ≡ first (characters_left self.now) }
    {
        self.characters.get(self.next).copied()
    }

    /// Goes past the next character.
    pub(crate) fn skip(&mut self)
        ensures { characters_left self.new ≡ drop 1 (characters_left self.old) }
    {
        if self.next < self.characters.len() {
            self.next += 1;
        }
    }

    /// Whether this character is the next.
    pub(crate) fn begins(&self, sign: char) -> bool
        ensures { result ≡ begins sign (characters_left self.now) }
    {
        match self.peek() {
            Some(c) => c.letter == sign,
            None => false,
        }
    }

    /// Goes past this character, where it is the next, and answers its place.
    pub(crate) fn take_sign(&mut self, sign: char) -> Option<usize>
        ensures { (result, characters_left self.new) ≡ sign_at sign (characters_left self.old) }
    {
        match self.peek() {
            Some(c) if c.letter == sign => {
                self.skip();
                Some(c.place)
            }
            _ => None,
        }
    }

    /// Whether no character is left, or white space follows.
    pub(crate) fn gap_follows(&self) -> bool
        ensures { result ≡ gap_follows (characters_left self.now) }
    {
        match self.peek() {
            Some(c) => c.letter.is_whitespace(),
            None => true,
        }
    }

    /// Whether a token may end here: at the end, before white space, and before a `)`.
    pub(crate) fn ends(&self) -> bool
        ensures { result ≡ ends (characters_left self.now) }
    {
        match self.peek() {
            Some(c) => c.letter.is_whitespace() | (c.letter == ')'),
            None => true,
        }
    }

    /// Whether a token may end here, or a boost follows.
    pub(crate) fn is_apart(&self) -> bool
        ensures { result ≡ is_apart (characters_left self.now) }
    {
        self.ends() | self.begins('^')
    }

    /// That a token ends here.
    #[tactic(auto, unfolding(crate::specs::Signs::end_at))]
    pub(crate) fn end(&self) -> Result<(), ParseError>
        ensures { Gives (λ u. u) result (end_at (characters_left self.now)) }
    {
        if self.ends() {
            return Ok(());
        }
        match self.peek() {
            Some(c) => refuse(misplaced(c.letter), c.place),
            None => Ok(()),
        }
    }
}

/// Why this character can't stand where it stands.
pub(crate) fn misplaced(letter: char) -> RefusalKind
    ensures { result ≡ misplaced letter }
{
    match letter {
        '^' => RefusalKind::StrayBoost,
        '~' => RefusalKind::Fuzzy,
        '*' | '?' => RefusalKind::Wildcard,
        ':' => RefusalKind::FieldWithoutName,
        '/' => RefusalKind::Regex,
        '[' | ']' | '{' | '}' | '<' | '>' => RefusalKind::Range,
        _ => RefusalKind::Touching,
    }
}
