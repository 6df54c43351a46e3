//! Reading the tokens of a query.

ghost use Rattle.std.specs.Prelude.{◌≡◌, string_bytes};

use crate::characters::{Characters, misplaced};
use crate::parse_error::{ParseError, refuse};
use crate::parsed_query::{ParsedLeaf, Sign};
use crate::place_characters::Character;
use crate::refusal_kind::RefusalKind;
use crate::token::ReadPiece;
use std::alloc::Global;

impl Characters<'_> {
    ghost use Rattle.qm_parser.specs.Cursor.{characters_left};
    ghost use Rattle.qm_parser.specs.Pieces.{behind_name, behind_quote, boosted_leaf, leaf_behind_star, phrase_at, piece_at, plain_word, signed, word_at};
    ghost use Rattle.qm_parser.specs.Reading.{Reads};
    ghost use Rattle.qm_parser.specs.Views.{leaf_of, piece_of};

    /// The token that begins with this character, the next.
    #[tactic(auto, unfolding(crate::specs::Pieces::piece_at))]
    pub(crate) fn piece(&mut self, alloc: Global, c: Character) -> Result<ReadPiece, ParseError>
        ensures { Reads piece_of result (characters_left self.new) (piece_at c (characters_left self.old)) }
    {
        match c.letter {
            '(' => {
                self.skip();
                Ok(ReadPiece::Open)
            }
            ')' => {
                self.skip();
                Ok(ReadPiece::Close(self.boost()?))
            }
            '+' => self.signed(Sign::Must, c.place),
            '-' => self.signed(Sign::MustNot, c.place),
            '"' => self.phrase(alloc, c.place),
            '*' => {
                self.skip();
                self.leaf_behind_star(ParsedLeaf::All, c.place)
            }
            '^' | '~' | '?' | ':' | '/' | '[' | ']' | '{' | '}' | '<' | '>' => {
                refuse(misplaced(c.letter), c.place)
            }
            _ => self.word(alloc, c.place),
        }
    }

    // A sign at this place, which its clause follows at once.
    #[tactic(auto, unfolding(crate::specs::Pieces::signed))]
    fn signed(&mut self, sign: Sign, place: usize) -> Result<ReadPiece, ParseError>
        ensures { Reads piece_of result (characters_left self.new) (signed sign place (characters_left self.old)) }
    {
        self.skip();
        if self.gap_follows() {
            return refuse(RefusalKind::SignWithoutClause, place);
        }
        Ok(ReadPiece::Sign(sign))
    }

    // The phrase whose quote stands at this place.
    #[tactic(auto, unfolding(crate::specs::Pieces::phrase_at))]
    fn phrase(&mut self, alloc: Global, place: usize) -> Result<ReadPiece, ParseError>
        ensures { Reads piece_of result (characters_left self.new) (phrase_at place (characters_left self.old)) }
    {
        self.skip();
        let text = self.letters(alloc, true)?;
        match self.take_sign('"') {
            Some(_) => self.behind_quote(text),
            None => refuse(RefusalKind::OpenQuote, place),
        }
    }

    // What stands behind a phrase: a slop, a star or neither.
    #[tactic(auto, unfolding(crate::specs::Pieces::behind_quote))]
    fn behind_quote(&mut self, text: String) -> Result<ReadPiece, ParseError>
        ensures { Reads piece_of result (characters_left self.new) (behind_quote (string_bytes text) (characters_left self.old)) }
    {
        if let Some(place) = self.take_sign('~') {
            let slop = self.slop(place)?;
            return self.boosted_leaf(ParsedLeaf::Phrase { text, slop });
        }
        match self.take_sign('*') {
            Some(place) => self.leaf_behind_star(ParsedLeaf::PhrasePrefix(text), place),
            None => self.boosted_leaf(ParsedLeaf::Phrase { text, slop: 0 }),
        }
    }

    // The word that begins at this place, the name of a field, or an operator.
    #[tactic(auto, unfolding(crate::specs::Pieces::word_at))]
    fn word(&mut self, alloc: Global, place: usize) -> Result<ReadPiece, ParseError>
        ensures { Reads piece_of result (characters_left self.new) (word_at place (characters_left self.old)) }
    {
        let word = self.letters(alloc, false)?;
        if self.take_sign(':').is_some() {
            return self.behind_name(word, place);
        }
        match self.take_sign('*') {
            Some(star) => self.leaf_behind_star(ParsedLeaf::Prefix(word), star),
            None => self.plain_word(word, place),
        }
    }

    // The name of a field that begins at this place, behind its `:`.
    #[tactic(auto, unfolding(crate::specs::Pieces::behind_name))]
    fn behind_name(&mut self, name: String, place: usize) -> Result<ReadPiece, ParseError>
        ensures { Reads piece_of result (characters_left self.new) (behind_name (string_bytes name) place (characters_left self.old)) }
    {
        if self.begins('*') {
            return refuse(RefusalKind::AnyValue, place);
        }
        if self.gap_follows() {
            return refuse(RefusalKind::FieldWithoutValue, place);
        }
        Ok(ReadPiece::Name(name))
    }

    // A word that begins at this place and has neither a `:` nor a `*` behind it.
    #[tactic(auto, unfolding(crate::specs::Pieces::plain_word))]
    fn plain_word(&mut self, word: String, place: usize) -> Result<ReadPiece, ParseError>
        ensures { Reads piece_of result (characters_left self.new) (plain_word (string_bytes word) place (characters_left self.old)) }
    {
        match word.as_str() {
            "AND" => {
                self.end()?;
                Ok(ReadPiece::And)
            }
            "OR" => {
                self.end()?;
                Ok(ReadPiece::Or)
            }
            "NOT" => {
                self.end()?;
                Ok(ReadPiece::Sign(Sign::MustNot))
            }
            "IN" => refuse(RefusalKind::Set, place),
            _ => self.boosted_leaf(ParsedLeaf::Word(word)),
        }
    }

    // This part of a query, behind a star at this place.
    #[tactic(auto, unfolding(crate::specs::Pieces::leaf_behind_star))]
    fn leaf_behind_star(&mut self, leaf: ParsedLeaf, place: usize) -> Result<ReadPiece, ParseError>
        ensures { Reads piece_of result (characters_left self.new) (leaf_behind_star (leaf_of leaf) place (characters_left self.old)) }
    {
        if !self.is_apart() {
            return refuse(RefusalKind::Wildcard, place);
        }
        self.boosted_leaf(leaf)
    }

    // This part of a query, and the boost behind it.
    #[tactic(auto, unfolding(crate::specs::Pieces::boosted_leaf))]
    fn boosted_leaf(&mut self, leaf: ParsedLeaf) -> Result<ReadPiece, ParseError>
        ensures { Reads piece_of result (characters_left self.new) (boosted_leaf (leaf_of leaf) (characters_left self.old)) }
    {
        let boost = self.boost()?;
        Ok(ReadPiece::Leaf(leaf, boost))
    }
}
