//! Reading the numbers of a query: slops and boosts.

ghost use Rattle.std.specs.Prelude.{◌≡◌};

use crate::characters::Characters;
use crate::parse_error::{ParseError, refuse};
use crate::refusal_kind::RefusalKind;

// No number is told apart from this one, or from one above it.
const MOST: u64 = 4294967296;

impl Characters<'_> {
    ghost use Rattle.qm_parser.specs.Cursor.{characters_left};
    ghost use Rattle.qm_parser.specs.Numbers.{boost_at, digits_at, factor_at, number_at, slop_at};
    ghost use Rattle.qm_parser.specs.Reading.{Reads};

    /// The boost that follows, or that the token ends.
    #[tactic(auto, unfolding(crate::specs::Numbers::boost_at))]
    pub(crate) fn boost(&mut self) -> Result<Option<u32>, ParseError>
        ensures { Reads (λ b. b) result (characters_left self.new) (boost_at (characters_left self.old)) }
    {
        match self.take_sign('^') {
            Some(place) => Ok(Some(self.factor(place)?)),
            None => {
                self.end()?;
                Ok(None)
            }
        }
    }

    // The number behind a `^` at this place, at which the token ends.
    #[tactic(auto, unfolding(crate::specs::Numbers::factor_at))]
    fn factor(&mut self, place: usize) -> Result<u32, ParseError>
        ensures { Reads (λ n. n) result (characters_left self.new) (factor_at place (characters_left self.old)) }
    {
        let Some(number) = self.number() else {
            return refuse(RefusalKind::BoostWithoutNumber, place);
        };
        if !self.ends() {
            return refuse(RefusalKind::BoostNotWhole, place);
        }
        if number < 2147483648 {
            return Ok(number as u32);
        }
        refuse(RefusalKind::BoostTooGreat, place)
    }

    /// The number behind a `~` at this place.
    #[tactic(auto, unfolding(crate::specs::Numbers::slop_at))]
    pub(crate) fn slop(&mut self, place: usize) -> Result<u32, ParseError>
        ensures { Reads (λ n. n) result (characters_left self.new) (slop_at place (characters_left self.old)) }
    {
        let Some(number) = self.number() else {
            return refuse(RefusalKind::SlopWithoutNumber, place);
        };
        if number < MOST {
            return Ok(number as u32);
        }
        refuse(RefusalKind::SlopTooGreat, place)
    }

    // The number that follows, or 4294967296 where it is above that; none where no digit follows.
    #[tactic(auto, unfolding(crate::specs::Numbers::number_at))]
    fn number(&mut self) -> Option<u64>
        ensures { (result, characters_left self.new) ≡ number_at (characters_left self.old) }
    {
        match self.peek() {
            Some(c) if c.letter.is_ascii_digit() => Some(self.digits()),
            _ => None,
        }
    }

    // The number of the digits that follow, or 4294967296 where it is above that.
    fn digits(&mut self) -> u64
        ensures { (result, characters_left self.new) ≡ digits_at 0 (characters_left self.old) }
    {
        let mut number = 0;
        // the digits that follow, behind those that made the number, are the digits
        while let Some(c) = self.peek() {
            if !c.letter.is_ascii_digit() {
                return number;
            }
            number = (number * 10 + (c.letter as u64 - '0' as u64)).min(MOST);
            self.skip();
        }
        number
    }
}
