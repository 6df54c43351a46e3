//! Where the parts of a query stand.
//!
//! The tree of a query has no places. They are found again here, without the grammar, in a text that has a tree.

use std::mem;
use std::str::Chars;

// What the next character of a query belongs to.
#[derive(Clone, Copy)]
enum Within {
    // nothing yet
    Gap,
    // a word or a name that begins there, or what stands behind a phrase that does
    Part(usize),
    // the text between the quotes of a phrase that begins there
    Quotes(usize),
    // a boost
    Boost,
}

/// Tells the places of a query's words, phrases, stars and names of fields, in the order in which they stand: of each
/// the first byte. Of a text that is no query they mean nothing.
#[derive(Drop)]
pub(crate) struct PartPlaces<'a> {
    query: &'a str,
    // what isn't read yet
    letters: Chars<'a>,
    within: Within,
}

impl<'a> PartPlaces<'a> {
    /// Of this query, from its beginning on.
    pub(crate) fn new(query: &'a str) -> PartPlaces<'a> {
        PartPlaces {
            query,
            letters: query.chars(),
            within: Within::Gap,
        }
    }

    /// The next place, or the end of the query.
    pub(crate) fn next_place(&mut self) -> usize {
        // each part that ends before this letter was told
        for _ in 0..self.query.len() {
            let left = self.letters.as_str().len();
            let place = self.query.len().saturating_sub(left);
            let ended = match self.letters.next() {
                None => break,
                Some('\\') => {
                    self.letters.next();
                    self.take_letter(place);
                    None
                }
                Some(letter) => self.take(place, letter),
            };
            if let Some(begin) = ended {
                return begin;
            }
        }
        let len = self.query.len();
        self.end_part(len, Within::Gap).unwrap_or(len)
    }

    // Goes past a character before which no `\` stands, and tells where the part began that it ends.
    fn take(&mut self, place: usize, letter: char) -> Option<usize> {
        match (self.within, letter) {
            (Within::Quotes(begin), '"') => self.within = Within::Part(begin),
            (Within::Quotes(_), _) | (Within::Gap, '+' | '-') => {}
            (_, '"') => self.within = Within::Quotes(place),
            (_, '(' | ')') => return self.end_part(place, Within::Gap),
            (Within::Part(begin), ':') => {
                self.within = Within::Gap;
                return Some(begin);
            }
            (_, '^') => return self.end_part(place, Within::Boost),
            _ if letter.is_whitespace() => return self.end_part(place, Within::Gap),
            _ => self.take_letter(place),
        }
        None
    }

    // Goes past a letter, with which a part may begin.
    fn take_letter(&mut self, place: usize) {
        if let Within::Gap = self.within {
            self.within = Within::Part(place);
        }
    }

    // Ends what stands before this place, and tells where it began, if it is a part.
    fn end_part(&mut self, place: usize, within: Within) -> Option<usize> {
        let Within::Part(begin) = mem::replace(&mut self.within, within) else {
            return None;
        };
        match self.query.get(begin..place) {
            Some("AND" | "OR" | "NOT") => None,
            _ => Some(begin),
        }
    }
}
