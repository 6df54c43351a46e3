//! The tree of a text.

ghost use Rattle.std.specs.Prelude.{◌≡◌};
ghost use Rattle.qm_parser.specs.Query.{Query};
ghost use Rattle.qm_parser.specs.Reading.{Gives};
ghost use Rattle.qm_parser.specs.Spelling.{Spells};
ghost use Rattle.qm_parser.specs.Trees.{tree_of_text};
ghost use Rattle.qm_parser.specs.Views.{query_of};

use crate::cut_tokens::cut_tokens;
use crate::parse_error::ParseError;
use crate::parsed_query::ParsedQuery;
use crate::place_characters::place_characters;
use crate::read_tokens::read_tokens;
use std::alloc::Global;

/// The tree that the text of a query says.
///
/// Refused with [`ParseError::Refused`] where the language has no such text, with the first thing in it
/// that isn't understood: the first of its tokens that is none, or else the first that has no part in a
/// tree. With [`ParseError::Memory`] for want of memory alone. Costs about as much as the text is long.
pub fn parse_query(alloc: Global, text: &str) -> Result<ParsedQuery, ParseError>
    // it is the tree of the grammar, or what the grammar refuses, with its place
    ensures parsed { Gives query_of result (tree_of_text text.now) }
    // what spells a query is read to that query
    ensures spelled { (q : Query) → Spells text.now q → Gives query_of result (Ok q) }
{
    parse_text(alloc, text)
}

#[tactic(auto, unfolding(crate::specs::Trees::tree_of_text))]
fn parse_text(alloc: Global, text: &str) -> Result<ParsedQuery, ParseError>
    ensures { Gives query_of result (tree_of_text text.now) }
{
    let characters = place_characters(alloc, text)?;
    let tokens = cut_tokens(alloc, characters.as_slice())?;
    read_tokens(alloc, tokens)
}
