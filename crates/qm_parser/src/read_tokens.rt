//! The tree of tokens.

ghost use Rattle.std.specs.Prelude.{◌≡◌, IfOk, map};
ghost use Rattle.qm_parser.specs.LevelViews.{level_of, outer_of, state_of};
ghost use Rattle.qm_parser.specs.Reading.{Gives};
ghost use Rattle.qm_parser.specs.Trees.{boosted, close_level, end_text, open_level, step, tree_of_tokens};
ghost use Rattle.qm_parser.specs.Views.{query_of, token_of};

use crate::levels::OpenLevel;
use crate::outer_levels::OuterLevels;
use crate::parse_error::{ParseError, refuse};
use crate::parsed_query::ParsedQuery;
use crate::refusal_kind::RefusalKind;
use crate::token::{ReadPiece, ReadToken};
use std::alloc::{AllocError, Global};

// How deep parentheses may stand in one another.
const MAX_DEPTH: usize = 64;

/// What was read of the tokens so far.
#[derive(Drop)]
pub(crate) struct OpenText {
    /// The clauses that the next token belongs to.
    pub inner: OpenLevel,
    /// Those of the parentheses around, and of the text.
    pub outer: OuterLevels,
}

/// The tree that these tokens are of.
pub(crate) fn read_tokens(alloc: Global, tokens: Vec<ReadToken>) -> Result<ParsedQuery, ParseError>
    ensures { Gives query_of result (tree_of_tokens (map token_of tokens.items)) }
{
    let mut text = OpenText {
        inner: OpenLevel::new(alloc, 0),
        outer: OuterLevels::new(alloc),
    };
    // the tokens so far have made this of the text
    for token in tokens {
        text = read_token(alloc, text, token)?;
    }
    end_text(text)
}

// The text behind one more token.
#[tactic(auto, unfolding(crate::specs::Trees::read_piece))]
fn read_token(alloc: Global, text: OpenText, token: ReadToken) -> Result<OpenText, ParseError>
    ensures { Gives state_of result (step (state_of text) (token_of token)) }
{
    let OpenText { inner, outer } = text;
    let ReadToken { piece, place } = token;
    match piece {
        ReadPiece::Open => open_level(alloc, inner, outer, place),
        ReadPiece::Close(boost) => close_level(alloc, inner, outer, boost, place),
        ReadPiece::Leaf(leaf, boost) => {
            let query = boost_query(alloc, boost, ParsedQuery::Leaf(leaf))?;
            let inner = inner.add_operand(alloc, query)?;
            Ok(OpenText { inner, outer })
        }
        ReadPiece::And => {
            let inner = inner.join(true, place)?;
            Ok(OpenText { inner, outer })
        }
        ReadPiece::Or => {
            let inner = inner.join(false, place)?;
            Ok(OpenText { inner, outer })
        }
        ReadPiece::Sign(sign) => {
            inner.signless()?;
            let mut inner = inner;
            inner.sign = Some((sign, place));
            Ok(OpenText { inner, outer })
        }
        ReadPiece::Name(name) => {
            inner.nameless()?;
            let mut inner = inner;
            inner.name = Some((name, place));
            Ok(OpenText { inner, outer })
        }
    }
}

// The text behind a `(` at this place.
fn open_level(
    alloc: Global,
    inner: OpenLevel,
    outer: OuterLevels,
    place: usize,
) -> Result<OpenText, ParseError>
    ensures { Gives state_of result (open_level (level_of inner) (outer_of outer) place) }
{
    let mut outer = outer;
    if outer.len() >= MAX_DEPTH {
        return refuse(RefusalKind::TooDeep, place);
    }
    outer.push(inner)?;
    Ok(OpenText {
        inner: OpenLevel::new(alloc, place),
        outer,
    })
}

// The text behind a `)` at this place, with the boost behind it.
fn close_level(
    alloc: Global,
    inner: OpenLevel,
    outer: OuterLevels,
    boost: Option<u32>,
    place: usize,
) -> Result<OpenText, ParseError>
    ensures { Gives state_of result (close_level (level_of inner) (outer_of outer) boost place) }
{
    let mut outer = outer;
    inner.complete()?;
    let Some(around) = outer.pop() else {
        return refuse(RefusalKind::StrayParenthesis, place);
    };
    let query = boost_query(alloc, boost, inner.query()?)?;
    let inner = around.add_operand(alloc, query)?;
    Ok(OpenText { inner, outer })
}

// The tree of a text that ends here.
fn end_text(text: OpenText) -> Result<ParsedQuery, ParseError>
    ensures { Gives query_of result (end_text (state_of text)) }
{
    let OpenText { inner, outer } = text;
    inner.complete()?;
    if outer.len() > 0 {
        return refuse(RefusalKind::OpenParenthesis, inner.opened);
    }
    Ok(inner.query()?)
}

// The query, boosted where there is a boost.
fn boost_query(
    alloc: Global,
    boost: Option<u32>,
    query: ParsedQuery,
) -> Result<ParsedQuery, AllocError>
    ensures { IfOk result (λ made. query_of made ≡ boosted boost (query_of query)) }
{
    match boost {
        Some(boost) => Ok(ParsedQuery::Boost(boost, Box::new(alloc, query)?)),
        None => Ok(query),
    }
}
