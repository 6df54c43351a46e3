//! The query of scripts that a typed one says.
//!
//! Why it is so:
//! - A typed query becomes one of scripts, so what is proved of these holds of it.
//! - A query that names a field is refused: as a word it would find something else.

ghost use Rattle.std.specs.Prelude.{◌≡◌, IfOk, string_bytes};
ghost use Rattle.birchagain_queries.specs.Translation.{beginning_query, leaf_query, occur_of, said_query, words_query};
ghost use Rattle.qm_parser.specs.Views as typed;
ghost use Rattle.qm_postings.specs.Document.{words_of};
ghost use Rattle.qm_script.specs.Spelled.{query_of, texts};

use qm_docset::Score;
use qm_parser::{ParsedLeaf, ParsedQuery, Sign};
use qm_schema::Occur;
use qm_script::{NonNegativeScore, SpelledQuery};
use std::alloc::{AllocError, Global};

/// How many words a beginning goes on to at most: as many as can be said.
const MOST_EXPANSIONS: u32 = 4_294_967_295;

/// The query of scripts that a typed one says, which names no field. Costs a copy of each word.
///
/// Refused for want of memory alone.
pub(crate) fn translated(alloc: Global, parsed: &ParsedQuery) -> Result<SpelledQuery, AllocError>
    ensures { IfOk result (λ query. query_of query ≡ said_query (typed.query_of parsed.now)) }
{
    match parsed {
        ParsedQuery::Empty => Ok(SpelledQuery::Empty),
        ParsedQuery::Leaf(leaf) => translated_leaf(alloc, leaf),
        ParsedQuery::Field(_, inner) => translated(alloc, inner),
        ParsedQuery::Boost(factor, inner) => {
            let query = translated(alloc, inner)?;
            let factor = NonNegativeScore::new(Score::from(*factor));
            Ok(SpelledQuery::Boost(factor, Box::new(alloc, query)?))
        }
        ParsedQuery::Boolean(parsed) => {
            let mut clauses = Vec::with_capacity(alloc, parsed.len())?;
            // those before this one are there
            for (sign, inner) in parsed {
                let query = translated(alloc, inner)?;
                clauses.push((occur_of(*sign), query))?;
            }
            Ok(SpelledQuery::Boolean {
                minimum: 0,
                clauses,
            })
        }
    }
}

// How a clause occurs that has this sign.
fn occur_of(sign: Sign) -> Occur
    ensures { result ≡ occur_of sign }
{
    match sign {
        Sign::Should => Occur::Should,
        Sign::Must => Occur::Must,
        Sign::MustNot => Occur::MustNot,
    }
}

// What holds no other query.
fn translated_leaf(alloc: Global, leaf: &ParsedLeaf) -> Result<SpelledQuery, AllocError>
    ensures { IfOk result (λ query. query_of query ≡ leaf_query (typed.leaf_of leaf.now)) }
{
    match leaf {
        ParsedLeaf::All => Ok(SpelledQuery::All),
        ParsedLeaf::Word(word) => Ok(SpelledQuery::Term(String::from_str(alloc, word.as_str())?)),
        ParsedLeaf::Prefix(word) => {
            let words = vec![in alloc; String::from_str(alloc, word.as_str())?]?;
            Ok(query_of_beginning(words))
        }
        ParsedLeaf::Phrase { text, slop } => Ok(query_of_words(*slop, words_of(alloc, text)?)),
        ParsedLeaf::PhrasePrefix(text) => Ok(query_of_beginning(words_of(alloc, text)?)),
    }
}

// Words behind one another: of one alone for that word, of none for nothing.
fn query_of_words(slop: u32, words: Vec<String>) -> SpelledQuery
    ensures { query_of result ≡ words_query slop (texts words.items) }
{
    let mut words = words;
    if words.len() >= 2 {
        return SpelledQuery::Phrase { slop, words };
    }
    match words.pop() {
        Some(word) => SpelledQuery::Term(word),
        None => SpelledQuery::Empty,
    }
}

// The same where the last is the beginning of a word.
fn query_of_beginning(words: Vec<String>) -> SpelledQuery
    ensures { query_of result ≡ beginning_query (texts words.items) }
{
    if words.is_empty() {
        return SpelledQuery::Empty;
    }
    SpelledQuery::PhrasePrefix {
        max_expansions: MOST_EXPANSIONS,
        words,
    }
}

// The words of a text, which ASCII spaces part.
fn words_of(alloc: Global, text: &String) -> Result<Vec<String>, AllocError>
    ensures { IfOk result (λ words. texts words.items ≡ words_of (string_bytes text.now)) }
{
    let mut words = Vec::new(alloc);
    // the words of the pieces before this one are there
    for piece in text.as_str().split(' ') {
        if !piece.is_empty() {
            words.push(String::from_str(alloc, piece)?)?;
        }
    }
    Ok(words)
}
