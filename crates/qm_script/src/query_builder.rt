//! The query that a line spells, as the query layer has it. Each new form of a query is an arm here, and a
//! line in `specs/Asked.antt`.

ghost use Rattle.std.specs.Prelude.{◌≡◌, Ok, nat_abs};
ghost use Rattle.qm_query.specs.Query.{boolean, boosted, constant, disjunction_max, disjuncts_of, query_of as query, subqueries_of};
ghost use Rattle.qm_script.specs.Asked.{Builds, asked, disjunction_max_asked, phrase_asked, phrase_prefix_asked, term_asked};
ghost use Rattle.qm_script.specs.Spelled.{query_of, texts};

use crate::non_negative_score::NonNegativeScore;
use crate::spelled_query::SpelledQuery;
use crate::terms::{word_term, word_terms};
use qm_query::{
    AllQuery, AnyQuery, BooleanQuery, BoostQuery, ConstScoreQuery, DisjunctionMaxQuery, EmptyQuery,
    PhrasePrefixQuery, PhraseQuery, TermQuery,
};
use qm_schema::{IndexRecordOption, Occur, QueryError};
use std::alloc::Global;

/// The query that is spelled. Its words are terms of the one field that a script's documents have, of
/// which frequencies are read. Inner queries are built first, in their order. Costs a copy of each
/// word.
///
/// Refused as the constructors are, the first that is: with [`QueryError::TooFewTerms`] where a phrase
/// has fewer than two words, with [`QueryError::EmptyPrefix`] where a phrase prefix has none, with
/// [`QueryError::OffsetTooLarge`] where one of these has more than 4294967296, with
/// [`QueryError::TieBreaker`] where a tie breaker is above 1000, and with [`QueryError::Memory`].
pub fn build_query(alloc: Global, spelled: &SpelledQuery) -> Result<AnyQuery, QueryError>
    ensures { Builds (asked (query_of spelled.now)) result }
{
    match spelled {
        SpelledQuery::All => Ok(AnyQuery::All(AllQuery)),
        SpelledQuery::Empty => Ok(AnyQuery::Empty(EmptyQuery)),
        SpelledQuery::Term(word) => build_term(alloc, word.as_str()),
        SpelledQuery::Phrase { slop, words } => build_phrase(alloc, *slop, words.as_slice()),
        SpelledQuery::PhrasePrefix {
            max_expansions,
            words,
        } => build_phrase_prefix(alloc, *max_expansions, words.as_slice()),
        SpelledQuery::Boolean { minimum, clauses } => {
            let mut built = Vec::with_capacity(alloc, clauses.len())?;
            // the clauses before this one are built
            for (occur, inner) in clauses {
                let query = build_query(alloc, inner)?;
                built.push((*occur, Box::new(alloc, query)?))?;
            }
            Ok(build_boolean(*minimum, built))
        }
        SpelledQuery::Boost(factor, inner) => {
            let query = build_query(alloc, inner)?;
            build_boost(alloc, *factor, query)
        }
        SpelledQuery::Const(score, inner) => {
            let query = build_query(alloc, inner)?;
            build_constant(alloc, *score, query)
        }
        SpelledQuery::DisjunctionMax {
            tie_breaker,
            disjuncts,
        } => {
            let mut built = Vec::with_capacity(alloc, disjuncts.len())?;
            // the queries before this one are built
            for inner in disjuncts {
                let query = build_query(alloc, inner)?;
                built.push(Box::new(alloc, query)?)?;
            }
            build_disjunction_max(*tie_breaker, built)
        }
    }
}

fn build_term(alloc: Global, word: &str) -> Result<AnyQuery, QueryError>
    ensures { Builds (term_asked word.now) result }
{
    let term = word_term(alloc, word)?;
    let query = TermQuery::new(term, IndexRecordOption::WithFreqs);
    Ok(AnyQuery::Term(query))
}

fn build_phrase(alloc: Global, slop: u32, words: &[String]) -> Result<AnyQuery, QueryError>
    ensures { Builds (phrase_asked slop (texts words.now)) result }
{
    let terms = word_terms(alloc, words)?;
    let mut query = PhraseQuery::new(alloc, terms)?;
    query.set_slop(slop);
    Ok(AnyQuery::Phrase(query))
}

fn build_phrase_prefix(
    alloc: Global,
    max_expansions: u32,
    words: &[String],
) -> Result<AnyQuery, QueryError>
    ensures { Builds (phrase_prefix_asked max_expansions (texts words.now)) result }
{
    let terms = word_terms(alloc, words)?;
    let mut query = PhrasePrefixQuery::new(alloc, terms)?;
    query.set_max_expansions(max_expansions);
    Ok(AnyQuery::PhrasePrefix(query))
}

fn build_boolean(minimum: u32, clauses: Vec<(Occur, Box<AnyQuery>)>) -> AnyQuery
    ensures { query result ≡ boolean minimum (subqueries_of clauses.items) }
{
    let query = BooleanQuery::with_minimum_required_clauses(clauses, minimum as usize);
    AnyQuery::Boolean(query)
}

fn build_boost(
    alloc: Global,
    factor: NonNegativeScore,
    inner: AnyQuery,
) -> Result<AnyQuery, QueryError>
    ensures { Builds (Ok (boosted (nat_abs factor.score) (query inner))) result }
{
    let query = BoostQuery::new(Box::new(alloc, inner)?, factor.score());
    Ok(AnyQuery::Boost(query))
}

fn build_constant(
    alloc: Global,
    score: NonNegativeScore,
    inner: AnyQuery,
) -> Result<AnyQuery, QueryError>
    ensures { Builds (Ok (constant (nat_abs score.score) (query inner))) result }
{
    let query = ConstScoreQuery::new(Box::new(alloc, inner)?, score.score());
    Ok(AnyQuery::ConstScore(query))
}

fn build_disjunction_max(
    tie_breaker: u32,
    disjuncts: Vec<Box<AnyQuery>>,
) -> Result<AnyQuery, QueryError>
    ensures { Builds (disjunction_max_asked tie_breaker (disjuncts_of disjuncts.items)) result }
{
    let query = DisjunctionMaxQuery::with_tie_breaker(disjuncts, tie_breaker)?;
    Ok(AnyQuery::DisjunctionMax(query))
}
