//! A query of the library, out of what a person wrote.

use crate::beginnings::{MOST_WORDS, commonest_words};
use birch_index::Index;
use birch_text::{Clause, QueryTree};
use birchagain::rarity;
use qm_parser::Sign;
use qm_postings::Searcher;
use qm_query::{
    AllQuery, AnyQuery, BooleanQuery, BoostQuery, DisjunctionMaxQuery, EmptyQuery,
    PhrasePrefixQuery, PhraseQuery, Query, TermQuery,
};
use qm_schema::{IndexRecordOption, Occur, QueryError, Term};
use std::alloc::Global;

/// A query of an index, and what its words weigh: what their rarity there says.
#[derive(Drop)]
pub struct Searched {
    /// The query.
    pub query: AnyQuery,
    /// What its words weigh.
    pub statistics: Searcher,
}

/// The query that asks an index for what a person wants.
pub fn build(alloc: Global, index: &Index, tree: &QueryTree) -> Result<Searched, QueryError> {
    let mut statistics = index.statistics(alloc)?;
    let query = query_of(alloc, index, &mut statistics, tree)?;
    Ok(Searched { query, statistics })
}

// The query of a part of a tree, whose words get their weights.
fn query_of(
    alloc: Global,
    index: &Index,
    statistics: &mut Searcher,
    tree: &QueryTree,
) -> Result<AnyQuery, QueryError> {
    match tree {
        QueryTree::Nothing => Ok(AnyQuery::Empty(EmptyQuery)),
        QueryTree::All(score) => boosted(alloc, AnyQuery::All(AllQuery), u64::from(*score)),
        QueryTree::Clause(clause) => leaf(alloc, index, statistics, clause),
        QueryTree::Several(parts) => {
            let mut built = Vec::new(alloc);
            // the parts before this one are built
            for (sign, part) in parts {
                let query = query_of(alloc, index, statistics, part)?;
                built.push((occur_of(*sign), Box::new(alloc, query)?))?;
            }
            Ok(AnyQuery::Boolean(BooleanQuery::new(built)))
        }
    }
}

fn occur_of(sign: Sign) -> Occur {
    match sign {
        Sign::Should => Occur::Should,
        Sign::Must => Occur::Must,
        Sign::MustNot => Occur::MustNot,
    }
}

// The query with scores that are so many times as high.
fn boosted(alloc: Global, query: AnyQuery, boost: u64) -> Result<AnyQuery, QueryError> {
    if boost == 1 {
        return Ok(query);
    }
    let query = Box::new(alloc, query)?;
    let boost = i64::try_from(boost).unwrap_or(i64::MAX);
    Ok(AnyQuery::Boost(BoostQuery::new(query, boost)))
}

// The query of one clause.
fn leaf(
    alloc: Global,
    index: &Index,
    statistics: &mut Searcher,
    clause: &Clause,
) -> Result<AnyQuery, QueryError> {
    let boost = u64::from(clause.boost);
    let terms = terms_of(alloc, index, clause)?;
    if !clause.is_prefix {
        weigh_all(alloc, index, statistics, &terms)?;
        return boosted(alloc, whole(alloc, terms, clause.slop)?, boost);
    }
    if terms.len() == 1 {
        return beginning(alloc, index, terms, boost);
    }
    let query = begun_phrase(alloc, index, statistics, terms)?;
    boosted(alloc, query, boost)
}

/// The terms of a clause, in its order.
pub fn terms_of(alloc: Global, index: &Index, clause: &Clause) -> Result<Vec<Term>, QueryError> {
    let mut terms = Vec::with_capacity(alloc, clause.words.len())?;
    // the words before this one are terms
    for word in &clause.words {
        terms.push(index.fields.term(alloc, clause, word.as_str())?)?;
    }
    Ok(terms)
}

// Has terms weigh what their rarity says.
fn weigh_all(
    alloc: Global,
    index: &Index,
    statistics: &mut Searcher,
    terms: &[Term],
) -> Result<(), QueryError> {
    // the terms before this one are weighed
    for term in terms {
        index.weigh(alloc, statistics, term)?;
    }
    Ok(())
}

/// The query of full words, which stand together.
pub fn whole(alloc: Global, terms: Vec<Term>, slop: u32) -> Result<AnyQuery, QueryError> {
    let mut terms = terms;
    if terms.len() == 1 {
        if let Some(term) = terms.pop() {
            return Ok(AnyQuery::Term(TermQuery::new(term, IndexRecordOption::WithFreqs)));
        }
    }
    let mut phrase = PhraseQuery::new(alloc, terms)?;
    phrase.set_slop(slop);
    Ok(AnyQuery::Phrase(phrase))
}

/// What words behind one another find of which the last is the beginning of one, whatever it goes on to.
pub fn begun(alloc: Global, terms: Vec<Term>) -> Result<AnyQuery, QueryError> {
    let mut query = PhrasePrefixQuery::new(alloc, terms)?;
    query.set_max_expansions(u32::MAX);
    Ok(AnyQuery::PhrasePrefix(query))
}

/// What the beginning of a word weighs: what a word does that as many documents hold as hold any that begins so; and
/// how many that are.
pub fn weight_of_beginning(
    alloc: Global,
    index: &Index,
    query: &AnyQuery,
) -> Result<(u64, u64), QueryError> {
    let held = query.count(alloc, &index.searcher)? as u64;
    Ok((rarity(index.tally.documents, held), held))
}

// The beginning of a word alone, which scores half of what it weighs.
fn beginning(
    alloc: Global,
    index: &Index,
    terms: Vec<Term>,
    boost: u64,
) -> Result<AnyQuery, QueryError> {
    let query = begun(alloc, terms)?;
    let (weight, _) = weight_of_beginning(alloc, index, &query)?;
    boosted(alloc, query, (weight / 2).saturating_mul(boost))
}

// Words behind one another of which the last is the beginning of one. A document scores as the best of the phrases
// that it goes on to. Where it goes on to more words than are tried, it finds with the others what scores 0.
fn begun_phrase(
    alloc: Global,
    index: &Index,
    statistics: &mut Searcher,
    terms: Vec<Term>,
) -> Result<AnyQuery, QueryError> {
    let (full, words) = ends_of(alloc, index, &terms)?;
    weigh_all(alloc, index, statistics, full)?;
    weigh_all(alloc, index, statistics, &words)?;
    let mut disjuncts = Vec::with_capacity(alloc, words.len())?;
    // the phrases that end with the words before this one are there
    for word in &words {
        let phrase = whole(alloc, with_last(alloc, full, word)?, 0)?;
        disjuncts.push(Box::new(alloc, phrase)?)?;
    }
    if words.len() == MOST_WORDS {
        let others = boosted(alloc, begun(alloc, terms)?, 0)?;
        disjuncts.push(Box::new(alloc, others)?)?;
    }
    Ok(AnyQuery::DisjunctionMax(DisjunctionMaxQuery::new(disjuncts)))
}

/// The full words of some of which the last is the beginning of one, and what this goes on to.
pub fn ends_of<'a>(
    alloc: Global,
    index: &Index,
    terms: &'a [Term],
) -> Result<(&'a [Term], Vec<Term>), QueryError> {
    match terms.split_last() {
        Some((beginning, full)) => Ok((full, commonest_words(alloc, index, beginning)?)),
        None => Ok((terms, Vec::new(alloc))),
    }
}

/// A copy of these terms.
pub fn copied(alloc: Global, terms: &[Term]) -> Result<Vec<Term>, QueryError> {
    let mut copies = Vec::with_capacity(alloc, terms.len())?;
    // the terms before this one are copied
    for term in terms {
        copies.push(term.clone(alloc)?)?;
    }
    Ok(copies)
}

/// A copy of these terms, and behind them of one more.
pub fn with_last(alloc: Global, terms: &[Term], last: &Term) -> Result<Vec<Term>, QueryError> {
    let mut all = copied(alloc, terms)?;
    all.push(last.clone(alloc)?)?;
    Ok(all)
}
