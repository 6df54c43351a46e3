//! The library as the README shows it: a phrase that has to stand there, and a word that counts twice.

use qm_combine::{EmptyScorer, scores_left};
use qm_docset::{DocId, Score};
use qm_postings::{Searcher, SegmentReader};
use qm_query::{
    AnyQuery, BooleanQuery, BoostQuery, EnableScoring, PhraseQuery, TermQuery, query_scorer,
};
use qm_schema::{IndexRecordOption, Occur, QueryError, Term};
use qm_scorer::AnyScorer;
use std::alloc::Global;

/// The documents where "quick fox" stands, each with its score, in which "dog" counts twice.
pub fn phrase_and_word(
    alloc: Global,
    searcher: &Searcher,
    segment: &SegmentReader,
    quick: Term,
    fox: Term,
    dog: Term,
) -> Result<Vec<(DocId, Score)>, QueryError> {
    let phrase = PhraseQuery::new(alloc, vec![in alloc; quick, fox]?)?;
    let phrase = Box::new(alloc, AnyQuery::Phrase(phrase))?;
    let dog = TermQuery::new(dog, IndexRecordOption::WithFreqs);
    let twice = BoostQuery::new(Box::new(alloc, AnyQuery::Term(dog))?, 2);
    let twice = Box::new(alloc, AnyQuery::Boost(twice))?;
    let clauses = vec![in alloc; (Occur::Must, phrase), (Occur::Should, twice)]?;
    let query = BooleanQuery::new(clauses);
    let scoring = EnableScoring::enabled_from_searcher(searcher);
    let scorer: AnyScorer<'_, EmptyScorer> = query_scorer(&query, alloc, scoring, segment, 1)?;
    Ok(scores_left(alloc, scorer)?)
}
