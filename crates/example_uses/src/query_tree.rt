//! A query built by hand: a phrase that has to stand there, a word that counts twice, and one that must
//! not stand there.

use qm_query::{AnyQuery, BooleanQuery, BoostQuery, PhraseQuery, TermQuery};
use qm_schema::{IndexRecordOption, Occur, QueryError, Term};
use std::alloc::Global;

/// The documents where the two words of the phrase follow one another and the unwanted word doesn't
/// stand; the other word isn't needed, but scores twice.
pub fn phrase_and_words(
    alloc: Global,
    first: Term,
    second: Term,
    other: Term,
    unwanted: Term,
) -> Result<BooleanQuery, QueryError> {
    let phrase = PhraseQuery::new(alloc, vec![in alloc; first, second]?)?;
    let other = TermQuery::new(other, IndexRecordOption::WithFreqs);
    let twice = BoostQuery::new(Box::new(alloc, AnyQuery::Term(other))?, 2);
    let unwanted = TermQuery::new(unwanted, IndexRecordOption::Basic);
    let clauses = vec![in alloc;
        (Occur::Must, Box::new(alloc, AnyQuery::Phrase(phrase))?),
        (Occur::Should, Box::new(alloc, AnyQuery::Boost(twice))?),
        (Occur::MustNot, Box::new(alloc, AnyQuery::Term(unwanted))?),
    ]?;
    Ok(BooleanQuery::new(clauses))
}
