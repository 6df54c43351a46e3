//! Setters of queries.

use cases::{Done, Fault};
use cases_given::read_number;
use qm_query::AnyQuery;

/// Makes the change that a call names: `set_minimum N`, `set_slop N` or `set_max_expansions N`.
pub fn change(query: &mut AnyQuery, call: &str) -> Done {
    let Some((name, number)) = call.split_once(' ') else {
        return Err(Fault::NotUnderstood);
    };
    let number = read_number(number)?;
    match (query, name) {
        (AnyQuery::Boolean(query), "set_minimum") => {
            query.set_minimum_number_should_match(number as usize);
            Ok(())
        }
        (AnyQuery::Phrase(query), "set_slop") => {
            query.set_slop(number);
            Ok(())
        }
        (AnyQuery::PhrasePrefix(query), "set_max_expansions") => {
            query.set_max_expansions(number);
            Ok(())
        }
        _ => Err(Fault::NotUnderstood),
    }
}
