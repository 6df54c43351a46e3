//! Lists of documents as words.

use crate::fault::{Done, Fault};
use crate::words::read_document;
use qm_docset::DocId;
use std::alloc::Global;

/// The numbers that words spell: `7`, `0..500`, or `0..500/3`, the multiples of 3 among them.
pub fn read_documents(alloc: Global, words: &[&str]) -> Result<Vec<DocId>, Fault> {
    let mut documents = Vec::with_capacity(alloc, words.len())?;
    // the numbers that the words before this one spell are there
    for word in words {
        match word.split_once("..") {
            Some((first, rest)) => add_range(first, rest, &mut documents)?,
            None => match read_document(word) {
                Some(doc) => documents.push(doc)?,
                None => return Err(Fault::NotUnderstood),
            },
        }
    }
    Ok(documents)
}

fn add_range(first: &str, rest: &str, documents: &mut Vec<DocId>) -> Done {
    let (end, step) = match rest.split_once('/') {
        Some((end, step)) => (end, step),
        None => (rest, "1"),
    };
    let (Ok(first), Ok(end), Ok(step)) = (
        first.parse::<DocId>(),
        end.parse::<DocId>(),
        step.parse::<DocId>(),
    ) else {
        return Err(Fault::NotUnderstood);
    };
    // of the numbers before this one the multiples of the step are there
    for doc in first..end {
        if step > 0 && doc % step == 0 {
            documents.push(doc)?;
        }
    }
    Ok(())
}
