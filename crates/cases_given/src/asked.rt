//! What a row asks of a weight.

use crate::given::first_word;
use cases::{Fault, number, words_of};
use qm_docset::DocId;
use std::alloc::Global;

/// What a row asks of a weight.
#[derive(Clone, Copy, PartialEq, Eq)]
pub enum Asked {
    Each,
    /// the documents of `for_each` alone
    Called,
    Slices,
    Docs,
    Prune,
    /// the documents of a pruned run alone
    Pruned,
    /// how many documents a pruned run scores
    Scored,
    Count,
    /// the value of an explanation
    Explain(DocId),
    /// the values of its details
    Details(DocId),
    /// whether a text stands in what is printed of it
    Prints(DocId),
    /// how often the words of a phrase stand together
    PhraseCounts,
    /// which variant the scorer is
    Kind,
}

/// What a row asks.
pub fn read_asked(alloc: Global, call: &str) -> Result<Asked, Fault> {
    let words = words_of(alloc, call)?;
    match (first_word(call), number(&words, 1)) {
        ("each", _) => Ok(Asked::Each),
        ("called", _) => Ok(Asked::Called),
        ("slices", _) => Ok(Asked::Slices),
        ("docs", _) => Ok(Asked::Docs),
        ("prune", _) => Ok(Asked::Prune),
        ("pruned", _) => Ok(Asked::Pruned),
        ("scored", _) => Ok(Asked::Scored),
        ("count", _) => Ok(Asked::Count),
        ("counts", _) => Ok(Asked::PhraseCounts),
        ("kind", _) => Ok(Asked::Kind),
        ("explain", Some(doc)) => Ok(Asked::Explain(doc)),
        ("details", Some(doc)) => Ok(Asked::Details(doc)),
        ("prints", Some(doc)) => Ok(Asked::Prints(doc)),
        _ => Err(Fault::NotUnderstood),
    }
}
