//! What a query asks for.
//!
//! A list of `-` parts alone finds all else: whoever types `-fox` wants the rest.

use crate::clause::Clause;
use qm_parser::Sign;
use std::alloc::{AllocError, Global};

/// What a query asks for.
#[derive(Drop)]
pub enum QueryTree {
    /// No document.
    Nothing,
    /// All documents, each with this score.
    All(u32),
    /// Words that stand together.
    Clause(Clause),
    /// What some or all of these ask for.
    Several(Vec<(Sign, QueryTree)>),
}

impl QueryTree {
    /// All clauses, in the order in which they were written.
    ///
    /// Refused for want of memory alone.
    pub fn clauses(&self, alloc: Global) -> Result<Vec<&Clause>, AllocError> {
        let mut clauses = Vec::new(alloc);
        push_clauses(self, true, &mut clauses)?;
        Ok(clauses)
    }

    /// The clauses that make a document one that is found, in the order in which they were written: all
    /// but those that it must not have.
    ///
    /// Refused for want of memory alone.
    pub fn wanted(&self, alloc: Global) -> Result<Vec<&Clause>, AllocError> {
        let mut wanted = Vec::new(alloc);
        push_clauses(self, false, &mut wanted)?;
        Ok(wanted)
    }
}

// Adds the clauses of a part, also those that a document must not have or only the others.
fn push_clauses<'a>(
    tree: &'a QueryTree,
    has_forbidden: bool,
    clauses: &mut Vec<&'a Clause>,
) -> Result<(), AllocError> {
    match tree {
        QueryTree::Nothing | QueryTree::All(_) => Ok(()),
        QueryTree::Clause(clause) => {
            clauses.push(clause)?;
            Ok(())
        }
        QueryTree::Several(parts) => {
            // the clauses of the parts before this one are there
            for (sign, part) in parts {
                if has_forbidden || *sign != Sign::MustNot {
                    push_clauses(part, has_forbidden, clauses)?;
                }
            }
            Ok(())
        }
    }
}
