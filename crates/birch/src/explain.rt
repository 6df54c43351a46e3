//! Why a document scores what it does, as it is printed.

use crate::searched::{
    begun, build, copied, ends_of, terms_of, weight_of_beginning, whole, with_last,
};
use crate::stop::Stop;
use birch_index::Index;
use birch_text::{Clause, QueryTree, split_named};
use birchagain::rarity;
use qm_parser::Sign;
use qm_postings::{DocAddress, Searcher};
use qm_query::{AnyQuery, EnableScoring, Query};
use qm_schema::{QueryError, Term};
use qm_term::Explanation;
use qm_weight::Weight;
use std::alloc::Global;
use std::io;
use std::io::Write;

/// Writes an explanation, each part below the whole and four spaces further in.
pub fn write_explanation<W: Write>(
    alloc: Global,
    out: &mut W,
    explanation: &Explanation,
) -> io::Result<()> {
    let mut left = vec![in alloc; (1usize, explanation)]?;
    // what was taken off is written, and what it has below it waits, the first on top
    for _ in 0..u64::MAX {
        let Some((depth, part)) = left.pop() else {
            return Ok(());
        };
        write_part(out, depth, part)?;
        // the details behind this one wait
        for detail in part.details().iter().rev() {
            left.push((depth.saturating_add(1), detail))?;
        }
    }
    Ok(())
}

fn write_part<W: Write>(out: &mut W, depth: usize, part: &Explanation) -> io::Result<()> {
    // as many steps are written as there were turns
    for _ in 0..depth {
        out.write_all(b"    ")?;
    }
    let (value, description) = (part.value(), part.description());
    writeln!(out, "{value}: {description}")
}

/// A document that was found, of which it is told why.
#[derive(Clone, Copy)]
pub struct Explained<'a> {
    /// Where memory comes from.
    pub alloc: Global,
    /// The index where it was found.
    pub index: &'a Index,
    /// Where it stands there.
    pub address: DocAddress,
}

impl<'a> Explained<'a> {
    /// Why it scores what it does, by what the query's words weigh.
    pub fn explanation(
        &self,
        query: &AnyQuery,
        statistics: &Searcher,
    ) -> Result<Explanation, QueryError> {
        let (alloc, searcher) = (self.alloc, &self.index.searcher);
        let scoring = EnableScoring::enabled_from_statistics_provider(statistics, searcher);
        let weight = query.weight(alloc, scoring)?;
        let Some(reader) = searcher.segment_reader(self.address.segment_ord) else {
            return Err(QueryError::NoSuchSegment(self.address.segment_ord));
        };
        weight.explain(alloc, reader, self.address.doc_id)
    }

    // Whether a query finds it.
    fn is_found_by(&self, query: &AnyQuery) -> Result<bool, QueryError> {
        let statistics = self.index.statistics(self.alloc)?;
        match self.explanation(query, &statistics) {
            Ok(_) => Ok(true),
            Err(QueryError::DoesNotMatch(_)) => Ok(false),
            Err(error) => Err(error),
        }
    }

    /// Writes what each word weighs by which it scores, and how many documents hold that.
    pub fn write_weights<W: Write>(&self, out: &mut W, tree: &QueryTree) -> Result<(), Stop> {
        match tree {
            QueryTree::Nothing | QueryTree::All(_) => Ok(()),
            QueryTree::Clause(clause) if clause.boost == 0 => Ok(()),
            QueryTree::Clause(clause) if !clause.is_prefix => self.write_whole(out, clause),
            QueryTree::Clause(clause) if clause.words.len() == 1 => {
                self.write_beginning(out, clause)
            }
            QueryTree::Clause(clause) => self.write_begun(out, clause),
            QueryTree::Several(parts) => {
                if !self.is_found_by(&build(self.alloc, self.index, tree)?.query)? {
                    return Ok(());
                }
                // the parts before this one are written, but for those that must not match
                for (sign, part) in parts {
                    if *sign != Sign::MustNot {
                        self.write_weights(out, part)?;
                    }
                }
                Ok(())
            }
        }
    }

    // Writes the weights of words that stand together, where they do.
    fn write_whole<W: Write>(&self, out: &mut W, clause: &Clause) -> Result<(), Stop> {
        let terms = terms_of(self.alloc, self.index, clause)?;
        let query = whole(self.alloc, copied(self.alloc, &terms)?, clause.slop)?;
        if self.is_found_by(&query)? {
            self.write_terms(out, &terms)?;
        }
        Ok(())
    }

    // Writes the weight of the beginning of a word alone.
    fn write_beginning<W: Write>(&self, out: &mut W, clause: &Clause) -> Result<(), Stop> {
        let terms = terms_of(self.alloc, self.index, clause)?;
        let query = begun(self.alloc, copied(self.alloc, &terms)?)?;
        if !self.is_found_by(&query)? {
            return Ok(());
        }
        let (weight, held) = weight_of_beginning(self.alloc, self.index, &query)?;
        let documents = self.index.tally.documents;
        // the terms before this one are written
        for term in &terms {
            write_word(out, term)?;
            writeln!(
                out,
                "*: weight {weight}, of which half counts, held by {held} of {documents} documents"
            )?;
        }
        Ok(())
    }

    // Writes the weights of full words, and of each that stands behind them and begins so.
    fn write_begun<W: Write>(&self, out: &mut W, clause: &Clause) -> Result<(), Stop> {
        let alloc = self.alloc;
        let terms = terms_of(alloc, self.index, clause)?;
        let (full, words) = ends_of(alloc, self.index, &terms)?;
        let mut written = full;
        // the words before this one with which something is found are written
        for word in &words {
            let query = whole(alloc, with_last(alloc, full, word)?, 0)?;
            if self.is_found_by(&query)? {
                self.write_terms(out, written)?;
                self.write_term(out, word)?;
                // the full words stand above the first of these alone
                written = &[];
            }
        }
        Ok(())
    }

    fn write_terms<W: Write>(&self, out: &mut W, terms: &[Term]) -> Result<(), Stop> {
        // the terms before this one are written
        for term in terms {
            self.write_term(out, term)?;
        }
        Ok(())
    }

    fn write_term<W: Write>(&self, out: &mut W, term: &Term) -> Result<(), Stop> {
        let held = self.index.held(term);
        let documents = self.index.tally.documents;
        let weight = rarity(documents, held);
        write_word(out, term)?;
        writeln!(
            out,
            ": weight {weight}, held by {held} of {documents} documents"
        )?;
        Ok(())
    }
}

// Writes the word of a term, and the name of its field before it where it has one.
fn write_word<W: Write>(out: &mut W, term: &Term) -> io::Result<()> {
    let word = str::from_utf8(term.serialized_value_bytes()).unwrap_or("");
    match split_named(word) {
        Some((name, word)) => write!(out, "    {name}:{word}"),
        None => write!(out, "    {word}"),
    }
}
