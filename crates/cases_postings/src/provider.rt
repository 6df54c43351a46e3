//! Providers of statistics of the cases' own.

ghost use Rattle.std.specs.Prelude.{◌*◌, length};
ghost use Rattle.std.specs.List.Sorted.{IsNonDecreasing};
ghost use Rattle.qm_postings.specs.Statistics.{IsProviderRefusal};

use crate::spelled::{read_rising_norms, read_term};
use cases::{Asker, Done, Fault, Listing, Memory, behind, end_refusals, word, words_of};
use qm_docset::Score;
use qm_postings::Bm25StatisticsProvider;
use qm_schema::{Field, QueryError, Term};
use qm_term::Bm25Weight;
use std::alloc::Global;
use std::cell::Cell;

/// Gives each term the weight 1000, or refuses with a code of its own. It counts how often it is asked.
#[derive(Drop)]
pub struct OwnProvider {
    norms: [u32; 256],
    code: Option<u32>,
    asked: Cell<u64>,
    ghost ascending: { IsNonDecreasing norms },
}

impl OwnProvider {
    /// The provider that the words `alike NORMS` or `CODE NORMS` spell.
    pub fn read(words: &[&str]) -> Result<OwnProvider, Fault> {
        let norms = read_rising_norms(word(words, 1))?;
        let code = word(words, 0).parse::<u32>().ok();
        if code.is_none() && word(words, 0) != "alike" {
            return Err(Fault::NotUnderstood);
        }
        Ok(OwnProvider {
            norms,
            code,
            asked: Cell::new(0),
        })
    }
}

impl Bm25StatisticsProvider for OwnProvider {
    ghost weight_of = { λ provider terms. 1000 * length terms };

    ghost norms_of = { λ provider. provider.norms };

    ghost may_refuse = { λ provider terms error. IsProviderRefusal error };

    fn weight(&self, terms: &[Term]) -> Result<Score, QueryError> {
        self.asked.set(self.asked.get().wrapping_add(1));
        if let Some(code) = self.code {
            return Err(QueryError::Provider(code));
        }
        if terms.len() > 1000 {
            return Err(QueryError::ScoreBound);
        }
        Ok(1000 * terms.len() as i64)
    }

    fn norms(&self) -> &[u32; 256] {
        &self.norms
    }

    ghost refusals = { λ provider terms error refused. refused };
}

impl Asker for OwnProvider {
    fn ask(&mut self, alloc: Global, call: &str, memory: Memory, text: &mut Listing) -> Done {
        let words = words_of(alloc, call)?;
        match word(&words, 0) {
            "for_terms" => {
                let weight = weigh(alloc, self, behind(&words, 1), memory)?;
                let (most, boost) = (weight.max_score(), weight.boost());
                Ok(write!(text, "{most} boost {boost} score {}", weight.score(9, 1)))
            }
            "asked" => Ok(write!(text, "{}", self.asked.get())),
            _ => Err(Fault::NotUnderstood),
        }
    }
}

// The weight of words together.
fn weigh(
    alloc: Global,
    provider: &OwnProvider,
    words: &[&str],
    memory: Memory,
) -> Result<Bm25Weight, Fault> {
    let mut terms = Vec::new(alloc);
    // the terms of the words before this one are there
    for spelled in words {
        terms.push(read_term(alloc, Field::from_field_id(0), spelled)?)?;
    }
    memory.begin(alloc);
    let weight = Bm25Weight::for_terms(provider, &terms);
    end_refusals(alloc);
    Ok(weight?)
}
