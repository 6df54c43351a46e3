//! Rows on weights of terms.

use crate::explained::write_explanation;
use crate::spelled::read_norms;
use cases::{Asker, Done, Fault, Listing, Memory, end_refusals, number, score, word, words_of};
use qm_term::{Bm25Weight, Norms};
use std::alloc::Global;

/// Rows on a weight.
#[derive(Drop)]
pub struct WeightRows<N: Norms = [u32; 256]> {
    pub weight: Bm25Weight<N>,
}

/// The weight that the words `WEIGHT NORMS` spell. Some requests for memory are refused as it is made.
pub fn make_weight(alloc: Global, words: &[&str], memory: Memory) -> Result<Bm25Weight, Fault> {
    let norms = read_norms(word(words, 1))?;
    let Some(weight) = score(words, 0) else {
        return Err(Fault::NotUnderstood);
    };
    memory.begin(alloc);
    let made = Bm25Weight::new(weight, norms);
    end_refusals(alloc);
    Ok(made?)
}

// The length id and the frequency that stand behind the first word.
fn read_pair(words: &[&str]) -> Result<(u8, u32), Fault> {
    match (word(words, 1).parse(), number(words, 2)) {
        (Ok(id), Some(frequency)) => Ok((id, frequency)),
        _ => Err(Fault::NotUnderstood),
    }
}

impl<N: Norms> WeightRows<N> {
    // The weight under the boost that the second word spells.
    fn boosted(
        &self,
        alloc: Global,
        words: &[&str],
        memory: Memory,
    ) -> Result<Bm25Weight<N>, Fault> {
        let Some(boost) = score(words, 1) else {
            return Err(Fault::NotUnderstood);
        };
        memory.begin(alloc);
        let boosted = self.weight.boost_by(boost);
        end_refusals(alloc);
        Ok(boosted?)
    }

    fn explain(&self, alloc: Global, words: &[&str], memory: Memory, text: &mut Listing) -> Done {
        let (id, frequency) = read_pair(words)?;
        memory.begin(alloc);
        let explanation = self.weight.explain(alloc, id, frequency);
        end_refusals(alloc);
        Ok(write_explanation(&explanation?, text))
    }
}

impl<N: Norms> Asker for WeightRows<N> {
    fn ask(&mut self, alloc: Global, call: &str, memory: Memory, text: &mut Listing) -> Done {
        let words = words_of(alloc, call)?;
        match word(&words, 0) {
            "score" => {
                let (id, frequency) = read_pair(&words)?;
                memory.begin(alloc);
                let score = self.weight.score(id, frequency);
                end_refusals(alloc);
                Ok(write!(text, "{score}"))
            }
            "max_score" => {
                memory.begin(alloc);
                let most = self.weight.max_score();
                end_refusals(alloc);
                Ok(write!(text, "{most}"))
            }
            "boost" => Ok(write!(text, "{}", self.weight.boost())),
            "boosted" => {
                let boosted = self.boosted(alloc, &words, memory)?;
                Ok(write!(text, "{}", boosted.max_score()))
            }
            "boost_by" => {
                self.weight = self.boosted(alloc, &words, memory)?;
                Ok(())
            }
            "explain" => self.explain(alloc, &words, memory, text),
            _ => Err(Fault::NotUnderstood),
        }
    }
}
