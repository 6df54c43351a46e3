//! Rows on searchers.

ghost use Rattle.std.specs.Prelude.{pos, ◌≤ℤ◌, All, IfOk};

use crate::given::empty_documents;
use crate::segment_rows::write_alive;
use crate::spelled::{cut, read_norms, read_number, read_numbers, read_term, read_text};
use cases::{
    Asker, Done, Fault, Listing, Memory, behind, end_refusals, number, score, word, words_of,
};
use qm_docset::Score;
use qm_postings::{Bm25StatisticsProvider, DocAddress, Searcher, SegmentReader};
use qm_schema::{Field, Schema, Term};
use std::alloc::Global;

/// Rows on a searcher.
#[derive(Drop)]
pub struct SearcherRows<'s> {
    pub schema: &'s Schema,
    pub searcher: Searcher,
}

/// The searcher that the words `DEFAULT NORMS COUNTS WORD WEIGHT ..` spell: with a segment for each of the
/// counts, of so many empty documents. Some requests for memory are refused as it is made.
pub fn make_searcher(
    alloc: Global,
    schema: &Schema,
    words: &[&str],
    memory: Memory,
) -> Result<Searcher, Fault> {
    let norms = read_norms(word(words, 1))?;
    let segments = read_segments(alloc, schema, word(words, 2))?;
    let weights = read_weights(alloc, behind(words, 3))?;
    let schema = schema.clone(alloc)?;
    let Some(weight) = score(words, 0) else {
        return Err(Fault::NotUnderstood);
    };
    memory.begin(alloc);
    let made = Searcher::new(alloc, schema, segments, weights, weight, norms);
    end_refusals(alloc);
    Ok(made?)
}

// The segments of so many documents each; `none` for no segment, `0*3` for three of no documents.
fn read_segments(
    alloc: Global,
    schema: &Schema,
    spelled: &str,
) -> Result<Vec<SegmentReader>, Fault> {
    let mut segments = Vec::new(alloc);
    if spelled == "none" {
        return Ok(segments);
    }
    let (counts, times) = match spelled.split_once('*') {
        Some((counts, times)) => (counts, read_number(times)?),
        None => (spelled, 1),
    };
    // each turn before this one made a segment for each of the counts
    for _ in 0..times {
        // this turn's segments for the counts before this one are there too
        for count in read_numbers(alloc, counts)? {
            segments.push(empty_documents(alloc, schema, count)?)?;
        }
    }
    Ok(segments)
}

// Terms of the first field with their weights.
fn read_weights(alloc: Global, words: &[&str]) -> Result<Vec<(Term, Score)>, Fault>
    ensures { IfOk result (λ weights. All (λ w. pos 0 ≤ℤ w.1) weights.items) }
{
    let mut weights = Vec::new(alloc);
    // no weight so far is below 0
    for pair in words.chunks(2) {
        let term = read_term(alloc, Field::from_field_id(0), word(pair, 0))?;
        let Some(weight) = score(pair, 1) else {
            return Err(Fault::NotUnderstood);
        };
        weights.push((term, weight))?;
    }
    Ok(weights)
}

/// What words of the first field weigh together.
pub fn weigh(
    alloc: Global,
    searcher: &Searcher,
    words: &[&str],
    memory: Memory,
) -> Result<Score, Fault> {
    let mut terms = Vec::new(alloc);
    // the terms of the words before this one are there
    for spelled in words {
        terms.push(read_term(alloc, Field::from_field_id(0), spelled)?)?;
    }
    memory.begin(alloc);
    let weight = searcher.weight(&terms);
    end_refusals(alloc);
    Ok(weight?)
}

/// `norm ID`: writes the norm that a searcher gives this length id.
pub fn write_norm(searcher: &Searcher, words: &[&str], text: &mut Listing) -> Done {
    match searcher.norms().get(number(words, 1).unwrap_or(0) as usize) {
        Some(norm) => Ok(write!(text, "{norm}")),
        None => Err(Fault::NotAllowed),
    }
}

impl<'s> Asker for SearcherRows<'s> {
    fn ask(&mut self, alloc: Global, call: &str, memory: Memory, text: &mut Listing) -> Done {
        let words = words_of(alloc, call)?;
        match word(&words, 0) {
            "weight" => {
                let weight = weigh(alloc, &self.searcher, behind(&words, 1), memory)?;
                Ok(write!(text, "{weight}"))
            }
            "segments" => Ok(write!(text, "{}", self.searcher.segment_readers().len())),
            "max_doc" | "num_docs" | "alive" => self.ask_segment(&words, text),
            "norm" => write_norm(&self.searcher, &words, text),
            "field" => {
                let name = read_text(alloc, cut(call).1)?;
                match self.searcher.schema().get_field(name.as_str()) {
                    Some(field) => Ok(write!(text, "{}", field.field_id())),
                    None => Ok(text.word("none")),
                }
            }
            _ => self.change(alloc, &words, memory, text),
        }
    }
}

impl<'s> SearcherRows<'s> {
    // What a segment has: `max_doc N`, `num_docs N` and `alive N`.
    fn ask_segment(&self, words: &[&str], text: &mut Listing) -> Done {
        let ord = read_number(word(words, 1))?;
        let Some(segment) = self.searcher.segment_reader(ord) else {
            return Ok(text.word("none"));
        };
        match word(words, 0) {
            "max_doc" => Ok(write!(text, "{}", segment.max_doc())),
            "num_docs" => Ok(write!(text, "{}", segment.num_docs())),
            _ => Ok(write_alive(segment, 0, text)),
        }
    }

    // The calls that change the searcher.
    fn change(
        &mut self,
        alloc: Global,
        words: &[&str],
        memory: Memory,
        text: &mut Listing,
    ) -> Done {
        match word(words, 0) {
            "set_weight" => set_weight(alloc, &mut self.searcher, words, memory),
            "set_norms" => set_norms(alloc, &mut self.searcher, words, memory),
            "push_segment" => self.push(alloc, words, memory),
            "pop_segment" => self.pop(alloc, memory, text),
            "delete" => delete(alloc, &mut self.searcher, words, memory),
            _ => Err(Fault::NotUnderstood),
        }
    }

    // `push_segment COUNT`: one of so many empty documents.
    fn push(&mut self, alloc: Global, words: &[&str], memory: Memory) -> Done {
        let segment = empty_documents(alloc, self.schema, read_number(word(words, 1))?)?;
        memory.begin(alloc);
        Ok(self.searcher.push_segment(segment)?)
    }

    // `pop_segment`: how many documents the segment has.
    fn pop(&mut self, alloc: Global, memory: Memory, text: &mut Listing) -> Done {
        memory.begin(alloc);
        let popped = self.searcher.pop_segment();
        end_refusals(alloc);
        match popped {
            Some(segment) => Ok(write!(text, "{}", segment.max_doc())),
            None => Ok(text.word("none")),
        }
    }
}

// `set_weight WORD WEIGHT`: gives a term of the first field its weight.
fn set_weight(alloc: Global, searcher: &mut Searcher, words: &[&str], memory: Memory) -> Done {
    let term = read_term(alloc, Field::from_field_id(0), word(words, 1))?;
    let Some(weight) = score(words, 2) else {
        return Err(Fault::NotUnderstood);
    };
    memory.begin(alloc);
    Ok(searcher.set_weight(term, weight)?)
}

// `set_norms NORMS`: gives each length id its norm.
fn set_norms(alloc: Global, searcher: &mut Searcher, words: &[&str], memory: Memory) -> Done {
    let norms = read_norms(word(words, 1))?;
    memory.begin(alloc);
    Ok(searcher.set_norms(&norms)?)
}

// `delete SEGMENT DOCUMENT`.
fn delete(alloc: Global, searcher: &mut Searcher, words: &[&str], memory: Memory) -> Done {
    let ord = read_number(word(words, 1))?;
    let doc = read_number(word(words, 2))?;
    match searcher.segment_reader(ord) {
        Some(segment) if doc < segment.max_doc() => {}
        _ => return Err(Fault::NotAllowed),
    }
    memory.begin(alloc);
    Ok(searcher.delete(alloc, DocAddress::new(ord, doc))?)
}
