//! Blocks of weights over norms that stand elsewhere, and of scorers by such weights.

ghost use Rattle.std.specs.Prelude.{IfSome};
ghost use Rattle.std.specs.List.Sorted.{IsNonDecreasing};
ghost use Rattle.qm_docset.specs.Lists.{IsPlaced};

use crate::bench::Bench;
use crate::making::play_owned;
use crate::ranked::write_scores;
use crate::spelled::{cut, read_boosted, read_field, read_option, read_rising_norms, read_term};
use crate::weight_rows::WeightRows;
use cases::{
    Asker, Block, Done, Fault, Listing, Memory, Report, Row, end_refusals, play_asked, word,
    words_of,
};
use qm_docset::DocSet;
use qm_postings::SegmentReader;
use qm_schema::{IndexRecordOption, Term};
use qm_term::{Bm25Weight, TermScorer};
use std::alloc::Global;

/// Plays `borrowedweight WEIGHT NORMS`.
pub fn play_weight(alloc: Global, bench: &Bench, block: Block<'_>, report: &mut Report) -> Done {
    let norms = read_rising_norms(word(block.words, 2))?;
    let weight = make_weight(alloc, word(block.words, 1), &norms, block.memory)?;
    play_rows(alloc, bench, weight, block.rows, report)
}

// Plays rows on a weight, beside the given segment.
fn play_rows<'b>(
    alloc: Global,
    bench: &'b Bench,
    weight: Bm25Weight<&'b [u32; 256]>,
    rows: &[Row<'_>],
    report: &mut Report,
) -> Done {
    let mut asker = BorrowedRows {
        bench,
        of_weight: WeightRows { weight },
    };
    play_asked(alloc, &mut asker, rows, report)
}

/// Plays `borrowedscorer FIELD WORD WEIGHT NORMS OPTION`.
pub fn play_scorer(alloc: Global, bench: &Bench, block: Block<'_>, report: &mut Report) -> Done {
    let field = read_field(&bench.schema, word(block.words, 1))?;
    let term = read_term(alloc, field, word(block.words, 2))?;
    let option = read_option(word(block.words, 5))?;
    let norms = read_rising_norms(word(block.words, 4))?;
    let weight = make_weight(alloc, word(block.words, 3), &norms, Memory::Ample)?;
    match scorer_of(alloc, &bench.segment, &term, option, weight, block.memory) {
        Some(scorer) => play_owned(alloc, &bench.alive, scorer, block.rows, report),
        None => Err(Fault::NotAllowed),
    }
}

// The weight that a word spells, over these norms. Some requests for memory are refused as it is made.
fn make_weight<'n>(
    alloc: Global,
    spelled: &str,
    norms: &'n [u32; 256],
    memory: Memory,
) -> Result<Bm25Weight<&'n [u32; 256]>, Fault>
    requires { IsNonDecreasing norms.now }
{
    let (weight, boost) = read_boosted(spelled)?;
    memory.begin(alloc);
    let made = Bm25Weight::borrowing(weight, boost, norms);
    end_refusals(alloc);
    Ok(made?)
}

// The scorer of a term. Some requests for memory are refused as it is made.
fn scorer_of<'b>(
    alloc: Global,
    segment: &'b SegmentReader,
    term: &Term,
    option: IndexRecordOption,
    weight: Bm25Weight<&'b [u32; 256]>,
    memory: Memory,
) -> Option<TermScorer<'b, &'b [u32; 256]>>
    ensures { IfSome result (IsPlaced ⟦<TermScorer<'b, &'b [u32; 256]> as DocSet>⟧) }
{
    memory.begin(alloc);
    let found = TermScorer::for_term(segment, term, option, &weight);
    end_refusals(alloc);
    found
}

/// Rows on a weight over norms that stand elsewhere.
#[derive(Drop)]
pub struct BorrowedRows<'b> {
    bench: &'b Bench,
    of_weight: WeightRows<&'b [u32; 256]>,
}

impl<'b> Asker for BorrowedRows<'b> {
    fn ask(&mut self, alloc: Global, call: &str, memory: Memory, text: &mut Listing) -> Done {
        let (name, rest) = cut(call);
        match name {
            "owned" => ask_owned(alloc, &self.of_weight.weight, rest, memory, text),
            "lists" => write_list(alloc, self.bench, self.of_weight.weight, rest, memory, text),
            _ => self.of_weight.ask(alloc, call, memory, text),
        }
    }
}

// A call of the weight that has a copy of the norms.
fn ask_owned(
    alloc: Global,
    weight: &Bm25Weight<&[u32; 256]>,
    call: &str,
    memory: Memory,
    text: &mut Listing,
) -> Done {
    memory.begin(alloc);
    let owned = weight.owned();
    end_refusals(alloc);
    let mut rows = WeightRows { weight: owned };
    rows.ask(alloc, call, memory, text)
}

// `FIELD WORD OPTION`: the documents that hold the term, each with its score.
fn write_list(
    alloc: Global,
    bench: &Bench,
    weight: Bm25Weight<&[u32; 256]>,
    spelled: &str,
    memory: Memory,
    text: &mut Listing,
) -> Done {
    let words = words_of(alloc, spelled)?;
    let field = read_field(&bench.schema, word(&words, 0))?;
    let term = read_term(alloc, field, word(&words, 1))?;
    let option = read_option(word(&words, 2))?;
    match scorer_of(alloc, &bench.segment, &term, option, weight, memory) {
        Some(scorer) => write_all(scorer, text),
        None => Ok(text.word("none")),
    }
}

// Writes all documents that a scorer has, each with its score.
fn write_all<'b>(scorer: TermScorer<'b, &'b [u32; 256]>, text: &mut Listing) -> Done
    requires { IsPlaced ⟦<TermScorer<'b, &'b [u32; 256]> as DocSet>⟧ scorer }
{
    let mut scorer = scorer;
    Ok(write_scores(&mut scorer, text))
}
