//! What blocks stand on, and what plays which of them.

use crate::explained::{ExplanationRows, make_explanation};
use crate::given::make_given;
use crate::index_rows::IndexRows;
use crate::kept::SchemaMaker;
use crate::keys::KeyRows;
use crate::maker::Maker;
use crate::norm_rows::NormRows;
use crate::phrases::PhraseCountRows;
use crate::provider::OwnProvider;
use crate::schema_rows::{ErrorRows, OptionRows, SchemaRows, read_error};
use crate::searcher_rows::{SearcherRows, make_searcher};
use crate::several::SeveralRows;
use crate::spelled::{read_number, read_option, read_weight};
use crate::stored_rows::play_stored;
use crate::term_rows::{AddressRows, PrefixEndRows, TermRows, make_term, read_address};
use crate::weight_rows::{WeightRows, make_weight};
use crate::{borrowed, phrases, segment_phrases, unions};
use cases::{
    Asker, Block, Done, Fault, Memory, Player, Report, behind, end_refusals, play_asked, word,
};
use qm_docset::AliveBitSet;
use qm_postings::SegmentReader;
use qm_schema::Schema;
use std::alloc::Global;

/// What was given last: a schema, and a segment with it.
#[derive(Drop)]
pub struct Bench {
    pub schema: Schema,
    pub segment: SegmentReader,
    /// the documents of the segment that are alive
    pub alive: AliveBitSet,
}

impl Bench {
    /// What stands there before anything is given: a field `body`, and no document.
    pub fn new(alloc: Global) -> Result<Bench, Fault> {
        let mut unseen = Report::new(alloc);
        let block = Block {
            line: 0,
            words: &[],
            rows: &[],
            memory: Memory::Ample,
        };
        make_given(alloc, block, &mut unseen)
    }
}

impl Player for Bench {
    fn play(&mut self, alloc: Global, block: Block<'_>, report: &mut Report) -> Done {
        match word(block.words, 0) {
            "given" => {
                *self = make_given(alloc, block, report)?;
                Ok(())
            }
            "segment" => play_asked(alloc, self, block.rows, report),
            "stored" => play_stored(alloc, self, block, report),
            "postings" | "shifted" | "holders" | "own" | "union" | "bitsetunion" => {
                unions::play_postings(alloc, self, block, report)
            }
            "phrase" => phrases::play_phrase(alloc, self, block, report),
            "prefix" => phrases::play_prefix(alloc, self, block, report),
            "unionphrase" => phrases::play_union_phrase(alloc, self, block, report),
            "termscorer" => segment_phrases::play_term_scorer(alloc, self, block, report),
            "borrowedweight" => borrowed::play_weight(alloc, self, block, report),
            "borrowedscorer" => borrowed::play_scorer(alloc, self, block, report),
            "segmentphrase" => segment_phrases::play_phrase(alloc, self, block, report),
            "segmentprefix" => segment_phrases::play_prefix(alloc, self, block, report),
            _ => play_made(alloc, self, block, report),
        }
    }
}

// Blocks that no cursor answers.
fn play_made(alloc: Global, bench: &Bench, block: Block<'_>, report: &mut Report) -> Done {
    let words = behind(block.words, 1);
    match word(block.words, 0) {
        "fields" => play_on(alloc, SchemaMaker::new(alloc), block, report),
        "schema" => play_schema(alloc, bench, block, report),
        "several" => {
            let rows = SeveralRows::read(alloc, &bench.segment, words)?;
            play_on(alloc, rows, block, report)
        }
        "builder" => {
            let block_len = read_number(word(words, 0))?;
            let maker = Maker::new(alloc, &bench.schema, block_len, block.memory)?;
            play_on(alloc, maker, block, report)
        }
        "searcher" => {
            let searcher = make_searcher(alloc, &bench.schema, words, block.memory)?;
            let schema = &bench.schema;
            play_on(alloc, SearcherRows { schema, searcher }, block, report)
        }
        "index" => {
            let rows = IndexRows::make(alloc, &bench.schema, words, block.memory)?;
            play_on(alloc, rows, block, report)
        }
        _ => play_small(alloc, block, report),
    }
}

// Blocks that stand on nothing.
fn play_small(alloc: Global, block: Block<'_>, report: &mut Report) -> Done {
    let words = behind(block.words, 1);
    match word(block.words, 0) {
        "error" => {
            let error = read_error(word(words, 0))?;
            play_on(alloc, ErrorRows { error }, block, report)
        }
        "option" => {
            let option = read_option(word(words, 0))?;
            play_on(alloc, OptionRows { option }, block, report)
        }
        "keys" => play_on(alloc, KeyRows::new(alloc), block, report),
        "term" => {
            let term = make_term(alloc, words, block.memory)?;
            play_on(alloc, TermRows { term: &term }, block, report)
        }
        "address" => {
            let address = read_address(words)?;
            play_on(alloc, AddressRows { address }, block, report)
        }
        "prefix_end" => play_on(alloc, PrefixEndRows, block, report),
        "fieldnorm" => play_on(alloc, NormRows::read(words)?, block, report),
        _ => play_weights(alloc, block, report),
    }
}

// Blocks of weights, of explanations, and of counts of phrases.
fn play_weights(alloc: Global, block: Block<'_>, report: &mut Report) -> Done {
    let words = behind(block.words, 1);
    match word(block.words, 0) {
        "bm25" => {
            let weight = make_weight(alloc, words, block.memory)?;
            play_on(alloc, WeightRows { weight }, block, report)
        }
        "phrasecounts" => {
            let slop = read_number(word(words, 0))?;
            let weight = read_weight(word(words, 1))?;
            play_on(alloc, PhraseCountRows { slop, weight }, block, report)
        }
        "provider" => play_on(alloc, OwnProvider::read(words)?, block, report),
        "explanation" => {
            let explanation = make_explanation(
                alloc,
                word(words, 0),
                word(words, 1),
                block.memory,
            )?;
            play_on(
                alloc,
                ExplanationRows::new(alloc, explanation)?,
                block,
                report,
            )
        }
        _ => Err(Fault::NotUnderstood),
    }
}

// Plays the rows of a block on what it made.
fn play_on<A: Asker + Drop>(
    alloc: Global,
    asker: A,
    block: Block<'_>,
    report: &mut Report,
) -> Done {
    let mut asker = asker;
    play_asked(alloc, &mut asker, block.rows, report)
}

// Plays `schema`, or `schema copy`.
fn play_schema(alloc: Global, bench: &Bench, block: Block<'_>, report: &mut Report) -> Done {
    let schema = &bench.schema;
    if word(block.words, 1) != "copy" {
        return play_on(alloc, SchemaRows { schema }, block, report);
    }
    block.memory.begin(alloc);
    let copy = schema.clone(alloc);
    end_refusals(alloc);
    play_on(alloc, SchemaRows { schema: &copy? }, block, report)
}
