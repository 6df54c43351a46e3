//! What a user writes over the library, a file a use: a query that is built by hand, its best documents,
//! a callback, a pruned run, word weights and a scorer of one's own. Each takes the library by its public
//! calls alone.
#![tactic(auto)]

mod best_documents;
mod own_callback;
mod own_scorer;
mod own_statistics;
mod pruned_collector;
mod query_tree;

use best_documents::best_documents;
use own_callback::{Totals, sum_up};
use own_scorer::rated_matches;
use own_statistics::{Rarity, rare_words_first};
use pruned_collector::best_document;
use qm_docset::{DocId, Score};
use qm_index::Index;
use qm_postings::{DocAddress, Searcher};
use qm_query::{EnableScoring, Query};
use qm_schema::{Field, IndexRecordOption, QueryError, Schema, Term};
use query_tree::phrase_and_words;
use std::alloc::Global;
use std::io;

const TEXTS: [&str; 6] = [
    "the quick fox",
    "the lazy dog",
    "the quick fox and the lazy dog",
    "a quick fox and a dog and another dog",
    "a fox is quick",
    "the quick fox is no cat",
];

/// What each document is rated, by its number.
const RATINGS: [u32; 6] = [0, 30, 60, 500, 20, 10];

/// How many postings a block has.
const BLOCK_LEN: u32 = 128;

/// Documents, each with its score.
type Found = Vec<(DocId, Score)>;

/// What each use answers.
#[derive(Drop)]
struct Answers {
    best: Vec<(Score, DocAddress)>,
    totals: Totals,
    best_of_segment: Option<(DocId, Score)>,
    rare: Found,
    rated: Found,
}

fn main(rt: HostRuntime) -> io::Result<()> {
    let answers = match answer(rt.alloc()) {
        Ok(answers) => answers,
        Err(error) => return println!(rt; "refused: {error}"),
    };
    println!(rt; "the best two")?;
    // the best documents before this one are printed
    for (score, address) in answers.best {
        println!(rt; "  document {}, score {score}", address.doc_id)?;
    }
    let totals = answers.totals;
    println!(rt;
        "{} of {} documents score {} together",
        totals.documents, totals.of, totals.scores
    )?;
    if let Some((doc, score)) = answers.best_of_segment {
        println!(rt; "the best by a pruned run\n  document {doc}, score {score}")?;
    }
    println!(rt; "rare words weigh more")?;
    // the documents before this one are printed, each with its score by how rare words are
    for (doc, score) in answers.rare {
        println!(rt; "  document {doc}, score {score}")?;
    }
    println!(rt; "with what they are rated")?;
    // the documents before this one are printed, each with its score and its rating together
    for (doc, score) in answers.rated {
        println!(rt; "  document {doc}, score {score}")?;
    }
    Ok(())
}

/// Indexes the documents, and answers each use. Whatever takes memory is handed the allocator first,
/// and may be refused.
fn answer(alloc: Global) -> Result<Answers, QueryError> {
    let mut schema = Schema::builder(alloc);
    let body = schema.add_text_field("body", Some(IndexRecordOption::WithFreqsAndPositions), true)?;
    let mut index = Index::new(alloc, schema.build(), 1000, norms(), BLOCK_LEN)?;
    // the texts before this one are documents
    for text in &TEXTS {
        index.add_document(
            alloc,
            vec![in alloc; (body, String::from_str(alloc, text)?)]?,
        )?;
    }
    index.refresh(alloc)?;
    answer_of(alloc, index.searcher(), body)
}

/// Answers each use over a searcher, those of one segment for its first.
fn answer_of(alloc: Global, searcher: &Searcher, body: Field) -> Result<Answers, QueryError> {
    let Some(reader) = searcher.segment_reader(0) else {
        return Err(QueryError::NoSuchSegment(0));
    };
    let quick = Term::from_field_text(alloc, body, "quick")?;
    let fox = Term::from_field_text(alloc, body, "fox")?;
    let dog = Term::from_field_text(alloc, body, "dog")?;
    let cat = Term::from_field_text(alloc, body, "cat")?;
    let query = phrase_and_words(alloc, quick, fox, dog, cat)?;
    let weight = query.weight(alloc, EnableScoring::enabled_from_searcher(searcher))?;
    let rarity = Rarity::new(reader, searcher);
    Ok(Answers {
        best: best_documents(alloc, &query, searcher, 2)?,
        totals: sum_up(alloc, &*weight, reader)?,
        best_of_segment: best_document(alloc, &*weight, reader)?,
        rare: rare_words_first(alloc, &query, &rarity, searcher, reader)?,
        rated: rated_matches(alloc, &*weight, reader, &RATINGS)?,
    })
}

/// The norm of each length id: a document is as long as it has words.
fn norms() -> [u32; 256] {
    let mut norms = [0; 256];
    // each id before this one has itself as its norm
    for (id, norm) in norms.iter_mut().enumerate() {
        *norm = id as u32;
    }
    norms
}
