//! An example of use, and the first code to read: it indexes three documents, and prints those that
//! hold two terms, each with its score; then those that hold either of them, without one that was
//! found elsewhere.
//!
//! `one_document` is a cursor of one's own and `greatest_score` a combiner: the library takes them as
//! it takes its own. `changed_files` has the files of an index that is brought up to date.
#![tactic(auto)]

mod changed_files;
mod greatest_score;
mod one_document;

ghost use Rattle.std.specs.Prelude.{◌≡◌, IfOk, IfSome};
ghost use Rattle.example_search.specs.Both.{in_both, with_scores};
ghost use Rattle.qm_term.specs.Bm25Weight.{weighing};

use changed_files::updated;
use greatest_score::GreatestScore;
use one_document::OneDocument;
use qm_combine::{BufferedUnionScorer, Exclude, Intersection, scores_left};
use qm_docset::{DocId, DocSet, Score};
use qm_folder::KeptFile;
use qm_postings::{PlainDoc, SegmentBuilder, SegmentReader};
use qm_schema::{Field, IndexRecordOption, QueryError, Schema, Term};
use qm_term::{Bm25Weight, TermScorer};
use std::alloc::Global;
use std::io;

const TEXTS: [&str; 3] = [
    "the quick fox",
    "the lazy dog",
    "the quick fox and the lazy dog and the other fox",
];

/// How many postings a block has.
const BLOCK_LEN: u32 = 128;

/// What of a term's postings is kept and read: documents, and how often the term stands there.
const OPTION: IndexRecordOption = IndexRecordOption::WithFreqs;

/// Documents, each with its score.
type Found = Vec<(DocId, Score)>;

fn main(rt: HostRuntime) -> io::Result<()> {
    match search(rt.alloc()) {
        Ok(answers) => print_answers(&rt, &answers)?,
        Err(error) => return println!(rt; "refused: {error}"),
    }
    match updated(rt.alloc()) {
        Ok(files) => print_files(&rt, &files),
        Err(error) => println!(rt; "refused: {error}"),
    }
}

fn print_answers(rt: &HostRuntime, answers: &[(&'static str, Found)]) -> io::Result<()> {
    // the queries before this one are printed, each with what it found
    for (query, found) in answers {
        println!(rt; "{query}")?;
        // the documents before this one are printed, each with its score
        for (doc, score) in found {
            println!(rt; "  document {doc}, score {score}")?;
        }
    }
    Ok(())
}

fn print_files(rt: &HostRuntime, files: &[KeptFile]) -> io::Result<()> {
    println!(rt; "the files of the index")?;
    // the files before this one are printed
    for file in files {
        let path = str::from_utf8(&file.path).unwrap_or("no text");
        println!(rt; "  {path}, {} bytes", file.stamp.size)?;
    }
    Ok(())
}

/// Indexes the documents, and answers two queries. Whatever takes memory is handed the allocator
/// first, and may be refused.
fn search(alloc: Global) -> Result<Vec<(&'static str, Found)>, QueryError> {
    let mut schema = Schema::builder(alloc);
    let body = schema.add_text_field("body", Some(OPTION), true)?;
    let segment = segment_of(alloc, &schema.build(), body, &TEXTS)?;
    answers(alloc, &segment, body)
}

/// Answers the queries over a segment.
fn answers(
    alloc: Global,
    segment: &SegmentReader,
    body: Field,
) -> Result<Vec<(&'static str, Found)>, QueryError> {
    let fox = Term::from_field_text(alloc, body, "fox")?;
    let lazy = Term::from_field_text(alloc, body, "lazy")?;
    answers_of(alloc, segment, &fox, &lazy)
}

/// The same, of these terms.
fn answers_of(
    alloc: Global,
    segment: &SegmentReader,
    fox: &Term,
    lazy: &Term,
) -> Result<Vec<(&'static str, Found)>, QueryError> {
    let weight = Bm25Weight::new(1000, norms())?;
    let mut answers = Vec::with_capacity(alloc, 2)?;
    let both = both(alloc, segment, fox, lazy, &weight)?.unwrap_or(Vec::new(alloc));
    answers.push(("fox and lazy", both))?;
    let either = either(alloc, segment, fox, lazy, &weight)?;
    answers.push(("fox or lazy, without 1", either))?;
    Ok(answers)
}

/// A segment of documents with one field, of these texts.
fn segment_of(
    alloc: Global,
    schema: &Schema,
    body: Field,
    texts: &[&str],
) -> Result<SegmentReader, QueryError> {
    let mut segment = SegmentBuilder::new(alloc, schema, BLOCK_LEN)?;
    add_texts(alloc, &mut segment, body, texts)?;
    segment.build(alloc)
}

/// Adds a document of each text. What is held at few exits is proved soon: so this function is lent the segment.
fn add_texts(
    alloc: Global,
    segment: &mut SegmentBuilder,
    body: Field,
    texts: &[&str],
) -> Result<(), QueryError> {
    // the texts before this one are documents
    for text in texts {
        let mut document = PlainDoc::new(alloc);
        document.add_text(body, text)?;
        segment.add_document(document)?;
    }
    Ok(())
}

/// The norm of each length id: a document is as long as it has words.
fn norms() -> [u32; 256] {
    let mut norms = [0; 256];
    // each id before this one has itself as its norm
    for (id, norm) in norms.iter_mut().enumerate() {
        *norm = id as u32;
    }
    norms
}

/// The documents that hold both terms, each with the sum of what the terms score there. None where
/// one of the terms is held by no document.
fn both(
    alloc: Global,
    segment: &SegmentReader,
    first: &Term,
    second: &Term,
    weight: &Bm25Weight,
) -> Result<Option<Found>, QueryError>
    ensures { IfOk result (λ found. IfSome found (λ pairs. pairs.items ≡ with_scores (in_both segment.now.segment (weighing weight.now) first.now second.now))) }
{
    let Some(first) = TermScorer::for_term(segment, first, OPTION, weight) else {
        return Ok(None);
    };
    let Some(second) = TermScorer::for_term(segment, second, OPTION, weight) else {
        return Ok(None);
    };
    let members = vec![in alloc; first, second]?;
    let common = Intersection::new(alloc, members, segment.max_doc())?;
    Ok(Some(scores_left(alloc, common)?))
}

/// The documents but 1 that hold either of the terms, each with the greatest of what they score
/// there.
fn either(
    alloc: Global,
    segment: &SegmentReader,
    first: &Term,
    second: &Term,
    weight: &Bm25Weight,
) -> Result<Found, QueryError> {
    let mut members = Vec::with_capacity(alloc, 2)?;
    // the terms before this one have their scorers, where some document holds them
    for term in [first, second] {
        let Some(scorer) = TermScorer::for_term(segment, term, OPTION, weight) else {
            continue;
        };
        members.push(scorer)?;
    }
    let any = BufferedUnionScorer::build(
        alloc,
        members,
        GreatestScore::default(),
        segment.max_doc(),
    )?;
    Ok(scores_left(alloc, Exclude::new(any, OneDocument::new(1)))?)
}
