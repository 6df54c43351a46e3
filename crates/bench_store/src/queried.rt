//! A stored segment that is read.

ghost use Rattle.std.specs.Prelude.{IfOk};
ghost use Rattle.qm_docset.specs.Lists.{IsPlaced};
ghost use Rattle.qm_store.specs.Wanted.{AreApart};

use crate::given::{BODY, KEPT, norms, schema};
use crate::steps::Step;
use crate::stopped::Stopped;
use crate::written::KEY;
use qm_combine::Scorer;
use qm_docset::{Score, TERMINATED};
use qm_postings::SegmentReader;
use qm_schema::{Field, IndexRecordOption, Schema, Term};
use qm_store::{SegmentFile, StoredSegment, Wanted, wanted_of};
use qm_term::{Bm25Weight, TermScorer};
use std::alloc::Global;
use std::fs;

/// Opens the segment of a file, reads so much of the row of a word, and scores all documents that have it.
pub fn query(
    rt: &HostRuntime,
    file: &str,
    word: &str,
    kept: IndexRecordOption,
) -> Result<(), Stopped> {
    let schema = schema(rt.alloc(), kept)?;
    let stored = open(rt, file, &schema)?;
    let term = Term::from_field_text(rt.alloc(), Field::from_field_id(BODY), word)?;
    let segment = read_row(rt, &stored, &schema, &term)?;
    tell(rt, &segment, &term)
}

// The segment of what a query of a term wants.
fn read_row(
    rt: &HostRuntime,
    stored: &StoredSegment<SegmentFile>,
    schema: &Schema,
    term: &Term,
) -> Result<SegmentReader, Stopped> {
    let step = Step::begin(rt)?;
    let wanted = wanted_for(rt.alloc(), term)?;
    let segment = stored.with_wanted(rt.alloc(), schema, &wanted)?;
    step.end(rt, "row")?;
    Ok(segment)
}

fn wanted_for(alloc: Global, term: &Term) -> Result<Vec<Wanted>, Stopped>
    ensures { IfOk result (λ wanted. AreApart wanted.items) }
{
    let mut terms = Vec::with_capacity(alloc, 1)?;
    terms.push(term.clone(alloc)?)?;
    Ok(wanted_of(alloc, terms, Vec::new(alloc))?)
}

// Tells how many documents have a term, and where it stands in them.
fn tell(rt: &HostRuntime, segment: &SegmentReader, term: &Term) -> Result<(), Stopped> {
    let step = Step::begin(rt)?;
    let (found, _score) = score_term(segment, term)?;
    step.end(rt, "score")?;
    println!(rt; "found {found}")?;
    Ok(println!(rt; "positions {}", position_count(segment))?)
}

/// Opens the segment of a file, and reads all of it.
pub fn read_whole(rt: &HostRuntime, file: &str) -> Result<(), Stopped> {
    let schema = schema(rt.alloc(), KEPT)?;
    let stored = open(rt, file, &schema)?;
    read_all(rt, &stored, &schema)
}

fn read_all(
    rt: &HostRuntime,
    stored: &StoredSegment<SegmentFile>,
    schema: &Schema,
) -> Result<(), Stopped> {
    let step = Step::begin(rt)?;
    let segment = stored.whole(rt.alloc(), schema)?;
    step.end(rt, "whole")?;
    Ok(println!(rt; "terms {}", segment.row_count())?)
}

fn open(
    rt: &HostRuntime,
    file: &str,
    schema: &Schema,
) -> Result<StoredSegment<SegmentFile>, Stopped> {
    let step = Step::begin(rt)?;
    let file = SegmentFile::new(fs::open(rt, file)?)?;
    let stored = StoredSegment::open(rt.alloc(), file, schema, KEY)?;
    step.end(rt, "open")?;
    Ok(stored)
}

// How many documents have a term, and what they score together.
fn score_term(segment: &SegmentReader, term: &Term) -> Result<(u64, Score), Stopped> {
    let weight = Bm25Weight::new(1000, norms())?;
    match TermScorer::for_term(segment, term, IndexRecordOption::WithFreqs, &weight) {
        Some(scorer) => Ok(score_all(scorer)),
        None => Ok((0, 0)),
    }
}

// How many documents a scorer has left, and what they score together.
fn score_all<S: Scorer>(mut scorer: S) -> (u64, Score)
    requires { IsPlaced S.DocSet scorer }
{
    let mut found = 0u64;
    let mut score: Score = 0;
    let mut doc = scorer.doc();
    // the scorer stands on this document
    while doc < TERMINATED {
        found = found.wrapping_add(1);
        score = score.wrapping_add(scorer.score());
        doc = scorer.advance();
    }
    (found, score)
}

// How many positions the row has that was read.
fn position_count(segment: &SegmentReader) -> usize {
    if segment.row_count() == 0 {
        return 0;
    }
    segment.row(0).positions().len()
}
