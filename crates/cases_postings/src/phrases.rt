//! Blocks of phrases over postings of the cases' own.

ghost use Rattle.std.specs.Prelude.{◌≤◌, All, IfOk, length, vec_len};
ghost use Rattle.qm_phrase.specs.PhraseTerms.{members_of, offsets_of};
ghost use Rattle.cases_postings.specs.GivenTerms.{IsGiven};
ghost use Rattle.qm_docset.specs.Lists.{IsPlaced};

use crate::bench::Bench;
use crate::given_terms::{GivenTerm, read_given, share};
use crate::making::play_owned;
use crate::member::{read_members, read_suffixes, read_terms};
use crate::own_postings::OwnPostings;
use crate::spelled::{read_number, read_weight_or_none};
use cases::{
    Asker, Block, Done, Fault, Listing, Memory, Report, behind, end_refusals, word, words_of,
};
use qm_docset::{DocSet, TERMINATED};
use qm_phrase::{PhrasePrefixScorer, PhraseScorer, PhraseTerms, SimpleUnion};
use qm_postings::{FieldNormReader, Postings};
use qm_term::Bm25Weight;
use std::alloc::Global;

/// How a phrase is scored: in documents that all have one length id.
#[derive(Clone, Copy)]
struct Scoring {
    weight: Option<Bm25Weight>,
    length_id: u8,
}

// The scoring that `ID WEIGHT` spells, behind two other words.
fn read_scoring(words: &[&str]) -> Result<Scoring, Fault> {
    let Ok(length_id) = word(words, 2).parse() else {
        return Err(Fault::NotUnderstood);
    };
    let weight = read_weight_or_none(word(words, 3))?;
    Ok(Scoring { weight, length_id })
}

/// Plays `phrase SLOP ID WEIGHT OFFSET:POSITIONS ..`, where `OFFSET~NUMBER` shares the postings of this
/// number.
pub fn play_phrase(alloc: Global, bench: &Bench, block: Block<'_>, report: &mut Report) -> Done {
    let slop = read_number(word(block.words, 1))?;
    let scoring = read_scoring(block.words)?;
    let given = read_given(alloc, behind(block.words, 4))?;
    if given.len() < 2 {
        return Err(Fault::NotAllowed);
    }
    block.memory.begin(alloc);
    let scorer = make_shared(alloc, given, scoring, slop)?;
    play_owned(alloc, &bench.alive, scorer, block.rows, report)
}

// The scorer of a phrase, some terms of which may share their postings.
fn make_shared(
    alloc: Global,
    given: Vec<GivenTerm>,
    scoring: Scoring,
    slop: u32,
) -> Result<PhraseScorer<'static, OwnPostings>, Fault>
    requires two { 2 ≤ vec_len given }
    requires given { All IsGiven given.items }
    ensures { IfOk result (IsPlaced ⟦<PhraseScorer<'static, OwnPostings> as DocSet>⟧) }
{
    let terms = share(alloc, given)?;
    phrase_over(alloc, terms, scoring, slop, TERMINATED)
}

// The scorer of these terms in so many documents.
fn phrase_over<P: Postings>(
    alloc: Global,
    terms: PhraseTerms<P>,
    scoring: Scoring,
    slop: u32,
    num_docs: u32,
) -> Result<PhraseScorer<'static, P>, Fault>
    requires all { TERMINATED ≤ num_docs }
    requires two { 2 ≤ length (offsets_of terms) }
    requires valid { All P.valid (members_of terms) }
    requires offsets { All (λ offset. offset ≤ 4294967295) (offsets_of terms) }
    ensures { IfOk result (IsPlaced ⟦<PhraseScorer<'static, P> as DocSet>⟧) }
{
    let reader = FieldNormReader::constant(num_docs, scoring.length_id);
    Ok(PhraseScorer::over_terms(alloc, terms, scoring.weight, reader, slop)?)
}

// The scorer of a phrase in so many documents; some requests for memory are refused as it is made.
fn make_phrase<P: Postings>(
    alloc: Global,
    terms: Vec<(usize, P)>,
    scoring: Scoring,
    slop: u32,
    num_docs: u32,
    memory: Memory,
) -> Result<PhraseScorer<'static, P>, Fault>
    requires all { TERMINATED ≤ num_docs }
    requires two { 2 ≤ vec_len terms }
    requires valid { All (λ pair. P.valid pair.1) terms.items }
    requires offsets { All (λ pair. pair.0 ≤ 4294967295) terms.items }
    ensures { IfOk result (IsPlaced ⟦<PhraseScorer<'static, P> as DocSet>⟧) }
{
    let reader = FieldNormReader::constant(num_docs, scoring.length_id);
    memory.begin(alloc);
    let made = PhraseScorer::new(alloc, terms, scoring.weight, reader, slop);
    end_refusals(alloc);
    Ok(made?)
}

/// Plays `prefix OFFSET ID WEIGHT OFFSET:POSITIONS .. ; :POSITIONS ..`, the first offset that of the
/// prefix, where `OFFSET~NUMBER` shares the postings of this number.
pub fn play_prefix(alloc: Global, bench: &Bench, block: Block<'_>, report: &mut Report) -> Done {
    let offset = read_number(word(block.words, 1))?;
    let scoring = read_scoring(block.words)?;
    let (full, ends) = halves(behind(block.words, 4));
    let given = read_given(alloc, full)?;
    if given.is_empty() {
        return Err(Fault::NotAllowed);
    }
    let suffixes = read_suffixes(alloc, ends)?;
    block.memory.begin(alloc);
    let scorer = make_prefix(alloc, given, scoring, suffixes, offset)?;
    play_owned(alloc, &bench.alive, scorer, block.rows, report)
}

// The words before the first `;`, and those behind it.
fn halves<'a, 'b>(words: &'b [&'a str]) -> (&'b [&'a str], &'b [&'a str]) {
    let count = words.len();
    let at = words
        .iter()
        .position(|word| *word == ";")
        .unwrap_or(count)
        .min(count);
    (&words[..at], behind(words, at.saturating_add(1)))
}

// The scorer of a phrase prefix at this offset, some terms of which may share their postings.
fn make_prefix(
    alloc: Global,
    given: Vec<GivenTerm>,
    scoring: Scoring,
    suffixes: Vec<OwnPostings>,
    offset: u32,
) -> Result<PhrasePrefixScorer<'static, OwnPostings>, Fault>
    requires some { 1 ≤ vec_len given }
    requires given { All IsGiven given.items }
    requires suffixes { All ⟦<OwnPostings as DocSet>⟧.valid suffixes.items }
    ensures { IfOk result (IsPlaced ⟦<PhrasePrefixScorer<'static, OwnPostings> as DocSet>⟧) }
{
    let terms = share(alloc, given)?;
    prefix_over(alloc, terms, scoring, suffixes, offset, TERMINATED)
}

// The same of these terms in so many documents.
fn prefix_over<P: Postings>(
    alloc: Global,
    terms: PhraseTerms<P>,
    scoring: Scoring,
    suffixes: Vec<P>,
    offset: u32,
    num_docs: u32,
) -> Result<PhrasePrefixScorer<'static, P>, Fault>
    requires all { TERMINATED ≤ num_docs }
    requires some { 1 ≤ length (offsets_of terms) }
    requires valid { All P.valid (members_of terms) }
    requires offsets { All (λ offset. offset ≤ 4294967295) (offsets_of terms) }
    requires suffixes { All P.valid suffixes.items }
    ensures { IfOk result (IsPlaced ⟦<PhrasePrefixScorer<'static, P> as DocSet>⟧) }
{
    let reader = FieldNormReader::constant(num_docs, scoring.length_id);
    let offset = offset as usize;
    let weight = scoring.weight;
    Ok(PhrasePrefixScorer::over_terms(alloc, terms, weight, reader, suffixes, offset)?)
}

/// Plays `unionphrase SLOP ID WEIGHT OFFSET@MEMBER+MEMBER ..`.
pub fn play_union_phrase(
    alloc: Global,
    bench: &Bench,
    block: Block<'_>,
    report: &mut Report,
) -> Done {
    let slop = read_number(word(block.words, 1))?;
    let scoring = read_scoring(block.words)?;
    let terms = read_unions(alloc, behind(block.words, 4))?;
    if terms.len() < 2 {
        return Err(Fault::NotAllowed);
    }
    let scorer = make_phrase(alloc, terms, scoring, slop, TERMINATED, block.memory)?;
    play_owned(alloc, &bench.alive, scorer, block.rows, report)
}

// Unions, each with its offset.
fn read_unions(
    alloc: Global,
    words: &[&str],
) -> Result<Vec<(usize, SimpleUnion<OwnPostings>)>, Fault>
    ensures valid { IfOk result (λ row. All (λ pair. ⟦<SimpleUnion<OwnPostings> as DocSet>⟧.valid pair.1) row.items) }
    ensures offsets { IfOk result (λ row. All (λ pair. pair.0 ≤ 4294967295) row.items) }
{
    let mut row = Vec::new(alloc);
    // all members so far are cursors, at offsets of 32 bits
    for spelled in words {
        let Some((offset, members)) = spelled.split_once('@') else {
            return Err(Fault::NotUnderstood);
        };
        let offset = read_number(offset)?;
        row.push((offset as usize, read_union(alloc, members)?))?;
    }
    Ok(row)
}

fn read_union(alloc: Global, spelled: &str) -> Result<SimpleUnion<OwnPostings>, Fault>
    ensures { IfOk result (IsPlaced ⟦<SimpleUnion<OwnPostings> as DocSet>⟧) }
{
    let mut words = Vec::new(alloc);
    // the members before this one are among the words
    for member in spelled.split('+') {
        words.push(member)?;
    }
    Ok(SimpleUnion::build(read_members(alloc, &words)?))
}

/// Rows that say how many starts a phrase of this slop has, by the words `OFFSET:POSITIONS ..`.
#[derive(Drop)]
pub struct PhraseCountRows {
    pub slop: u32,
    pub weight: Bm25Weight,
}

impl Asker for PhraseCountRows {
    fn ask(&mut self, alloc: Global, call: &str, memory: Memory, text: &mut Listing) -> Done {
        let terms = read_terms(alloc, &words_of(alloc, call)?)?;
        if terms.len() < 2 {
            return Err(Fault::NotAllowed);
        }
        let scoring = Scoring {
            weight: Some(self.weight),
            length_id: 4,
        };
        let scorer = make_phrase(alloc, terms, scoring, self.slop, TERMINATED, memory)?;
        let count = if scorer.doc() < TERMINATED {
            scorer.phrase_count()
        } else {
            0
        };
        Ok(write!(text, "{count}"))
    }
}
