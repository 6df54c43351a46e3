//! Leaves of trees.

ghost use Rattle.std.specs.Prelude.{◌≤ℤ◌, IfOk, pos};
ghost use Rattle.qm_docset.specs.Lists.{IsPlaced};

use crate::similarity::read_similarity;
use crate::tree::{Source, Tree};
use crate::weight_nodes::{phrase_prefix_weight, phrase_weight};
use cases::{Fault, Leaf, behind, end_refusals, number, read_documents, read_leaf, score, word};
use cases_given::{Form, add_all, read_term};
use qm_combine::{AllScorer, ConstScorer, EmptyScorer};
use qm_docset::{BitSet, BitSetDocSet, DocSet, Score, TERMINATED};
use qm_schema::{IndexRecordOption, QueryError};
use qm_scorer::AnyScorer;
use qm_term::TermScorer;
use qm_weight::Weight;
use std::alloc::Global;

/// `empty`, `all N`, `own LEAF .`, `bits MAX DOC.. .`, `term W WEIGHT`, and the phrases.
pub fn build_leaf<'a>(alloc: Global, source: Source<'a>, form: Form<'_>) -> Result<Tree<'a>, Fault>
    ensures { IfOk result (IsPlaced ⟦<AnyScorer<'a, Leaf<'a>> as DocSet>⟧) }
{
    match form.name {
        "empty" => Ok(AnyScorer::Empty(EmptyScorer)),
        "all" => build_all(form.words),
        "own" => build_own(alloc, source, form),
        "bits" => build_bits(alloc, form),
        "term" => build_term(alloc, source, form.words),
        "phrase" => build_phrase(alloc, source, form),
        _ => build_prefix(alloc, source, form),
    }
}

fn build_all<'a>(words: &[&str]) -> Result<Tree<'a>, Fault>
    ensures { IfOk result (IsPlaced ⟦<AnyScorer<'a, Leaf<'a>> as DocSet>⟧) }
{
    match number(words, 0) {
        Some(max_doc) if max_doc <= TERMINATED => Ok(AnyScorer::All(AllScorer::new(max_doc))),
        _ => Err(Fault::NotUnderstood),
    }
}

// The words before the full stop that ends them.
fn before_stop<'a, 'b>(words: &'b [&'a str]) -> Result<&'b [&'a str], Fault> {
    match words {
        [before @ .., "."] => Ok(before),
        _ => Err(Fault::NotUnderstood),
    }
}

fn build_own<'a>(alloc: Global, source: Source<'a>, form: Form<'_>) -> Result<Tree<'a>, Fault>
    ensures { IfOk result (IsPlaced ⟦<AnyScorer<'a, Leaf<'a>> as DocSet>⟧) }
{
    let words = before_stop(form.words)?;
    Ok(AnyScorer::Own(read_leaf(alloc, words, form.is_first, source.moves)?))
}

// `MAX DOC..`, or `MAX score S DOC..`.
fn build_bits<'a>(alloc: Global, form: Form<'_>) -> Result<Tree<'a>, Fault>
    ensures { IfOk result (IsPlaced ⟦<AnyScorer<'a, Leaf<'a>> as DocSet>⟧) }
{
    let words = before_stop(form.words)?;
    let is_scored = word(words, 1) == "score";
    let max_value = number(words, 0).ok_or(Fault::NotUnderstood)?;
    let score = read_score(words, is_scored)?;
    let docs = read_documents(alloc, behind(words, if is_scored { 3 } else { 1 }))?;
    form.memory.begin(alloc);
    let made = BitSet::with_max_value(alloc, max_value);
    end_refusals(alloc);
    match made {
        Ok(set) => bits_of(alloc, set, docs.as_slice(), score),
        Err(_) => Err(Fault::Refused(QueryError::Memory)),
    }
}

fn read_score(words: &[&str], is_scored: bool) -> Result<Score, Fault>
    ensures { IfOk result (λ s. pos 0 ≤ℤ s) }
{
    if !is_scored {
        return Ok(1);
    }
    match score(words, 2) {
        Some(score) => Ok(score),
        None => Err(Fault::NotUnderstood),
    }
}

// The members of a set, to which these are added.
fn bits_of<'a>(
    alloc: Global,
    mut set: BitSet,
    docs: &[u32],
    score: Score,
) -> Result<Tree<'a>, Fault>
    requires { pos 0 ≤ℤ score }
    ensures { IfOk result (IsPlaced ⟦<AnyScorer<'a, Leaf<'a>> as DocSet>⟧) }
{
    let are_below = add_all(&mut set, docs);
    if !are_below || set.max_value() > TERMINATED {
        return Err(Fault::NotUnderstood);
    }
    let members = ConstScorer::new(BitSetDocSet::new(set), score);
    Ok(AnyScorer::BitSet(Box::new(alloc, members)?))
}

fn build_term<'a>(alloc: Global, source: Source<'a>, words: &[&str]) -> Result<Tree<'a>, Fault>
    ensures { IfOk result (IsPlaced ⟦<AnyScorer<'a, Leaf<'a>> as DocSet>⟧) }
{
    let searcher = &source.world.searcher;
    let weight = read_similarity(searcher, word(words, 1))?;
    let term = read_term(alloc, searcher.schema(), word(words, 0))?;
    let segment = source.world.segment(0)?;
    match TermScorer::for_term(segment, &term, IndexRecordOption::WithFreqs, &weight) {
        Some(scorer) => Ok(AnyScorer::Term(Box::new(alloc, scorer)?)),
        None => Ok(AnyScorer::Empty(EmptyScorer)),
    }
}

// The scorer that the weight of a phrase builds.
fn build_phrase<'a>(alloc: Global, source: Source<'a>, form: Form<'_>) -> Result<Tree<'a>, Fault>
    ensures { IfOk result (IsPlaced ⟦<AnyScorer<'a, Leaf<'a>> as DocSet>⟧) }
{
    let segment = source.world.segment(0)?;
    let weight = phrase_weight(alloc, &source.world.searcher, form.words)?;
    form.memory.begin(alloc);
    let made = weight.scorer(alloc, segment, 1);
    end_refusals(alloc);
    match made {
        Ok(scorer) => Ok(scorer),
        Err(error) => Err(Fault::Refused(error)),
    }
}

fn build_prefix<'a>(alloc: Global, source: Source<'a>, form: Form<'_>) -> Result<Tree<'a>, Fault>
    ensures { IfOk result (IsPlaced ⟦<AnyScorer<'a, Leaf<'a>> as DocSet>⟧) }
{
    let segment = source.world.segment(0)?;
    let weight = phrase_prefix_weight(alloc, &source.world.searcher, form.words)?;
    form.memory.begin(alloc);
    let made = weight.scorer(alloc, segment, 1);
    end_refusals(alloc);
    match made {
        Ok(scorer) => Ok(scorer),
        Err(error) => Err(Fault::Refused(error)),
    }
}
