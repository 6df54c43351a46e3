//! Nodes of trees over any number of scorers.

ghost use Rattle.std.specs.Prelude.{◌≤◌, IfOk, IfSome};
ghost use Rattle.qm_docset.specs.Lists.{ArePlaced, IsPlaced};

use crate::combiners::{combiner_len, read_combiner};
use crate::tree::{Tree, take_many};
use cases::{Fault, Leaf, end_refusals, number, word};
use cases_given::Form;
use qm_docset::DocSet;
use qm_scorer::{AnyCombiner, AnyScorer, at_least, exclude, intersect_scorers, union};
use std::alloc::Global;

// how many documents the segment of an intersection has where nothing else is said
const DOCUMENTS: u32 = 1000;

/// `intersection N T..`, `intersection N in DOCS T..`, `union COMBINER N T..`, `atleast COMBINER MIN N T..`
/// and `exclude N T T..`, which keeps the first.
pub fn build_group<'a>(
    alloc: Global,
    form: Form<'_>,
    trees: &mut Vec<Tree<'a>>,
) -> Result<Tree<'a>, Fault>
    requires { ArePlaced ⟦<AnyScorer<'a, Leaf<'a>> as DocSet>⟧ trees.old.items }
    ensures made { IfOk result (IsPlaced ⟦<AnyScorer<'a, Leaf<'a>> as DocSet>⟧) }
    ensures left { ArePlaced ⟦<AnyScorer<'a, Leaf<'a>> as DocSet>⟧ trees.new.items }
{
    let Some(count) = count_members(form) else {
        return Err(Fault::NotUnderstood);
    };
    match form.name {
        "union" => {
            let combiner = read_combiner(form.words)?;
            build_union(alloc, form, combiner, take_many(alloc, trees, count)?)
        }
        "atleast" => {
            let combiner = read_combiner(form.words)?;
            let minimum = read_minimum(form.words)?;
            build_at_least(
                alloc,
                form,
                combiner,
                minimum,
                take_many(alloc, trees, count)?,
            )
        }
        "exclude" => build_exclude(alloc, form, take_many(alloc, trees, count)?),
        _ => build_intersection(alloc, form, take_many(alloc, trees, count)?),
    }
}

// How many trees a node takes: the last of its words, but for `intersection N in DOCS`.
fn count_members(form: Form<'_>) -> Option<u32> {
    if form.name == "intersection" {
        return number(form.words, 0);
    }
    let last = number(form.words, form.words.len().saturating_sub(1))?;
    // an exclusion has the tree too of which it leaves out what the others have
    if form.name == "exclude" {
        last.checked_add(1)
    } else if word(form.words, 1) == "" {
        None
    } else {
        Some(last)
    }
}

fn build_intersection<'a>(
    alloc: Global,
    form: Form<'_>,
    members: Vec<Tree<'a>>,
) -> Result<Tree<'a>, Fault>
    requires { ArePlaced ⟦<AnyScorer<'a, Leaf<'a>> as DocSet>⟧ members.items }
    ensures { IfOk result (IsPlaced ⟦<AnyScorer<'a, Leaf<'a>> as DocSet>⟧) }
{
    let documents = if word(form.words, 1) == "in" {
        number(form.words, 2).unwrap_or(DOCUMENTS)
    } else {
        DOCUMENTS
    };
    form.memory.begin(alloc);
    let made = intersect_scorers(alloc, members, documents);
    end_refusals(alloc);
    Ok(made?)
}

fn build_union<'a>(
    alloc: Global,
    form: Form<'_>,
    combiner: AnyCombiner,
    members: Vec<Tree<'a>>,
) -> Result<Tree<'a>, Fault>
    requires { ArePlaced ⟦<AnyScorer<'a, Leaf<'a>> as DocSet>⟧ members.items }
    ensures { IfOk result (IsPlaced ⟦<AnyScorer<'a, Leaf<'a>> as DocSet>⟧) }
{
    form.memory.begin(alloc);
    let made = union(alloc, members, combiner);
    end_refusals(alloc);
    Ok(made?)
}

fn build_at_least<'a>(
    alloc: Global,
    form: Form<'_>,
    combiner: AnyCombiner,
    minimum: usize,
    members: Vec<Tree<'a>>,
) -> Result<Tree<'a>, Fault>
    requires minimum { 1 ≤ minimum }
    requires members { ArePlaced ⟦<AnyScorer<'a, Leaf<'a>> as DocSet>⟧ members.items }
    ensures { IfOk result (IsPlaced ⟦<AnyScorer<'a, Leaf<'a>> as DocSet>⟧) }
{
    form.memory.begin(alloc);
    let made = at_least(alloc, members, combiner, minimum);
    end_refusals(alloc);
    Ok(made?)
}

// The minimum behind a combiner, which is at least 1.
fn read_minimum(words: &[&str]) -> Result<usize, Fault>
    ensures { IfOk result (λ minimum. 1 ≤ minimum) }
{
    match word(words, combiner_len(words)).parse::<usize>() {
        Ok(minimum) if minimum >= 1 => Ok(minimum),
        Ok(_) => Err(Fault::NotAllowed),
        Err(_) => Err(Fault::NotUnderstood),
    }
}

fn build_exclude<'a>(
    alloc: Global,
    form: Form<'_>,
    members: Vec<Tree<'a>>,
) -> Result<Tree<'a>, Fault>
    requires { ArePlaced ⟦<AnyScorer<'a, Leaf<'a>> as DocSet>⟧ members.items }
    ensures { IfOk result (IsPlaced ⟦<AnyScorer<'a, Leaf<'a>> as DocSet>⟧) }
{
    let mut members = members;
    if members.is_empty() {
        return Err(Fault::NotUnderstood);
    }
    let kept = members.remove(0);
    form.memory.begin(alloc);
    let made = exclude(alloc, kept, members);
    end_refusals(alloc);
    Ok(made?)
}
