//! Trees of scorers in front form, read from the last word to the first: what stands behind a word is
//! made already.

ghost use Rattle.std.specs.Prelude.{IfOk};
ghost use Rattle.qm_docset.specs.Lists.{ArePlaced, IsPlaced};

use crate::group_nodes::build_group;
use crate::leaves::build_leaf;
use crate::nodes::{build_over, build_two, read_factor};
use cases::{Fault, Leaf, Memory, Moves};
use cases_given::{Form, World, has_word};
use qm_docset::DocSet;
use qm_scorer::AnyScorer;
use std::alloc::Global;

/// A tree over cursors of the cases' own.
pub type Tree<'a> = AnyScorer<'a, Leaf<'a>>;

/// What trees are made of.
#[derive(Clone, Copy)]
pub struct Source<'a> {
    pub world: &'a World,
    pub moves: &'a Moves,
    /// which requests for memory are refused as the root is made
    pub memory: Memory,
}

/// The tree that words spell.
pub fn read_tree<'a>(alloc: Global, source: Source<'a>, words: &[&str]) -> Result<Tree<'a>, Fault>
    ensures { IfOk result (IsPlaced ⟦<AnyScorer<'a, Leaf<'a>> as DocSet>⟧) }
{
    let mut trees = read_words(alloc, source, words)?;
    if trees.len() > 1 {
        return Err(Fault::NotUnderstood);
    }
    take(&mut trees)
}

// The trees that words spell one behind another, the first one last.
fn read_words<'a>(alloc: Global, source: Source<'a>, words: &[&str]) -> Result<Vec<Tree<'a>>, Fault>
    ensures { IfOk result (λ trees. ArePlaced ⟦<AnyScorer<'a, Leaf<'a>> as DocSet>⟧ trees.items) }
{
    let mut trees = Vec::new(alloc);
    let mut end = words.len();
    // the trees are those of the words from `end` on
    for at in (0..words.len()).rev() {
        let name = words[at];
        if is_name(name) && at < end {
            let form = Form {
                name,
                words: &words[at + 1..end],
                is_first: !has_word(&words[..at], name),
                memory: if at == 0 {
                    source.memory
                } else {
                    Memory::Ample
                },
            };
            let tree = build(alloc, source, form, &mut trees)?;
            trees.push(tree)?;
            end = at;
        }
    }
    if end > 0 {
        return Err(Fault::NotUnderstood);
    }
    Ok(trees)
}

fn is_name(word: &str) -> bool {
    match word {
        "empty"
        | "all"
        | "own"
        | "bits"
        | "term"
        | "phrase"
        | "prefix"
        | "boost"
        | "const"
        | "optional"
        | "exclude"
        | "union"
        | "atleast"
        | "intersection" => true,
        _ => false,
    }
}

// The tree of a form, over trees that are made.
fn build<'a>(
    alloc: Global,
    source: Source<'a>,
    form: Form<'_>,
    trees: &mut Vec<Tree<'a>>,
) -> Result<Tree<'a>, Fault>
    requires { ArePlaced ⟦<AnyScorer<'a, Leaf<'a>> as DocSet>⟧ trees.old.items }
    ensures made { IfOk result (IsPlaced ⟦<AnyScorer<'a, Leaf<'a>> as DocSet>⟧) }
    ensures left { ArePlaced ⟦<AnyScorer<'a, Leaf<'a>> as DocSet>⟧ trees.new.items }
{
    match form.name {
        "empty" | "all" | "own" | "bits" | "term" | "phrase" | "prefix" => {
            build_leaf(alloc, source, form)
        }
        "boost" | "const" => {
            let factor = read_factor(form)?;
            build_over(alloc, form, factor, take(trees)?)
        }
        "optional" => {
            let required = take(trees)?;
            build_two(alloc, form, required, take(trees)?)
        }
        _ => build_group(alloc, form, trees),
    }
}

fn take<'a>(trees: &mut Vec<Tree<'a>>) -> Result<Tree<'a>, Fault>
    requires { ArePlaced ⟦<AnyScorer<'a, Leaf<'a>> as DocSet>⟧ trees.old.items }
    ensures made { IfOk result (IsPlaced ⟦<AnyScorer<'a, Leaf<'a>> as DocSet>⟧) }
    ensures left { ArePlaced ⟦<AnyScorer<'a, Leaf<'a>> as DocSet>⟧ trees.new.items }
{
    match trees.pop() {
        Some(tree) => Ok(tree),
        None => Err(Fault::NotUnderstood),
    }
}

/// The trees that were made last, so many, in order.
pub fn take_many<'a>(
    alloc: Global,
    trees: &mut Vec<Tree<'a>>,
    count: u32,
) -> Result<Vec<Tree<'a>>, Fault>
    requires { ArePlaced ⟦<AnyScorer<'a, Leaf<'a>> as DocSet>⟧ trees.old.items }
    ensures made { IfOk result (λ members. ArePlaced ⟦<AnyScorer<'a, Leaf<'a>> as DocSet>⟧ members.items) }
    ensures left { ArePlaced ⟦<AnyScorer<'a, Leaf<'a>> as DocSet>⟧ trees.new.items }
{
    let mut members = Vec::new(alloc);
    // what was taken and what is left is placed
    for _ in 0..count {
        members.push(take(trees)?)?;
    }
    Ok(members)
}
