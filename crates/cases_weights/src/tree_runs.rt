//! Runs over what a tree has left.

ghost use Rattle.qm_docset.specs.Lists.{IsPlaced};

use crate::tree::{Source, Tree, read_tree};
use cases::{
    Asker, Done, Fault, Leaf, Listing, Memory, Pruning, Reply, end_refusals, replies_of,
    threshold_of,
};
use cases_given::{Asked, read_asked};
use qm_docset::{COLLECT_BLOCK_BUFFER_LEN, DocId, DocSet, Score};
use qm_scorer::AnyScorer;
use qm_weight::{for_each_docset_buffered, for_each_pruning_scorer, for_each_scorer};
use std::alloc::Global;

/// Rows of runs, each over the tree of these words, which is made anew.
#[derive(Drop)]
pub struct RunAsker<'a, 'b, 'c> {
    pub source: Source<'a>,
    pub words: &'b [&'c str],
}

impl<'a, 'b, 'c> Asker for RunAsker<'a, 'b, 'c> {
    fn ask(&mut self, alloc: Global, call: &str, memory: Memory, text: &mut Listing) -> Done {
        let asked = read_asked(alloc, call)?;
        if asked == Asked::Prune {
            let threshold = threshold_of(alloc, call)?;
            let replies = replies_of(alloc, call)?;
            let pruning = Pruning {
                text,
                replies: replies.as_slice(),
                last: Reply::ItsScore,
                has_scores: true,
            };
            return prune(alloc, self.source, self.words, threshold, memory, pruning);
        }
        match read_tree(alloc, self.source, self.words) {
            Ok(tree) => run(alloc, tree, asked, memory, text),
            Err(fault) => Err(fault),
        }
    }
}

fn run<'a>(alloc: Global, tree: Tree<'a>, asked: Asked, memory: Memory, text: &mut Listing) -> Done
    requires { IsPlaced ⟦<AnyScorer<'a, Leaf<'a>> as DocSet>⟧ tree }
{
    memory.begin(alloc);
    let is_known = match asked {
        Asked::Each => run_each(tree, text),
        Asked::Slices => run_slices(tree, text),
        Asked::Docs => run_documents(tree, text),
        _ => false,
    };
    end_refusals(alloc);
    if is_known {
        Ok(())
    } else {
        Err(Fault::NotUnderstood)
    }
}

fn run_each<'a>(mut tree: Tree<'a>, text: &mut Listing) -> bool
    requires { IsPlaced ⟦<AnyScorer<'a, Leaf<'a>> as DocSet>⟧ tree }
{
    for_each_scorer(&mut tree, &mut |doc, score| text.score(doc, score));
    true
}

fn run_slices<'a>(mut tree: Tree<'a>, text: &mut Listing) -> bool
    requires { IsPlaced ⟦<AnyScorer<'a, Leaf<'a>> as DocSet>⟧ tree }
{
    // what stands in the buffer is of no consequence
    let mut buffer = [7; COLLECT_BLOCK_BUFFER_LEN];
    for_each_docset_buffered(
        &mut tree,
        &mut buffer,
        &mut |docs: &[DocId]| text.add(docs.len()),
    );
    true
}

fn run_documents<'a>(mut tree: Tree<'a>, text: &mut Listing) -> bool
    requires { IsPlaced ⟦<AnyScorer<'a, Leaf<'a>> as DocSet>⟧ tree }
{
    // what stands in the buffer is of no consequence
    let mut buffer = [7; COLLECT_BLOCK_BUFFER_LEN];
    for_each_docset_buffered(
        &mut tree,
        &mut buffer,
        &mut |docs: &[DocId]| text.documents(docs),
    );
    true
}

fn prune(
    alloc: Global,
    source: Source<'_>,
    words: &[&str],
    threshold: Score,
    memory: Memory,
    pruning: Pruning<'_>,
) -> Done {
    match read_tree(alloc, source, words) {
        Ok(tree) => run_pruning(alloc, tree, threshold, memory, pruning),
        Err(fault) => Err(fault),
    }
}

fn run_pruning<'a>(
    alloc: Global,
    mut tree: Tree<'a>,
    threshold: Score,
    memory: Memory,
    mut pruning: Pruning<'_>,
) -> Done
    requires { IsPlaced ⟦<AnyScorer<'a, Leaf<'a>> as DocSet>⟧ tree }
{
    memory.begin(alloc);
    for_each_pruning_scorer(
        &mut tree,
        threshold,
        &mut |doc, score| pruning.call(doc, score),
    );
    end_refusals(alloc);
    Ok(())
}
