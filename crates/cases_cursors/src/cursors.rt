//! Blocks of one cursor.

ghost use Rattle.std.specs.Prelude.{IfOk};
ghost use Rattle.qm_docset.specs.Documents.{AreDocuments};
ghost use Rattle.qm_docset.specs.Lists.{IsPlaced};

use crate::bit_set::read_bit_set;
use crate::only_steps::OnlySteps;
use cases::{
    Block, Desk, Done, Fault, Memory, Moves, Report, behind, end_refusals, number, play_scores,
    read_documents, read_leaf,
};
use qm_combine::{AllScorer, ConstScorer, EmptyScorer, Scorer};
use qm_docset::{AliveBitSet, BitSetDocSet, DocId, DocSet, TERMINATED, VecDocSet, are_documents};
use qm_schema::QueryError;
use std::alloc::Global;

/// Plays rows on a scorer whose members count moves, and ends the refusals of memory before that.
pub fn play_made<S: Scorer>(
    alloc: Global,
    desk: &Desk<'_>,
    scorer: S,
    block: Block<'_>,
    report: &mut Report,
) -> Done
    requires { IsPlaced S.DocSet scorer }
{
    end_refusals(alloc);
    let mut scorer = scorer;
    play_scores(alloc, desk, &mut scorer, block.rows, report)
}

/// The same where it was made; a fault where it was refused.
pub fn play_new<S: Scorer>(
    alloc: Global,
    desk: &Desk<'_>,
    made: Result<S, QueryError>,
    block: Block<'_>,
    report: &mut Report,
) -> Done
    requires { IfOk made (λ s. IsPlaced S.DocSet s) }
{
    match made {
        Ok(scorer) => play_made(alloc, desk, scorer, block, report),
        Err(error) => Err(Fault::Refused(error)),
    }
}

// Plays rows on a cursor that has no scores and counts no moves, as a scorer.
fn play_unscored<D: DocSet>(
    alloc: Global,
    alive: &AliveBitSet,
    docset: D,
    block: Block<'_>,
    report: &mut Report,
) -> Done
    requires { IsPlaced D.DocSet docset }
{
    let moves = &Moves::new();
    let desk = Desk { alive, moves };
    let scorer = ConstScorer::from(docset);
    play_made(alloc, &desk, scorer, block, report)
}

/// Documents that ascend, which words spell.
pub fn read_ascending(alloc: Global, words: &[&str]) -> Result<Vec<DocId>, Fault>
    ensures { IfOk result (λ docs. AreDocuments docs.items) }
{
    let docs = read_documents(alloc, words)?;
    if are_documents(&docs) {
        Ok(docs)
    } else {
        Err(Fault::NotUnderstood)
    }
}

/// Plays `LEAF`.
pub fn play_leaf(
    alloc: Global,
    alive: &AliveBitSet,
    block: Block<'_>,
    report: &mut Report,
) -> Done {
    let moves = &Moves::new();
    let leaf = read_leaf(alloc, block.words, true, moves)?;
    let desk = Desk { alive, moves };
    play_made(alloc, &desk, leaf, block, report)
}

/// Plays `vec DOC..`.
pub fn play_vec(alloc: Global, alive: &AliveBitSet, block: Block<'_>, report: &mut Report) -> Done {
    let docs = read_ascending(alloc, behind(block.words, 1))?;
    block.memory.begin(alloc);
    play_unscored(alloc, alive, VecDocSet::new(docs), block, report)
}

/// Plays `boxed DOC..`.
pub fn play_boxed(
    alloc: Global,
    alive: &AliveBitSet,
    block: Block<'_>,
    report: &mut Report,
) -> Done {
    let docs = read_ascending(alloc, behind(block.words, 1))?;
    let docset = Box::new(alloc, VecDocSet::new(docs))?;
    play_unscored(alloc, alive, docset, block, report)
}

/// Plays `steps DOC..`.
pub fn play_steps(
    alloc: Global,
    alive: &AliveBitSet,
    block: Block<'_>,
    report: &mut Report,
) -> Done {
    let docs = read_ascending(alloc, behind(block.words, 1))?;
    let docset = OnlySteps {
        docs: VecDocSet::new(docs),
    };
    play_unscored(alloc, alive, docset, block, report)
}

/// Plays `bits MAX DOC..`.
pub fn play_bits(
    alloc: Global,
    alive: &AliveBitSet,
    block: Block<'_>,
    report: &mut Report,
) -> Done {
    let docset = read_bits(alloc, behind(block.words, 1), block.memory)?;
    play_unscored(alloc, alive, docset, block, report)
}

/// A cursor over a bit set that words spell: `MAX DOC..`.
pub fn read_bits(alloc: Global, words: &[&str], memory: Memory) -> Result<BitSetDocSet, Fault>
    ensures placed { IfOk result (λ docs. IsPlaced ⟦<BitSetDocSet as DocSet>⟧ docs) }
{
    let set = read_bit_set(alloc, words, Memory::Ample)?;
    if set.max_value() > TERMINATED {
        return Err(Fault::NotAllowed);
    }
    memory.begin(alloc);
    Ok(BitSetDocSet::new(set))
}

/// Plays `all N`.
pub fn play_all(alloc: Global, alive: &AliveBitSet, block: Block<'_>, report: &mut Report) -> Done {
    let Some(max_doc) = number(block.words, 1) else {
        return Err(Fault::NotUnderstood);
    };
    if max_doc > TERMINATED {
        return Err(Fault::NotAllowed);
    }
    let moves = &Moves::new();
    let desk = Desk { alive, moves };
    block.memory.begin(alloc);
    play_made(alloc, &desk, AllScorer::new(max_doc), block, report)
}

/// Plays `empty`.
pub fn play_empty(
    alloc: Global,
    alive: &AliveBitSet,
    block: Block<'_>,
    report: &mut Report,
) -> Done {
    let moves = &Moves::new();
    let desk = Desk { alive, moves };
    play_made(alloc, &desk, EmptyScorer, block, report)
}
