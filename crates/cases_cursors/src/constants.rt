//! Members that score the same on every document.

ghost use Rattle.std.specs.Prelude.{◌≤ℤ◌, IfOk, pos};
ghost use Rattle.qm_docset.specs.Lists.{ArePlaced};

use cases::{Done, Fault, behind, read_documents, score, word};
use qm_combine::{AllScorer, ConstScorer};
use qm_docset::{DocId, DocSet, Score, TERMINATED};
use std::alloc::Global;

/// A constant score on every document of a segment.
pub type Constant = ConstScorer<AllScorer>;

/// The members that words spell, with `;` between two: `const S all N` scores S on the documents below
/// N, and for a range of numbers there is one for each of them.
pub fn read_constants(alloc: Global, words: &[&str]) -> Result<Vec<Constant>, Fault>
    ensures placed { IfOk result (λ row. ArePlaced ⟦<ConstScorer<AllScorer> as DocSet>⟧ row.items) }
{
    let mut members = Vec::new(alloc);
    // the members are scorers
    for part in words.split(|word| *word == ";") {
        let Some(score) = score(part, 1) else {
            return Err(Fault::NotUnderstood);
        };
        if word(part, 0) != "const" || word(part, 2) != "all" {
            return Err(Fault::NotUnderstood);
        }
        let ends = read_documents(alloc, behind(part, 3))?;
        add_constants(score, &ends, &mut members)?;
    }
    Ok(members)
}

// Adds a member for each of these numbers of documents.
fn add_constants(score: Score, ends: &[DocId], members: &mut Vec<Constant>) -> Done
    requires score { pos 0 ≤ℤ score }
    requires placed { ArePlaced ⟦<ConstScorer<AllScorer> as DocSet>⟧ members.old.items }
    ensures placed { ArePlaced ⟦<ConstScorer<AllScorer> as DocSet>⟧ members.new.items }
{
    // as above
    for end in ends {
        if *end > TERMINATED {
            return Err(Fault::NotAllowed);
        }
        members.push(ConstScorer::new(AllScorer::new(*end), score))?;
    }
    Ok(())
}
