//! What a caller learns of its own callback, from the contracts of the runs alone.

ghost use Rattle.std.specs.Prelude.{◌≡◌, IfOk, IsTrue, [], ◌∷◌, ◌++◌, false, length, map};
ghost use Rattle.qm_docset.specs.Entry.{documents};
ghost use Rattle.qm_docset.specs.Lists.{IsPlaced};
ghost use Rattle.qm_weight.specs.Callers.{pairs};
ghost use Rattle.qm_weight.specs.Tree.{is_scoring, list, matching};

use qm_combine::Scorer;
use qm_docset::{COLLECT_BLOCK_BUFFER_LEN, DocId, DocSet, Score};
use qm_postings::SegmentReader;
use qm_schema::QueryError;
use qm_weight::{Weight, for_each_docset_buffered, for_each_scorer};
use std::alloc::{AllocError, Global};

/// The number of documents that the scorer has left: one for each call.
pub fn count_calls<S: Scorer>(scorer: &mut S) -> u64
    requires { IsPlaced S.DocSet scorer.old }
    ensures { result ≡ length (S.entries scorer.old) }
{
    let mut count = 0u64;
    for_each_scorer(scorer, &mut |_doc, _score| count += 1);
    count
}

#[derive(Drop)]
struct Collected {
    found: Vec<(DocId, Score)>,
    // whether memory was refused; then some documents are not there
    refused: bool,
}

impl Collected {
    fn add(&mut self, doc: DocId, score: Score)
        ensures before { self.new.refused ≡ false → self.old.refused ≡ false }
        ensures found { self.new.refused ≡ false → self.new.found.items ≡ self.old.found.items ++ (doc, score) ∷ [] }
    {
        if !self.refused {
            self.refused = self.found.push((doc, score)).is_err();
        }
    }
}

/// The documents that the scorer has left, each with its score: what the calls were handed, in order.
/// Want of memory alone refuses it.
pub fn collect_calls<S: Scorer>(
    alloc: Global,
    scorer: &mut S,
) -> Result<Vec<(DocId, Score)>, AllocError>
    requires { IsPlaced S.DocSet scorer.old }
    ensures { IfOk result (λ v. v.items ≡ pairs (S.entries scorer.old)) }
{
    let mut collected = Collected {
        found: Vec::new(alloc),
        refused: false,
    };
    for_each_scorer(scorer, &mut |doc, score| collected.add(doc, score));
    if collected.refused {
        Err(AllocError)
    } else {
        Ok(collected.found)
    }
}

/// The slices of a run, one after another.
#[derive(Drop)]
pub struct Joined {
    pub documents: Vec<DocId>,
    /// Whether memory was refused; then some documents are not there.
    pub refused: bool,
}

impl Joined {
    pub fn add(&mut self, slice: &[DocId])
        ensures before { self.new.refused ≡ false → self.old.refused ≡ false }
        ensures documents { self.new.refused ≡ false → self.new.documents.items ≡ self.old.documents.items ++ slice.now }
    {
        if !self.refused {
            self.refused = self.documents.extend_from_slice(slice).is_err();
        }
    }
}

/// The documents that the cursor has left: the slices of a run, one after another. Want of memory alone
/// refuses it.
pub fn join_slices<D: DocSet>(alloc: Global, docset: &mut D) -> Result<Vec<DocId>, AllocError>
    requires { IsPlaced D.DocSet docset.old }
    ensures { IfOk result (λ v. v.items ≡ documents (D.entries docset.old)) }
{
    let mut joined = Joined {
        documents: Vec::new(alloc),
        refused: false,
    };
    let mut buffer = [7; COLLECT_BLOCK_BUFFER_LEN];
    for_each_docset_buffered(docset, &mut buffer, &mut |slice| { joined.add(slice) });
    if joined.refused {
        Err(AllocError)
    } else {
        Ok(joined.documents)
    }
}

/// The documents of a segment that a weight matches, each with its score: what the calls of its run were
/// handed, in order.
pub fn collect_matches<W: Weight>(
    alloc: Global,
    weight: &W,
    reader: &SegmentReader,
) -> Result<Vec<(DocId, Score)>, QueryError>
    ensures documents { IfOk result (λ v. map (λ pair. pair.0) v.items ≡ matching (W.tree weight.now) reader.now.segment) }
    ensures scores { IfOk result (λ v. IsTrue (is_scoring (W.tree weight.now)) → v.items ≡ pairs (list (W.tree weight.now) 1 reader.now.segment)) }
{
    let mut collected = Collected {
        found: Vec::new(alloc),
        refused: false,
    };
    weight.for_each(alloc, reader, &mut |doc, score| collected.add(doc, score))?;
    if collected.refused {
        Err(QueryError::Memory)
    } else {
        Ok(collected.found)
    }
}
