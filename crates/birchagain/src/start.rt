//! An index at its beginning.

ghost use Rattle.std.specs.Prelude.{◌≡◌, IfErr, IfOk, IsOkUnless};
ghost use Rattle.std.specs.FinMap.{empty};
ghost use Rattle.std.specs.List.{range_with_len};
ghost use Rattle.std.specs.List.Sorted.{IsNonDecreasing};
ghost use Rattle.qm_index.specs.Indexed.{IsRefreshed, empty_index, indexed, statistics};
ghost use Rattle.birchagain.specs.Body.{body_fields};
ghost use Rattle.birchagain.specs.Start.{start_statistics};

use qm_docset::Score;
use qm_index::Index;
use qm_schema::{IndexRecordOption, QueryError, Schema};
use std::alloc::Global;

/// How many postings a block has.
const BLOCK_LEN: u32 = 128;

/// What a word weighs that was given no weight.
const DEFAULT_WEIGHT: Score = 1000;

/// An index without documents, of one field. Each word weighs 1000, and a document is as long as it has words, up
/// to 255. `Memory` is its only refusal.
pub fn new_index(alloc: Global) -> Result<Index, QueryError>
    ensures documents { IfOk result (λ index. indexed index ≡ empty_index body_fields 128) }
    ensures statistics { IfOk result (λ index. statistics index ≡ start_statistics) }
    ensures refused { IsOkUnless result QueryError.Memory }
{
    let mut builder = Schema::builder(alloc);
    builder.add_text_field("body", Some(IndexRecordOption::WithFreqsAndPositions), true)?;
    let schema = builder.build();
    Index::new(alloc, schema, DEFAULT_WEIGHT, norms(), BLOCK_LEN)
}

// The norm of each length id: a document is as long as it has words.
fn norms() -> [u32; 256]
    ensures ascending { IsNonDecreasing result }
    ensures words { result ≡ range_with_len 0 256 }
{
    let mut norms = [0; 256];
    // each id before this one has itself as its norm
    for id in 0..256 {
        norms[id] = id as u32;
    }
    norms
}
