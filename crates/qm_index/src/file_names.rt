//! The names of the files of an index.

ghost use Rattle.std.specs.Prelude.{◌≡◌, IfOk};
ghost use Rattle.std.specs.String.{string_bytes};
ghost use Rattle.qm_index.specs.FileNames.{deletions_name, segment_name};

use std::alloc::{AllocError, Global};

// The name of the segment's file of a number.
#[tactic(auto, unfolding(crate::specs::FileNames::segment_name))]
pub(crate) fn segment_name(alloc: Global, number: u64) -> Result<String, AllocError>
    ensures { IfOk result (λ name. string_bytes name ≡ segment_name number) }
{
    let name = format!(in alloc; "{number}.seg")?;
    Ok(name)
}

// The name of the deletions file of a number.
#[tactic(auto, unfolding(crate::specs::FileNames::deletions_name))]
pub(crate) fn deletions_name(alloc: Global, number: u64) -> Result<String, AllocError>
    ensures { IfOk result (λ name. string_bytes name ≡ deletions_name number) }
{
    let name = format!(in alloc; "{number}.del")?;
    Ok(name)
}
