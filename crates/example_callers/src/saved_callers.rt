//! An index that is kept in a folder.

ghost use Rattle.std.specs.Prelude.{IfOk};
ghost use Rattle.qm_index.specs.Indexed.{IsUnsaved};
ghost use Rattle.qm_index.specs.Opening.{IsOpened, IsThere};

use qm_folder::MemoryFolder;
use qm_index::Index;
use qm_store::StoreError;
use std::alloc::Global;

/// Saves an index of which nothing was saved before in a folder, and opens it there: what is opened has its ended
/// segments, with what is deleted of them, and terms weigh the same.
pub fn index_through_folder(
    alloc: Global,
    index: &mut Index,
    moment: u64,
) -> Result<Option<Index>, StoreError>
    requires unsaved { IsUnsaved index.old }
    ensures { IfOk result (IsThere (IsOpened index.new)) }
{
    let mut folder = MemoryFolder::new(alloc);
    index.save(alloc, &mut folder, moment)?;
    let opened = Index::open(alloc, &mut folder)?;
    Ok(opened)
}
