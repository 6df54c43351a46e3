//! The files of a save, written.

ghost use Rattle.std.specs.Prelude.{◌≡◌, ◌≤◌, OnOk};
ghost use Rattle.qm_folder.specs.Disk.{IsSettled, LeavesOnly};
ghost use Rattle.qm_folder.specs.Names.{file_names};
ghost use Rattle.qm_index.specs.FileNames.{AreNumbered};
ghost use Rattle.qm_index.specs.Writing.{IsWritten, IsWrittenOrNot};

use crate::saving_plan::SavingPlan;
use qm_folder::{Folder, FolderError, update};
use qm_store::StoreError;
use std::alloc::Global;

// Writes the new files and the manifest. A crash at any moment leaves all of it or nothing.
pub(crate) fn write_plan<F: Folder>(
    alloc: Global,
    folder: &mut F,
    plan: &SavingPlan,
    manifest: &[u8],
) -> Result<(), StoreError>
    requires settled { F.is_told → IsSettled (F.disk folder.old) }
    requires in_order { AreNumbered plan.now.first (file_names plan.now.files.items) plan.now.next }
    ensures written { F.is_told → OnOk result
        (IsWritten plan.now.first plan.now.files.items manifest.now (F.disk folder.old).seen (F.disk folder.new).seen) }
    ensures settled { F.is_told → OnOk result (IsSettled (F.disk folder.new)) }
    ensures seen { F.is_told →
        IsWrittenOrNot plan.now.first plan.now.files.items manifest.now (F.disk folder.old).seen (F.disk folder.new).seen }
    ensures any_moment { F.is_told → LeavesOnly (F.disk folder.old) (F.disk folder.new)
        (IsWrittenOrNot plan.now.first plan.now.files.items manifest.now (F.disk folder.old).seen) }
{
    let gone = Vec::new(alloc);
    if let Err(error) = update(folder, plan.files.as_slice(), manifest, gone.as_slice()) {
        return Err(of_folder(error));
    }
    Ok(())
}

// The same refusal, of a store.
fn of_folder(error: FolderError) -> StoreError {
    match error {
        FolderError::Memory => StoreError::Memory,
        FolderError::Failed => StoreError::Failed,
    }
}
