//! The order of steps of an update.

ghost use Rattle.std.specs.Prelude.{◌≡◌, ◌<◌, [], ◌∷◌, false, IsErrOf, IsSome, OnOk};
ghost use Rattle.qm_folder.specs.Names.{AreDistinct, file_names, is_among, names_of};
ghost use Rattle.qm_folder.specs.Disk.{IsSettled, LeavesOnly};
ghost use Rattle.qm_folder.specs.Calls.{HasCause, KeepsBut, MayRename};
ghost use Rattle.qm_folder.specs.Steps.{AreRemoved, AreWritten, IsCleared, IsCommitted, IsLeftBut, IsLeftByCommit, IsPrepared, IsWritten};
ghost use Rattle.qm_folder.specs.Clean.{IsClean};
ghost use Rattle.qm_folder.specs.Index.{LeavesIndex};
ghost use Rattle.qm_folder.specs.Update.{IsBeforeOrAfter, IsUpdated, change};

use crate::{Folder, FolderError, NewFile};

/// The name of the manifest, which says what the index of a folder is.
pub const MANIFEST: &str = "manifest";

/// The name of a new manifest before it counts.
pub const STAGED: &str = "manifest.new";

/// Updates the index of a folder: writes the new files and a new manifest, and removes the files that are gone. A crash at
/// any moment leaves the manifest of before with the files of before, or the new one with the new files.
///
/// Asked is that nothing of the folder waits for the disk, and that no name gets in another's way: the new names are
/// distinct, no new name and none that is gone is the manifest's, and no new name is gone (`is_clean`). Costs a write and a sync for each
/// new file and for the manifest, a rename, three syncs of the names, and a step for each file that is gone.
///
/// Refused for want of memory, or where the folder fails; then the index is that of before or that of after.
pub fn update<F: Folder>(
    folder: &mut F,
    files: &[NewFile],
    manifest: &[u8],
    gone: &[String],
) -> Result<(), FolderError>
    requires settled { F.is_told → IsSettled (F.disk folder.old) }
    requires clean { IsClean (file_names files.now) (names_of gone.now) }

    ensures acknowledged { F.is_told → OnOk result
        (IsUpdated (change files.now manifest.now gone.now) (F.disk folder.old) (F.disk folder.new)) }

    // A crash at any moment of the call leaves the index of before or that of after.
    ensures any_moment { F.is_told → LeavesOnly (F.disk folder.old) (F.disk folder.new)
        (IsBeforeOrAfter (change files.now manifest.now gone.now) (F.disk folder.old)) }

    // An index is its manifest and the files that this names, whatever they are.
    ensures index { F.is_told → LeavesIndex (change files.now manifest.now gone.now) (F.disk folder.old) (F.disk folder.new) }

    ensures seen { F.is_told → IsBeforeOrAfter (change files.now manifest.now gone.now) (F.disk folder.old) (F.disk folder.new).seen }

    // It doesn't give up by itself.
    ensures failed { F.is_told → HasCause (F.disk folder.old) (F.disk folder.new) result }
{
    prepare(folder, files, manifest)?;
    commit(folder)?;
    clear(folder, gone)
}

// Brings the new files and the new manifest to the disk, where they don't count yet.
fn prepare<F: Folder>(folder: &mut F, files: &[NewFile], manifest: &[u8]) -> Result<(), FolderError>
    requires settled { F.is_told → IsSettled (F.disk folder.old) }
    requires distinct { AreDistinct (file_names files.now) }
    requires no_staged { is_among (file_names files.now) STAGED.now ≡ false }
    ensures prepared { F.is_told → OnOk result (IsPrepared files.now manifest.now (F.disk folder.new)) }
    ensures others { F.is_told → KeepsBut (STAGED.now ∷ file_names files.now) (F.disk folder.old) (F.disk folder.new) }
    ensures any_moment { F.is_told → LeavesOnly (F.disk folder.old) (F.disk folder.new)
        (IsLeftBut (STAGED.now ∷ file_names files.now) (F.disk folder.old)) }
    ensures cause { F.is_told → HasCause (F.disk folder.old) (F.disk folder.new) result }
{
    write_files(folder, files)?;
    write_synced(folder, STAGED, manifest)?;
    folder.sync_names()
}

// Writes new files, and syncs each.
fn write_files<F: Folder>(folder: &mut F, files: &[NewFile]) -> Result<(), FolderError>
    requires { AreDistinct (file_names files.now) }
    ensures written { F.is_told → OnOk result (AreWritten files.now (F.disk folder.new)) }
    ensures others { F.is_told → KeepsBut (file_names files.now) (F.disk folder.old) (F.disk folder.new) }
    ensures any_moment { F.is_told → LeavesOnly (F.disk folder.old) (F.disk folder.new)
        (IsLeftBut (file_names files.now) (F.disk folder.old)) }
    ensures cause { F.is_told → HasCause (F.disk folder.old) (F.disk folder.new) result }
{
    // those before it are written, and nothing else has changed
    for file in files {
        write_synced(folder, file.name.as_str(), file.bytes.as_slice())?;
    }
    Ok(())
}

// Writes a file, and syncs it.
fn write_synced<F: Folder>(folder: &mut F, name: &str, bytes: &[u8]) -> Result<(), FolderError>
    ensures written { F.is_told → OnOk result (IsWritten name.now bytes.now (F.disk folder.new)) }
    ensures others { F.is_told → KeepsBut (name.now ∷ []) (F.disk folder.old) (F.disk folder.new) }
    ensures any_moment { F.is_told → LeavesOnly (F.disk folder.old) (F.disk folder.new)
        (IsLeftBut (name.now ∷ []) (F.disk folder.old)) }
    ensures cause { F.is_told → HasCause (F.disk folder.old) (F.disk folder.new) result }
{
    folder.write(name, bytes)?;
    folder.sync(name)
}

// Makes the new manifest count, which is on the disk.
fn commit<F: Folder>(folder: &mut F) -> Result<(), FolderError>
    requires settled { F.is_told → IsSettled (F.disk folder.old) }
    requires there { F.is_told → IsSome ((F.disk folder.old).seen STAGED.now) }
    requires written { F.is_told → (F.disk folder.old).written STAGED.now }
    ensures committed { F.is_told → OnOk result (IsCommitted (F.disk folder.old) (F.disk folder.new)) }
    ensures moves { F.is_told → MayRename STAGED.now MANIFEST.now (F.disk folder.old) (F.disk folder.new) }
    ensures any_moment { F.is_told → LeavesOnly (F.disk folder.old) (F.disk folder.new) (IsLeftByCommit (F.disk folder.old)) }
    ensures cause { F.is_told → HasCause (F.disk folder.old) (F.disk folder.new) result }
{
    folder.rename(STAGED, MANIFEST)?;
    folder.sync_names()
}

// Removes files that no manifest names.
fn clear<F: Folder>(folder: &mut F, gone: &[String]) -> Result<(), FolderError>
    requires settled { F.is_told → IsSettled (F.disk folder.old) }
    ensures cleared { F.is_told → OnOk result (IsCleared (names_of gone.now) (F.disk folder.new)) }
    ensures others { F.is_told → KeepsBut (names_of gone.now) (F.disk folder.old) (F.disk folder.new) }
    ensures any_moment { F.is_told → LeavesOnly (F.disk folder.old) (F.disk folder.new)
        (IsLeftBut (names_of gone.now) (F.disk folder.old)) }
    ensures cause { F.is_told → HasCause (F.disk folder.old) (F.disk folder.new) result }
{
    remove_all(folder, gone)?;
    folder.sync_names()
}

// Removes files of these names, but not from the disk.
fn remove_all<F: Folder>(folder: &mut F, gone: &[String]) -> Result<(), FolderError>
    ensures removed { F.is_told → OnOk result (AreRemoved (names_of gone.now) (F.disk folder.new)) }
    ensures others { F.is_told → KeepsBut (names_of gone.now) (F.disk folder.old) (F.disk folder.new) }
    ensures any_moment { F.is_told → LeavesOnly (F.disk folder.old) (F.disk folder.new)
        (IsLeftBut (names_of gone.now) (F.disk folder.old)) }
    ensures cause { F.is_told → HasCause (F.disk folder.old) (F.disk folder.new) result }
{
    // those before it are removed, and nothing else has changed
    for name in gone {
        folder.remove(name.as_str())?;
    }
    Ok(())
}
