//! A folder of named files.

ghost use Rattle.std.specs.Prelude.{◌≡◌, ◌≢◌, ◌≤◌, [], ◌∷◌, Bool, List, ℕ, IfOk, IsSome, OnOk, is_some, option_map};
ghost use Rattle.qm_folder.specs.Names.{AreDistinct, Name, is_among, names_of};
ghost use Rattle.qm_folder.specs.Disk.{Content, Contents, CouldLeave, Disk};
ghost use Rattle.qm_folder.specs.Calls.{Elapses, HasCause, IsRemoved, IsRenamed, KeepsBut, LeavesWritten, MayRemove, MayRename, Stands};

use crate::FolderError;
use std::alloc::Global;

/// A folder of named files: what is read of it, and what a crash may leave. A write is on the disk once the file has been
/// synced, and a name once the names have been. Until then a crash leaves anything of what was written, and of each name
/// what stood there before or what does now, each name for itself.
///
/// A call that is refused may be half done: what is seen and what a crash leaves is one of what may have come of it.
/// A folder of the system claims nothing of all that (`is_told`), since no clause can say what its files do.
pub trait Folder {
    /// The folder as it stands.
    ghost disk: { Self → Disk };

    /// Something is known of it.
    ghost is_told: { Type 0 };

    /// Writes a file from nothing, in the place of one of that name. Until it is synced, and the names after it, a crash
    /// leaves any bytes of it, or none.
    ///
    /// Refused for want of memory, or where the folder fails; then any bytes may stand there.
    fn write(&mut self, name: &str, bytes: &[u8]) -> Result<(), FolderError>
        ensures written { is_told → OnOk result (Stands name.now bytes.now (disk self.new)) }
        ensures others { is_told → KeepsBut (name.now ∷ []) (disk self.old) (disk self.new) }
        ensures time { is_told → Elapses (disk self.old) (disk self.new) }
        ensures cause { is_told → HasCause (disk self.old) (disk self.new) result };

    /// Brings the bytes of a file to the disk, but not its name.
    ///
    /// Refused for want of memory, or where the folder fails.
    fn sync(&mut self, name: &str) -> Result<(), FolderError>
        requires { is_told → IsSome ((disk self.old).seen name.now) }
        ensures written { is_told → OnOk result ((disk self.new).written name.now) }
        ensures kept { is_told → KeepsBut [] (disk self.old) (disk self.new) }
        ensures time { is_told → Elapses (disk self.old) (disk self.new) }
        ensures cause { is_told → HasCause (disk self.old) (disk self.new) result };

    /// Brings the names to the disk: from then on a crash leaves what is seen of each name whose file is there.
    ///
    /// Refused for want of memory, or where the folder fails.
    fn sync_names(&mut self) -> Result<(), FolderError>
        ensures durable { is_told → OnOk result (LeavesWritten (disk self.old) (disk self.new)) }
        ensures kept { is_told → KeepsBut [] (disk self.old) (disk self.new) }
        ensures time { is_told → Elapses (disk self.old) (disk self.new) }
        ensures cause { is_told → HasCause (disk self.old) (disk self.new) result };

    /// Gives a file another name, in the place of what stood there.
    ///
    /// Refused for want of memory, or where the folder fails; then it may have been done.
    fn rename(&mut self, source: &str, target: &str) -> Result<(), FolderError>
        requires there { is_told → IsSome ((disk self.old).seen source.now) }
        requires apart { source.now ≢ target.now }
        ensures renamed { is_told → OnOk result (IsRenamed source.now target.now (disk self.old) (disk self.new)) }
        ensures moves { is_told → MayRename source.now target.now (disk self.old) (disk self.new) }
        ensures time { is_told → Elapses (disk self.old) (disk self.new) }
        ensures cause { is_told → HasCause (disk self.old) (disk self.new) result };

    /// Removes a file, where one of that name stands.
    ///
    /// Refused for want of memory, or where the folder fails; then it may have been done.
    fn remove(&mut self, name: &str) -> Result<(), FolderError>
        ensures removed { is_told → OnOk result (IsRemoved name.now (disk self.new)) }
        ensures removes { is_told → MayRemove name.now (disk self.old) (disk self.new) }
        ensures time { is_told → Elapses (disk self.old) (disk self.new) }
        ensures cause { is_told → HasCause (disk self.old) (disk self.new) result };

    /// The bytes of a file; none where no file of that name stands.
    ///
    /// Refused for want of memory, or where the folder fails.
    fn read(&mut self, alloc: Global, name: &str) -> Result<Option<Vec<u8>>, FolderError>
        ensures bytes { is_told → IfOk result (λ r. option_map (λ v. v.items) r ≡ (disk self.old).seen name.now) }
        ensures kept { is_told → KeepsBut [] (disk self.old) (disk self.new) }
        ensures time { is_told → Elapses (disk self.old) (disk self.new) }
        ensures cause { is_told → HasCause (disk self.old) (disk self.new) result };

    /// The names of its files, each once, in any order.
    ///
    /// Refused for want of memory, or where the folder fails.
    fn list(&mut self, alloc: Global) -> Result<Vec<String>, FolderError>
        ensures once { is_told → IfOk result (λ v. AreDistinct (names_of v.items)) }
        ensures names { is_told → IfOk result (λ v. (n : Name) → is_among (names_of v.items) n ≡ is_some ((disk self.old).seen n)) }
        ensures kept { is_told → KeepsBut [] (disk self.old) (disk self.new) }
        ensures time { is_told → Elapses (disk self.old) (disk self.new) }
        ensures cause { is_told → HasCause (disk self.old) (disk self.new) result };

    /// This moment is one of those since an earlier one.
    ghost counts_now: { (f : Self) (t : ℕ) (c : Contents) → is_told → t ≤ (disk f).moment → CouldLeave (disk f) c → (disk f).left_since t c };

    /// Since this moment there is no other.
    ghost only_now: { (f : Self) (c : Contents) → is_told → (disk f).left_since (disk f).moment c → CouldLeave (disk f) c };
}
