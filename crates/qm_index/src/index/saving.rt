//! An index that is saved in a folder.
//!
//! A file's number is that of the moment, or past all that were given. A save that writes nothing uses none up.

ghost use Rattle.std.specs.Prelude.{◌≡◌, ◌≤◌, All, IfOk, OnOk, vec_len};
ghost use Rattle.qm_folder.specs.Disk.{IsSettled};
ghost use Rattle.qm_index.specs.Indexed.{IsMerged, IsRefreshed, indexed, statistics};
ghost use Rattle.qm_folder.specs.Names.{file_names};
ghost use Rattle.qm_store.specs.Manifest.{IsManifest, manifest_spelled};
ghost use Rattle.qm_index.specs.FileNames.{AreNumbered};
ghost use Rattle.qm_index.specs.SavedFiles.{IsNumberedBelow};
ghost use Rattle.qm_index.specs.SavedIndex.{HaveNothingNew, HoldAll};
ghost use Rattle.qm_index.specs.Saving.{HoldsIndex, IsKeptIn, IsSaved, LeavesSavedOrAsBefore, manifest_with};

use crate::index::Index;
use crate::plan_writing::write_plan;
use crate::saving_plan::SavingPlan;
use qm_folder::Folder;
use qm_store::{StoreError, manifest_bytes};
use std::alloc::Global;

impl Index {
    /// Saves the segments that were ended, what is deleted of them, and what terms weigh, in a folder: as the files of
    /// an index, of which those that are there already are left as they are. So a second call writes what is new. The
    /// open segment is left out: whoever wants its documents ends it before. A crash at any moment leaves the index
    /// that was there, or this one.
    ///
    /// Each new file gets a number of its own, from `moment` on, but for those that the index has given before: a time in
    /// nanoseconds does. Asks that nothing of the folder waits for the disk. That it holds this index afterwards
    /// is owed where it has what was saved of it before, as it has where the index was opened from it, or saved
    /// there, or never saved at all, and nobody else wrote there.
    ///
    /// Costs what writing the new segments does, and the manifest; a step for each segment. Refused for want of memory,
    /// and with [`StoreError::Failed`] where the folder fails, or no number is left; then the folder has the index
    /// that was there, or this one.
    pub fn save<F: Folder>(
        &mut self,
        alloc: Global,
        folder: &mut F,
        moment: u64,
    ) -> Result<(), StoreError>
        requires settled { F.is_told → IsSettled (F.disk folder.old) }
        ensures saved { F.is_told → OnOk result (IsKeptIn self.old (F.disk folder.old).seen → HoldsIndex self.new (F.disk folder.new).seen) }
        ensures settled { F.is_told → OnOk result (IsSettled (F.disk folder.new)) }
        ensures kept { F.is_told → IsKeptIn self.old (F.disk folder.old).seen → IsKeptIn self.new (F.disk folder.new).seen }
        // A crash at any moment of the call leaves the index of before, or this one.
        ensures any_moment { F.is_told → IsKeptIn self.old (F.disk folder.old).seen
            → LeavesSavedOrAsBefore self.old (F.disk folder.old) (F.disk folder.new) }
        ensures all { OnOk result (IsSaved self.new) }
        // Where nothing is new no number is used up, whatever the moment.
        ensures idle { IsSaved self.old → self.new.saved.next ≡ self.old.saved.next }
        ensures documents { indexed self.new ≡ indexed self.old }
        ensures statistics { statistics self.new ≡ statistics self.old }
        ensures refreshed { IsRefreshed self.old → IsRefreshed self.new }
        ensures merged { IsMerged self.old → IsMerged self.new }
    {
        let (plan, manifest) = self.plan_save(alloc, moment)?;
        let written = write_plan(alloc, folder, &plan, &manifest);
        // a number is given once, even where the folder fails
        self.saved.next = plan.next;
        written?;
        self.saved.segments = plan.segments;
        Ok(())
    }

    // What a save writes, and the manifest.
    fn plan_save(&self, alloc: Global, moment: u64) -> Result<(SavingPlan, Vec<u8>), StoreError>
        ensures in_order { IfOk result (λ r. AreNumbered r.0.first (file_names r.0.files.items) r.0.next) }
        ensures later { IfOk result (λ r. self.now.saved.next ≤ r.0.first) }
        ensures numbered { IfOk result (λ r. All (IsNumberedBelow 18446744073709551615) r.0.segments.items) }
        ensures all { IfOk result (λ r. HaveNothingNew r.0.segments.items (indexed self.now).ended) }
        ensures idle { IfOk result (λ r. IsSaved self.now → r.0.next ≡ self.now.saved.next) }
        ensures holds { IfOk result (λ r.
            HoldAll r.0.first r.0.files.items self.now.saved.segments.items r.0.segments.items (indexed self.now).ended) }
        ensures count { IfOk result (λ r. vec_len r.0.segments ≡ self.now.ended) }
        ensures manifest { IfOk result (λ r. r.1.items ≡ manifest_spelled (manifest_with self.now r.0.segments.items)) }
        ensures fits { IfOk result (λ r. IsManifest (manifest_with self.now r.0.segments.items)) }
    {
        let mut plan = SavingPlan::new(alloc, self.saved.next, moment);
        let ended = &self.searcher.segment_readers()[..self.ended];
        plan.add_all(alloc, ended, &self.saved.segments)?;
        let manifest = manifest_bytes(alloc, &self.searcher, self.block_len, &plan.segments, &[])?;
        Ok((plan, manifest))
    }
}
