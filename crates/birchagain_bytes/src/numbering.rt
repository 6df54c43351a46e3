//! The numbers of the files of an index.

ghost use Rattle.std.specs.Prelude.{◌≡◌, IfErr, OnOk};
ghost use Rattle.qm_index.specs.Indexed.{IsRefreshed, indexed, statistics};
ghost use Rattle.qm_index.specs.Saving.{IsSaved};
ghost use Rattle.birchagain_bytes.specs.Refusals.{IsPackRefusal};

use crate::manifest_keeper::ManifestKeeper;
use crate::refusal::{BytesRefusal, of_writing};
use qm_index::Index;
use qm_store::{KeptSegment, read_manifest};
use std::alloc::Global;

// The numbers of the files of the ended segments: those that the index has given, and from a moment on new ones for what
// has none. The index keeps them.
pub(crate) fn number_files(
    alloc: Global,
    index: &mut Index,
    moment: u64,
) -> Result<Vec<KeptSegment>, BytesRefusal>
    ensures documents { indexed index.new ≡ indexed index.old }
    ensures statistics { statistics index.new ≡ statistics index.old }
    ensures saved { OnOk result (IsSaved index.new) }
    ensures refreshed { IsRefreshed index.old → IsRefreshed index.new }
    ensures refused { IfErr result IsPackRefusal }
{
    let mut keeper = ManifestKeeper::new(alloc);
    if let Err(error) = index.save(alloc, &mut keeper, moment) {
        return Err(of_writing(error));
    }
    match read_manifest(alloc, &keeper.manifest) {
        Ok(manifest) => Ok(manifest.segments),
        Err(error) => Err(of_writing(error)),
    }
}
