//! What was saved of an index.

ghost use Rattle.std.specs.Prelude.{◌≡◌, ◌<◌, [], All};
ghost use Rattle.qm_index.specs.SavedFiles.{IsNumberedBelow};

use qm_store::KeptSegment;
use std::alloc::Global;

/// What was saved of an index: which files its first segments have, and the least number that no file was given.
#[derive(Drop)]
pub(crate) struct SavedFiles {
    pub(crate) segments: Vec<KeptSegment>,
    pub(crate) next: u64,
    ghost some: { 0 < next },
    ghost numbered: { All (IsNumberedBelow next) segments.items },
}

impl SavedFiles {
    // Nothing was saved.
    pub(crate) fn none(alloc: Global) -> SavedFiles
        ensures none { result.segments.items ≡ [] }
    {
        SavedFiles {
            segments: Vec::new(alloc),
            next: 1,
        }
    }
}
