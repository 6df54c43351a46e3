//! An index that is opened from a folder.

ghost use Rattle.std.specs.Prelude.{◌≡◌, [], IfErr, IfOk, IfSome, IsOkUnless, Ok};
ghost use Rattle.std.specs.List.Sorted.{IsNonDecreasing};
ghost use Rattle.qm_folder.specs.Calls.{KeepsBut};
ghost use Rattle.qm_index.specs.Indexed.{IsMerged, IsRefreshed, statistics};
ghost use Rattle.qm_index.specs.Opening.{IsFolderRefusal, IsOpened, IsThere};
ghost use Rattle.qm_index.specs.Saving.{HoldsIndex, IsKeptIn};

use crate::index::Index;
use crate::saved_files::SavedFiles;
use crate::stored_files::{next_number, open_segments, read_file};
use qm_folder::{Folder, MANIFEST};
use qm_postings::Searcher;
use qm_schema::QueryError;
use qm_store::{StoreError, read_manifest};
use std::alloc::Global;

impl Index {
    /// The index that was saved in a folder, and none where no index was: its ended segments, with what is deleted of them,
    /// and what terms weigh; the open segment has no document. It takes documents and deletions on, and can be
    /// saved there again. All of it is in memory then. Costs a step for each posting, position, term and document.
    ///
    /// Refused for want of memory, and with [`StoreError::Failed`] where the folder fails: what was saved for nothing else.
    /// The files of what is no index are refused with [`StoreError::OtherFile`], [`StoreError::OtherVersion`] or
    /// [`StoreError::Damaged`].
    pub fn open<F: Folder>(alloc: Global, folder: &mut F) -> Result<Option<Index>, StoreError>
        ensures opened { F.is_told → (saved : Index) → HoldsIndex saved (F.disk folder.old).seen → IfOk result (IsThere (IsOpened saved)) }
        // What was saved is refused for want of memory, or because the folder fails, alone; its norms do not fall, as no
        // searcher's do.
        ensures refused { F.is_told → (saved : Index) → HoldsIndex saved (F.disk folder.old).seen → IsNonDecreasing (statistics saved).norms
            → IfErr result IsFolderRefusal }
        ensures kept { F.is_told → (saved : Index) → HoldsIndex saved (F.disk folder.old).seen
            → IfOk result (λ r. IfSome r (λ i. IsKeptIn i (F.disk folder.new).seen)) }
        ensures refreshed { IfOk result (λ r. IfSome r IsRefreshed) }
        ensures merged { IfOk result (λ r. IfSome r IsMerged) }
        ensures unchanged { F.is_told → KeepsBut [] (F.disk folder.old) (F.disk folder.new) }
    {
        let Some(bytes) = read_file(alloc, folder, MANIFEST)? else {
            return Ok(None);
        };
        let manifest = read_manifest(alloc, &bytes)?;
        let segments = open_segments(alloc, folder, &manifest.schema, &manifest.segments)?;
        let next = next_number(&manifest.segments)?;
        let searcher = unless_damaged(Searcher::from_parts(
            manifest.schema,
            segments,
            manifest.weights,
            manifest.default_weight,
            manifest.norms,
        ))?;
        let mut index = unless_damaged(Index::of_searcher(alloc, searcher, manifest.block_len))?;
        index.saved = SavedFiles {
            segments: manifest.segments,
            next,
        };
        Ok(Some(index))
    }
}

// What was made of what the files say, which are damaged where that can't be.
fn unless_damaged<T: Drop>(made: Result<T, QueryError>) -> Result<T, StoreError>
    ensures made { IfOk result (λ x. made ≡ Ok x) }
    ensures memory { IsOkUnless made QueryError.Memory → IsOkUnless result StoreError.Memory }
{
    match made {
        Ok(made) => Ok(made),
        Err(QueryError::Memory) => Err(StoreError::Memory),
        Err(_) => Err(StoreError::Damaged),
    }
}
