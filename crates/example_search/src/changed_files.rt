//! An index of files that is brought up to date: which files it has then.

ghost use Rattle.std.specs.Prelude.{◌≡◌, ◌↔◌, IfOk, IsTrue, drop, map};
ghost use Rattle.std.specs.List.Sorted.{IsPermutation};
ghost use Rattle.qm_folder.specs.Afresh.{as_found, as_kept};
ghost use Rattle.qm_folder.specs.Changes.{found_path, kept_path};
ghost use Rattle.qm_folder.specs.Paths.{Ascend};
ghost use Rattle.example_search.specs.Places.{Begins};

use qm_folder::{FileStamp, FolderError, FoundFile, KeptFile, ascend, changes, is_settled};
use std::alloc::{AllocError, Global};

/// The files of an index that is brought up to date, each with its path and the stamp under which it was read: those that
/// it has kept and that stay, and behind them those that are read at a moment. They are the files that are found, in
/// another order.
pub fn files_after(
    alloc: Global,
    kept: &[KeptFile],
    found: &[FoundFile],
    read_at: u64,
) -> Result<Vec<KeptFile>, FolderError>
    requires kept_ascend { Ascend (map kept_path kept.now) }
    requires found_ascend { Ascend (map found_path found.now) }
    ensures { IfOk result (λ files. IsPermutation (map as_found found.now) (map as_kept files.items)) }
{
    let changed = changes(alloc, kept, found)?;
    let mut files = Vec::new(alloc);
    let mut next = 0usize;
    // those before it that stay are there, and the places of the others are behind
    for (place, file) in kept.iter().enumerate() {
        if begins(&changed.gone, next, place) {
            next += 1;
        } else {
            files.push(copied(alloc, file)?)?;
        }
    }
    // the found files at the places before it are there
    for place in &changed.to_read {
        files.push(read_now(alloc, &found[*place], read_at)?)?;
    }
    Ok(files)
}

// Whether the places, from one on, begin with this one.
fn begins(places: &[usize], at: usize, place: usize) -> bool
    ensures { IsTrue result ↔ Begins place (drop at places.now) }
{
    at < places.len() && places[at] == place
}

// A kept file that stays, once more.
fn copied(alloc: Global, file: &KeptFile) -> Result<KeptFile, AllocError>
    ensures { IfOk result (λ copy. as_kept copy ≡ as_kept file.now) }
{
    Ok(KeptFile {
        path: file.path.to_vec(alloc)?,
        stamp: file.stamp,
        settled: file.settled,
    })
}

// A found file that is read at a moment.
fn read_now(alloc: Global, file: &FoundFile, read_at: u64) -> Result<KeptFile, AllocError>
    ensures { IfOk result (λ read. as_kept read ≡ as_found file.now) }
{
    Ok(KeptFile {
        path: file.path.to_vec(alloc)?,
        stamp: file.stamp,
        settled: is_settled(&file.stamp, read_at),
    })
}

/// An index has kept three files; since then `fox` has changed, `lazy` is gone and `owl` is new.
pub fn updated(alloc: Global) -> Result<Vec<KeptFile>, FolderError> {
    let kept = kept_files(alloc, &[("dog", 13), ("fox", 9), ("lazy", 12)])?;
    let found = found_files(alloc, &[("dog", 13), ("fox", 17), ("owl", 7)])?;
    if !ascend(&kept) || !ascend(&found) {
        return Ok(Vec::new(alloc));
    }
    files_after(alloc, &kept, &found, 1_000_000_000)
}

// The files of these paths and sizes, as they are kept.
fn kept_files(alloc: Global, sizes: &[(&str, u64)]) -> Result<Vec<KeptFile>, AllocError> {
    let mut files = Vec::new(alloc);
    // the files before this one are there
    for (path, size) in sizes {
        files.push(KeptFile {
            path: path.as_bytes().to_vec(alloc)?,
            stamp: stamp_of(*size),
            settled: true,
        })?;
    }
    Ok(files)
}

// The same, as they are found.
fn found_files(alloc: Global, sizes: &[(&str, u64)]) -> Result<Vec<FoundFile>, AllocError> {
    let mut files = Vec::new(alloc);
    // the files before this one are there
    for (path, size) in sizes {
        files.push(FoundFile {
            path: path.as_bytes().to_vec(alloc)?,
            stamp: stamp_of(*size),
        })?;
    }
    Ok(files)
}

fn stamp_of(size: u64) -> FileStamp {
    FileStamp {
        size,
        bytes_changed: 0,
        changed: 0,
        inode: size,
    }
}
