//! Rows on a folder in which an index is saved.

ghost use Rattle.std.specs.Prelude.{IfOk};
ghost use Rattle.qm_folder.specs.Disk.{IsSettled};
ghost use Rattle.qm_folder.specs.Memory.{disk_after};
ghost use Rattle.qm_folder.specs.MemoryFolder.{calls_of};
ghost use Rattle.qm_index.specs.Indexed.{IsRefreshed};

use cases::{Done, Fault, Listing, Memory, end_refusals};
use qm_folder::{Folder, FolderError, MANIFEST, MemoryFolder, NewFile, STAGED, is_clean, update};
use qm_index::Index;
use qm_schema::QueryError;
use qm_store::StoreError;
use std::alloc::Global;

/// A folder in memory, of which nothing waits for the disk.
#[derive(Drop)]
pub struct SavedRows {
    folder: MemoryFolder,
    ghost settled: { IsSettled (disk_after (calls_of folder)) },
}

impl SavedRows {
    /// One without files.
    pub fn new(alloc: Global) -> SavedRows {
        SavedRows {
            folder: MemoryFolder::new(alloc),
        }
    }

    /// `save MOMENT`: saves the index, and writes why it was refused, where it was.
    pub fn save(
        &mut self,
        alloc: Global,
        index: &mut Index,
        spelled: &str,
        memory: Memory,
        text: &mut Listing,
    ) -> Done
        ensures { IsRefreshed index.old → IsRefreshed index.new }
    {
        let Ok(moment) = spelled.parse() else {
            return Err(Fault::NotUnderstood);
        };
        memory.begin(alloc);
        let saved = index.save(alloc, &mut self.folder, moment);
        end_refusals(alloc);
        match saved {
            Ok(()) => Ok(()),
            Err(error) => {
                settle(alloc, &mut self.folder)?;
                write_refusal(error, text)
            }
        }
    }

    /// `open`: the index that the folder holds. Where it holds none, or one that is refused, that is written.
    pub fn open(
        &mut self,
        alloc: Global,
        memory: Memory,
        text: &mut Listing,
    ) -> Result<Option<Index>, Fault> {
        memory.begin(alloc);
        let opened = Index::open(alloc, &mut self.folder);
        end_refusals(alloc);
        match opened {
            Ok(Some(index)) => Ok(Some(index)),
            Ok(None) => {
                text.word("none");
                Ok(None)
            }
            Err(error) => {
                write_refusal(error, text)?;
                Ok(None)
            }
        }
    }

    /// `files`: writes the names of the files, in order, or `-`.
    pub fn write_files(&mut self, alloc: Global, text: &mut Listing) -> Done {
        let Ok(mut names) = self.folder.list(alloc) else {
            return Err(Fault::Memory);
        };
        names.sort_unstable();
        Ok(write_names(&names, text))
    }

    /// `fail N`: the folder's call behind so many fails.
    pub fn fail(&mut self, spelled: &str) -> Done {
        match spelled.parse() {
            Ok(calls) => Ok(self.folder.fail_after(calls)),
            Err(_) => Err(Fault::NotUnderstood),
        }
    }

    /// `remove NAME`: removes a file.
    pub fn remove(&mut self, alloc: Global, name: &str) -> Done {
        let removed = self.folder.remove(name);
        settle(alloc, &mut self.folder)?;
        removed.map_err(|_| Fault::Memory)
    }
}

// Writes names, or `-` where there is none.
fn write_names(names: &[String], text: &mut Listing) {
    if names.is_empty() {
        return text.word("-");
    }
    // the names before this one are written
    for name in names {
        text.add(name.as_str());
    }
}

// Writes why a folder's index couldn't be saved or opened.
fn write_refusal(error: StoreError, text: &mut Listing) -> Done {
    let words = match error {
        StoreError::Memory => return Err(Fault::Refused(QueryError::Memory)),
        StoreError::Failed => "failed",
        StoreError::OtherFile => "another file",
        StoreError::OtherVersion => "another version",
        StoreError::Damaged => "damaged",
    };
    Ok(text.word(words))
}

// Puts in the place of a folder one with what is seen of its index, of which nothing waits for the disk.
fn settle(alloc: Global, folder: &mut MemoryFolder) -> Done
    ensures { IsSettled (disk_after (calls_of folder.new)) }
{
    // no call is to fail any more
    folder.fail_after(usize::MAX);
    match settled_copy(alloc, folder) {
        Ok(copy) => {
            *folder = copy;
            Ok(())
        }
        Err(_) => {
            *folder = MemoryFolder::new(alloc);
            Err(Fault::Memory)
        }
    }
}

// A folder with the same manifest and the same files, of which nothing waits for the disk; without a manifest it has none.
fn settled_copy(alloc: Global, folder: &mut MemoryFolder) -> Result<MemoryFolder, FolderError>
    ensures { IfOk result (λ f. IsSettled (disk_after (calls_of f))) }
{
    let mut copy = MemoryFolder::new(alloc);
    let Some(manifest) = folder.read(alloc, MANIFEST)? else {
        return Ok(copy);
    };
    let files = files_of(alloc, folder)?;
    let gone: Vec<String> = Vec::new(alloc);
    if !is_clean(alloc, &files, &gone)? {
        return Err(FolderError::Failed);
    }
    update(&mut copy, &files, &manifest, &gone)?;
    Ok(copy)
}

// All files of a folder but for its manifest, also where that doesn't count yet.
fn files_of(alloc: Global, folder: &mut MemoryFolder) -> Result<Vec<NewFile>, FolderError> {
    let names = folder.list(alloc)?;
    let mut files = Vec::new(alloc);
    // the files of the names before this one are there, but for a manifest, staged or not
    for name in &names {
        if name.as_str() == MANIFEST || name.as_str() == STAGED {
            continue;
        }
        if let Some(bytes) = folder.read(alloc, name.as_str())? {
            let name = String::from_str(alloc, name.as_str())?;
            files.push(NewFile { name, bytes })?;
        }
    }
    Ok(files)
}
