//! Changes of an index in a folder in memory.

ghost use Rattle.std.specs.Prelude.{◌≡◌, IfOk};
ghost use Rattle.qm_folder.specs.Disk.{IsSettled};
ghost use Rattle.qm_folder.specs.Memory.{disk_after};
ghost use Rattle.qm_folder.specs.MemoryFolder.{calls_of};

use crate::given::GivenChange;
use crate::left::{ask_clean, fault_of, left_of, seen_in, write_file, write_names, write_which};
use cases::{Asker, Done, Fault, Listing, Memory, end_refusals};
use qm_folder::{FolderError, MemoryFolder, update};
use qm_schema::QueryError;
use std::alloc::Global;

/// A change that is made in folders in memory, anew for each row.
#[derive(Drop)]
pub struct InMemory {
    pub change: GivenChange,
}

// A folder that has the index of before.
fn begun(alloc: Global, change: &GivenChange) -> Result<MemoryFolder, Fault>
    ensures { IfOk result (λ f. IsSettled (disk_after (calls_of f))) }
{
    let mut folder = MemoryFolder::new(alloc);
    let Some(manifest) = &change.manifest_before else {
        return Ok(folder);
    };
    let gone: Vec<String> = Vec::new(alloc);
    ask_clean(alloc, &change.before, &gone)?;
    match update(&mut folder, &change.before, manifest, &gone) {
        Ok(()) => Ok(folder),
        Err(_) => Err(Fault::Memory),
    }
}

// Makes the change.
fn make(
    folder: &mut MemoryFolder,
    change: &GivenChange,
    alloc: Global,
    memory: Memory,
) -> Result<Result<(), FolderError>, Fault>
    requires { IsSettled (disk_after (calls_of folder.old)) }
{
    ask_clean(alloc, &change.files, &change.gone)?;
    memory.begin(alloc);
    let made = update(folder, &change.files, &change.manifest, &change.gone);
    end_refusals(alloc);
    Ok(made)
}

// Writes how a change ended, and which index a crash may leave then.
fn write_end(
    alloc: Global,
    made: Result<(), FolderError>,
    folder: &MemoryFolder,
    change: &GivenChange,
    text: &mut Listing,
) -> Done {
    text.word(match made {
        Ok(()) => "done",
        Err(FolderError::Failed) => "failed",
        Err(FolderError::Memory) => return Err(Fault::Refused(QueryError::Memory)),
    });
    Ok(left_of(alloc, folder, change)?.write(text))
}

impl InMemory {
    // `update`: how it ends.
    fn update(&self, alloc: Global, memory: Memory, text: &mut Listing) -> Done {
        let mut folder = begun(alloc, &self.change)?;
        let made = make(&mut folder, &self.change, alloc, memory)?;
        write_end(alloc, made, &folder, &self.change, text)
    }

    // `fails N`: the same where the call behind N others fails.
    fn fail(&self, alloc: Global, calls: usize, text: &mut Listing) -> Done {
        let mut folder = begun(alloc, &self.change)?;
        folder.fail_after(calls);
        let made = make(&mut folder, &self.change, alloc, Memory::Ample)?;
        write_end(alloc, made, &folder, &self.change, text)
    }

    // `sees N`: which index is seen then.
    fn see(&self, alloc: Global, calls: usize, text: &mut Listing) -> Done {
        let mut folder = begun(alloc, &self.change)?;
        folder.fail_after(calls);
        let _ = make(&mut folder, &self.change, alloc, Memory::Ample)?;
        match seen_in(alloc, &mut folder, &self.change) {
            Ok(which) => Ok(write_which(which, text)),
            Err(error) => Err(fault_of(error)),
        }
    }

    // `calls`: how many calls of the folder the change takes.
    fn count(&self, alloc: Global, text: &mut Listing) -> Done {
        let mut folder = begun(alloc, &self.change)?;
        let before = folder.calls().len();
        let _ = make(&mut folder, &self.change, alloc, Memory::Ample)?;
        let calls = folder.calls().len().saturating_sub(before);
        Ok(write!(text, "{calls}"))
    }

    // `names` and `file NAME`, behind the change.
    fn read(&self, alloc: Global, call: &str, memory: Memory, text: &mut Listing) -> Done {
        let mut folder = begun(alloc, &self.change)?;
        let _ = make(&mut folder, &self.change, alloc, Memory::Ample)?;
        memory.begin(alloc);
        let told = match call.strip_prefix("file ") {
            Some(name) => write_file(alloc, &mut folder, name, text),
            None => write_names(alloc, &mut folder, text),
        };
        end_refusals(alloc);
        told
    }
}

impl Asker for InMemory {
    fn ask(&mut self, alloc: Global, call: &str, memory: Memory, text: &mut Listing) -> Done {
        if let Some(calls) = call.strip_prefix("fails ") {
            let calls = calls.parse().map_err(|_| Fault::NotUnderstood)?;
            return self.fail(alloc, calls, text);
        }
        if let Some(calls) = call.strip_prefix("sees ") {
            let calls = calls.parse().map_err(|_| Fault::NotUnderstood)?;
            return self.see(alloc, calls, text);
        }
        match call {
            "update" => self.update(alloc, memory, text),
            "calls" => self.count(alloc, text),
            _ if call == "names" || call.starts_with("file ") => self.read(
                alloc, call, memory, text,
            ),
            _ => Err(Fault::NotUnderstood),
        }
    }
}
