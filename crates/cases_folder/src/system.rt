//! Changes of an index in a folder of the system.

use crate::given::GivenChange;
use crate::left::{ask_clean, fault_of, seen_in, write_file, write_names, write_which};
use cases::{Asker, Done, Fault, Listing, Memory, end_refusals};
use qm_folder::{NewFile, SystemFolder, update};
use std::alloc::Global;
use std::os::unix::fs::PermissionsExt;
use std::rt::Files;
use std::{env, fs, io, process};

/// A path in which nothing stands yet.
pub fn scratch(rt: &HostRuntime) -> io::Result<String> {
    let room = env::temp_dir(rt)?;
    let id = process::id(rt.process());
    Ok(format!(in rt.alloc(); "{}/birch_cases_folder_{id}", room.as_path().display())?)
}

/// A change that is made in a folder of the system, anew for each row.
#[derive(Drop)]
pub struct OnDisk<'a, R: Files + AllocGlobal + Clone + Drop> {
    pub files: &'a R,
    pub scratch: &'a str,
    pub change: GivenChange,
}

impl<'a, R: Files + AllocGlobal + Clone + Drop> OnDisk<'a, R> {
    // Makes the index of before and then the change, and tells what a row asks.
    fn run(&self, alloc: Global, call: &str, text: &mut Listing) -> Done {
        let mut folder = match SystemFolder::open(self.files, self.scratch) {
            Ok(folder) => folder,
            Err(error) => return Err(fault_of(error)),
        };
        let gone: Vec<String> = Vec::new(alloc);
        if let Some(manifest) = &self.change.manifest_before {
            make(alloc, &mut folder, &self.change.before, manifest, &gone)?;
        }
        make(
            alloc,
            &mut folder,
            &self.change.files,
            &self.change.manifest,
            &self.change.gone,
        )?;
        self.tell(alloc, &mut folder, call, text)
    }

    fn tell(
        &self,
        alloc: Global,
        folder: &mut SystemFolder<'a, R>,
        call: &str,
        text: &mut Listing,
    ) -> Done {
        if let Some(name) = call.strip_prefix("file ") {
            return write_file(alloc, folder, name, text);
        }
        if let Some(name) = call.strip_prefix("mode ") {
            return self.write_mode(alloc, name, text);
        }
        match call {
            "names" => write_names(alloc, folder, text),
            "update" => match seen_in(alloc, folder, &self.change) {
                Ok(which) => Ok(write_which(which, text)),
                Err(error) => Err(fault_of(error)),
            },
            _ => Err(Fault::NotUnderstood),
        }
    }

    // Who may do what with a file, or with the folder, `.`: three digits from 0 to 7.
    fn write_mode(&self, alloc: Global, name: &str, text: &mut Listing) -> Done {
        let path = format!(in alloc; "{}/{name}", self.scratch)?;
        match fs::metadata(self.files, path.as_str()) {
            Ok(told) => Ok(write!(text, "{:o}", told.permissions().mode() & 0o777)),
            Err(_) => Err(Fault::NotAllowed),
        }
    }
}

// Makes a change.
fn make<R: Files + AllocGlobal + Clone + Drop>(
    alloc: Global,
    folder: &mut SystemFolder<'_, R>,
    files: &[NewFile],
    manifest: &[u8],
    gone: &[String],
) -> Done {
    ask_clean(alloc, files, gone)?;
    match update(folder, files, manifest, gone) {
        Ok(()) => Ok(()),
        Err(error) => Err(fault_of(error)),
    }
}

impl<'a, R: Files + AllocGlobal + Clone + Drop> Asker for OnDisk<'a, R> {
    fn ask(&mut self, alloc: Global, call: &str, memory: Memory, text: &mut Listing) -> Done {
        memory.begin(alloc);
        let told = self.run(alloc, call, text);
        end_refusals(alloc);
        let _ = fs::remove_dir_all(self.files, self.scratch);
        told
    }
}
