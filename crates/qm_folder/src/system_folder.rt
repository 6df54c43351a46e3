//! A folder of the system.

use crate::{Folder, FolderError};
use std::alloc::Global;
use std::fs;
use std::fs::{DirBuilder, OpenFile, OpenOptions};
use std::io::{ErrorKind, Read, Write};
use std::os::unix::fs::{DirBuilderExt, OpenOptionsExt};
use std::rt::Files;

/// Who may enter a folder that is made: its owner.
const OF_OWNER: u32 = 0o700;

/// Who may read and write a file that is made: its owner.
const OF_OWNER_ALONE: u32 = 0o600;

/// A folder of the system. It claims nothing of what its files hold or a crash leaves, as no clause can; it asks the system
/// for what the calls of a folder say. Its files can be read by their owner alone.
#[derive(Drop)]
pub struct SystemFolder<'a, R: Files + AllocGlobal + Clone + Drop> {
    files: &'a R,
    alloc: Global,
    path: String,
}

impl<'a, R: Files + AllocGlobal + Clone + Drop> SystemFolder<'a, R> {
    /// The folder of a path, which is made where it is missing, and those above it.
    ///
    /// Refused for want of memory, or where the system refuses.
    pub fn open(files: &'a R, path: &str) -> Result<SystemFolder<'a, R>, FolderError> {
        let mut builder = DirBuilder::new();
        builder.recursive(true);
        builder.mode(OF_OWNER);
        builder.create(files, path)?;
        let alloc = files.alloc();
        Ok(SystemFolder {
            files,
            alloc,
            path: String::from_str(alloc, path)?,
        })
    }

    // The path of a file.
    fn path_of(&self, name: &str) -> Result<String, FolderError> {
        let mut path = String::from_str(self.alloc, self.path.as_str())?;
        path.push('/')?;
        path.push_str(name)?;
        Ok(path)
    }
}

impl<'a, R: Files + AllocGlobal + Clone + Drop> Folder for SystemFolder<'a, R> {
    ghost use Rattle.qm_folder.specs.System.{untold};

    ghost disk = { λ _. untold };

    ghost is_told = { ⊥ };

    ghost counts_now = { λ f t c told le now. absurd told };

    ghost only_now = { λ f c told left. absurd told };

    fn write(&mut self, name: &str, bytes: &[u8]) -> Result<(), FolderError> {
        let path = self.path_of(name)?;
        let mut options = OpenOptions::new();
        options.write(true);
        options.create(true);
        options.truncate(true);
        options.mode(OF_OWNER_ALONE);
        let mut file = options.open(self.files, path.as_str())?;
        Ok(file.write_all(bytes)?)
    }

    fn sync(&mut self, name: &str) -> Result<(), FolderError> {
        let path = self.path_of(name)?;
        Ok(fs::open(self.files, path.as_str())?.sync_all()?)
    }

    fn sync_names(&mut self) -> Result<(), FolderError> {
        Ok(fs::open(self.files, self.path.as_str())?.sync_all()?)
    }

    fn rename(&mut self, source: &str, target: &str) -> Result<(), FolderError> {
        let source = self.path_of(source)?;
        let target = self.path_of(target)?;
        Ok(fs::rename(self.files, source.as_str(), target.as_str())?)
    }

    fn remove(&mut self, name: &str) -> Result<(), FolderError> {
        let path = self.path_of(name)?;
        match fs::remove_file(self.files, path.as_str()) {
            Err(error) if error.kind() != ErrorKind::NotFound => Err(FolderError::from(error)),
            _ => Ok(()),
        }
    }

    fn read(&mut self, alloc: Global, name: &str) -> Result<Option<Vec<u8>>, FolderError> {
        let path = self.path_of(name)?;
        match fs::open(self.files, path.as_str()) {
            Ok(mut file) => {
                let mut bytes = Vec::new(alloc);
                file.read_to_end(&mut bytes)?;
                Ok(Some(bytes))
            }
            Err(error) if error.kind() == ErrorKind::NotFound => Ok(None),
            Err(error) => Err(FolderError::from(error)),
        }
    }

    fn list(&mut self, alloc: Global) -> Result<Vec<String>, FolderError> {
        let mut names = Vec::new(alloc);
        // those of the entries before it are there
        for entry in fs::read_dir(self.files, self.path.as_str())? {
            names.push(String::from_str(alloc, entry?.file_name())?)?;
        }
        Ok(names)
    }
}
