//! A change that is given by hand, and the index of before.

use crate::spelled::named;
use cases::{Done, Fault, behind};
use qm_folder::{MANIFEST, NewFile};
use std::alloc::{AllocError, Global};

/// What an index has at first, and how it changes.
#[derive(Drop)]
pub struct GivenChange {
    /// the manifest of before, where there is one
    pub manifest_before: Option<Vec<u8>>,
    pub before: Vec<NewFile>,
    pub manifest: Vec<u8>,
    pub files: Vec<NewFile>,
    pub gone: Vec<String>,
}

impl GivenChange {
    /// That of the words `KIND NAME:TEXT .. ; NAME:TEXT .. ; NAME ..`: the files of before, the new ones, and the names of
    /// those that are gone. The file `manifest` is the manifest.
    pub fn make(alloc: Global, words: &[&str]) -> Result<GivenChange, Fault> {
        let mut change = GivenChange {
            manifest_before: None,
            before: Vec::new(alloc),
            manifest: Vec::new(alloc),
            files: Vec::new(alloc),
            gone: Vec::new(alloc),
        };
        let mut part = 0u32;
        // the change has what the words before this one say, and `part` of these are `;`
        for word in behind(words, 1) {
            if *word == ";" {
                part = part.saturating_add(1);
            } else {
                change.add(alloc, part, word)?;
            }
        }
        Ok(change)
    }

    // Adds what a word of a part says.
    fn add(&mut self, alloc: Global, part: u32, word: &str) -> Done {
        if part == 2 {
            return Ok(self.gone.push(String::from_str(alloc, word)?)?);
        }
        let Some((name, text)) = word.split_once(':') else {
            return Err(Fault::NotUnderstood);
        };
        let bytes = text.as_bytes().to_vec(alloc)?;
        if name != MANIFEST {
            let name = String::from_str(alloc, name)?;
            let file = NewFile { name, bytes };
            return Ok(if part == 0 {
                self.before.push(file)?
            } else {
                self.files.push(file)?
            });
        }
        if part == 0 {
            self.manifest_before = Some(bytes);
        } else {
            self.manifest = bytes;
        }
        Ok(())
    }

    /// What a name stands for before the change.
    pub fn content_before(&self, name: &str) -> Option<&[u8]> {
        found(&self.before, name)
    }

    /// What it stands for behind it.
    pub fn content_after(&self, name: &str) -> Option<&[u8]> {
        match found(&self.files, name) {
            Some(bytes) => Some(bytes),
            None => found(&self.before, name),
        }
    }

    /// Contents that a crash could leave: all that are given, the front half of each new one, and another.
    pub fn contents(&self, alloc: Global) -> Result<Vec<Vec<u8>>, AllocError> {
        let mut contents = Vec::new(alloc);
        contents.push(b"?".to_vec(alloc)?)?;
        if let Some(manifest) = &self.manifest_before {
            contents.push(manifest.to_vec(alloc)?)?;
        }
        add_content(alloc, &mut contents, self.manifest.as_slice())?;
        // each new file before this one has its bytes there, and the front half of them
        for file in &self.files {
            add_content(alloc, &mut contents, file.bytes.as_slice())?;
        }
        // the bytes of the old files before this one are there too
        for file in &self.before {
            contents.push(file.bytes.to_vec(alloc)?)?;
        }
        Ok(contents)
    }
}

// Adds bytes, and the front half of them.
fn add_content(alloc: Global, contents: &mut Vec<Vec<u8>>, bytes: &[u8]) -> Result<(), AllocError> {
    contents.push(bytes.to_vec(alloc)?)?;
    contents.push(bytes[..bytes.len() / 2].to_vec(alloc)?)?;
    Ok(())
}

// The bytes of the file of a name.
fn found<'a>(files: &'a [NewFile], name: &str) -> Option<&'a [u8]> {
    // no file before this one has the name
    for file in files {
        if file.name.as_str() == name {
            return Some(file.bytes.as_slice());
        }
    }
    None
}

/// The index of before or behind a change, as far as a manifest and what stands under its names show it.
#[derive(Clone, Copy, PartialEq, Eq)]
pub enum Which {
    Before,
    After,
    Neither,
}

impl GivenChange {
    /// Of which index a manifest is.
    pub fn manifest_of(&self, manifest: Option<&[u8]>) -> Which {
        let is_before = match (&self.manifest_before, manifest) {
            (None, None) => true,
            (Some(before), Some(bytes)) => before.as_slice() == bytes,
            _ => false,
        };
        if is_before {
            return Which::Before;
        }
        match manifest {
            Some(bytes) if bytes == self.manifest.as_slice() => Which::After,
            _ => Which::Neither,
        }
    }

    /// What a name stands for in an index.
    pub fn content(&self, which: Which, name: &str) -> Option<&[u8]> {
        match which {
            Which::Before => self.content_before(name),
            Which::After => self.content_after(name),
            Which::Neither => None,
        }
    }

    /// The names in a manifest.
    pub fn names<'a>(
        alloc: Global,
        manifest: Option<&'a [u8]>,
    ) -> Result<Vec<&'a str>, AllocError> {
        match manifest {
            Some(bytes) => named(alloc, bytes),
            None => Ok(Vec::new(alloc)),
        }
    }
}
