//! Files that lie in bytes, as a folder that is only read.

ghost use Rattle.std.specs.Prelude.{◌≡◌, ◌↔◌, List, All, Err, IfErr, IfOk, IsErrOf, IsOkUnless, OnOk, map, option_map};
ghost use Rattle.qm_folder.specs.Names.{AreDistinct};
ghost use Rattle.birchagain_bytes.specs.Packed.{AreFiles, AreThere, File, IsFile, head_at, packed};
ghost use Rattle.birchagain_bytes.specs.PackedFolder.{contents_in};
ghost use Rattle.birchagain_bytes.specs.Refusals.{IsFilesRefusal};

use crate::packing::{read_file, read_head};
use crate::refusal::BytesRefusal;
use qm_folder::{Folder, FolderError};
use std::alloc::Global;
use std::collections::BTreeMap;

/// Files that lie in bytes, by their names. As a folder it has no room for another file: what would change it is refused as
/// for want of memory.
#[derive(Drop)]
pub(crate) struct PackedFiles<'a> {
    files: BTreeMap<String, &'a [u8]>,
}

impl<'a> PackedFiles<'a> {
    // The files that some bytes are, as `to_bytes` made them. Costs a search for each file.
    //
    // Refused with `OtherFile` and `OtherVersion` by the first bytes alone; with `Damaged` where what stands behind them is
    // not files, one behind the other, of names that are text, each once; and else for want of memory.
    pub(crate) fn read(alloc: Global, bytes: &'a [u8]) -> Result<PackedFiles<'a>, BytesRefusal>
        ensures files { (fs : List File) → All IsFile fs → bytes.now ≡ packed fs → IfOk result (λ p. AreThere (contents_in p.files) fs) }
        ensures distinct { (fs : List File) → All IsFile fs → bytes.now ≡ packed fs → OnOk result (AreDistinct (map (λ f. f.name) fs)) }
        ensures whole { (fs : List File) → All IsFile fs → bytes.now ≡ packed fs → AreDistinct (map (λ f. f.name) fs)
            → IsOkUnless result BytesRefusal.Memory }
        ensures only { OnOk result (AreFiles bytes.now) }
        ensures other_file { IsErrOf result BytesRefusal.OtherFile ↔ (head_at bytes.now ≡ Err BytesRefusal.OtherFile) }
        ensures other_version { IsErrOf result BytesRefusal.OtherVersion ↔ (head_at bytes.now ≡ Err BytesRefusal.OtherVersion) }
        ensures refused { IfErr result IsFilesRefusal }
    {
        let mut rest = read_head(bytes)?;
        let mut files = BTreeMap::new(alloc);
        // the files before what is left are there
        while !rest.is_empty() {
            let Some((name, file, behind)) = read_file(rest) else {
                return Err(BytesRefusal::Damaged);
            };
            let Ok(name) = str::from_utf8(name) else {
                return Err(BytesRefusal::Damaged);
            };
            let name = String::from_str(alloc, name)?;
            if files.insert(name, file)?.is_some() {
                return Err(BytesRefusal::Damaged);
            }
            rest = behind;
        }
        Ok(PackedFiles { files })
    }

    // The bytes of a file; none where there is none of that name.
    pub(crate) fn file(&self, name: &str) -> Option<&'a [u8]>
        ensures { option_map (λ b. b.now) result ≡ contents_in self.now.files name.now }
    {
        self.files.get(name).copied()
    }
}

impl<'a> Folder for PackedFiles<'a> {
    ghost use Rattle.birchagain_bytes.specs.PackedFolder.{contents_in, still};

    ghost disk = { λ f. still (contents_in f.files) };

    ghost is_told = { Unit {0} };

    ghost counts_now = { λ f t c told le now. now };

    ghost only_now = { λ f c told left. left };

    fn write(&mut self, _name: &str, _bytes: &[u8]) -> Result<(), FolderError> {
        Err(FolderError::Memory)
    }

    fn sync(&mut self, _name: &str) -> Result<(), FolderError> {
        Ok(())
    }

    fn sync_names(&mut self) -> Result<(), FolderError> {
        Ok(())
    }

    fn rename(&mut self, _source: &str, _target: &str) -> Result<(), FolderError> {
        Err(FolderError::Memory)
    }

    fn remove(&mut self, _name: &str) -> Result<(), FolderError> {
        Err(FolderError::Memory)
    }

    fn read(&mut self, alloc: Global, name: &str) -> Result<Option<Vec<u8>>, FolderError> {
        match self.file(name) {
            None => Ok(None),
            Some(bytes) => Ok(Some(bytes.to_vec(alloc)?)),
        }
    }

    fn list(&mut self, alloc: Global) -> Result<Vec<String>, FolderError> {
        let mut names = Vec::new(alloc);
        // those before it are there
        for name in self.files.keys() {
            names.push(String::from_str(alloc, name.as_str())?)?;
        }
        Ok(names)
    }
}
