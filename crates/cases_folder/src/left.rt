//! Which index a crash may leave, or has left.

ghost use Rattle.std.specs.Prelude.{OnOk};
ghost use Rattle.qm_folder.specs.Clean.{IsClean};
ghost use Rattle.qm_folder.specs.Names.{file_names, names_of};

use crate::given::{GivenChange, Which};
use cases::{Done, Fault, Listing};
use qm_folder::{Folder, FolderError, MANIFEST, MemoryFolder, NewFile, is_clean};
use qm_schema::QueryError;
use std::alloc::{AllocError, Global};

/// Which indexes there are among those that a crash may leave.
#[derive(Clone, Copy)]
pub struct Left {
    before: bool,
    after: bool,
    neither: bool,
}

impl Left {
    fn add(&mut self, which: Which) {
        match which {
            Which::Before => self.before = true,
            Which::After => self.after = true,
            Which::Neither => self.neither = true,
        }
    }

    /// Writes them.
    pub fn write(self, text: &mut Listing) {
        // those before this one are written, as far as they are there
        for (is_there, word) in [
            (self.before, "before"),
            (self.after, "after"),
            (self.neither, "neither"),
        ] {
            if is_there {
                text.add(word);
            }
        }
    }
}

/// What a row is answered where a call of a folder is refused.
pub fn fault_of(error: FolderError) -> Fault {
    match error {
        FolderError::Memory => Fault::Refused(QueryError::Memory),
        FolderError::Failed => Fault::NotAllowed,
    }
}

/// Refused where the names of a change get in each other's way.
pub fn ask_clean(alloc: Global, files: &[NewFile], gone: &[String]) -> Done
    ensures { OnOk result (IsClean (file_names files.now) (names_of gone.now)) }
{
    match is_clean(alloc, files, gone) {
        Ok(true) => Ok(()),
        Ok(false) => Err(Fault::NotAllowed),
        Err(error) => Err(fault_of(error)),
    }
}

/// All that a crash may leave of a folder, each name for itself.
pub fn left_of(
    alloc: Global,
    folder: &MemoryFolder,
    change: &GivenChange,
) -> Result<Left, AllocError> {
    let contents = change.contents(alloc)?;
    let mut left = Left {
        before: false,
        after: false,
        neither: false,
    };
    add_left(alloc, folder, change, &contents, None, &mut left)?;
    // the indexes without a manifest and with those before this one are there, where a crash may leave them
    for manifest in &contents {
        add_left(
            alloc,
            folder,
            change,
            &contents,
            Some(manifest.as_slice()),
            &mut left,
        )?;
    }
    Ok(left)
}

// Adds the indexes of a manifest, where a crash may leave it.
fn add_left(
    alloc: Global,
    folder: &MemoryFolder,
    change: &GivenChange,
    contents: &[Vec<u8>],
    manifest: Option<&[u8]>,
    left: &mut Left,
) -> Result<(), AllocError> {
    if !folder.may_leave(MANIFEST, manifest) {
        return Ok(());
    }
    let which = change.manifest_of(manifest);
    let mut may_be = true;
    // `may_be` says whether a crash may leave all names before this one as they are wanted
    for name in &GivenChange::names(alloc, manifest)? {
        let wanted = change.content(which, name);
        may_be = may_be && folder.may_leave(name, wanted);
        if may_leave_other(folder, name, wanted, contents) {
            left.add(Which::Neither);
        }
    }
    left.add(if may_be { which } else { Which::Neither });
    Ok(())
}

// Whether a crash may leave something else under a name.
fn may_leave_other(
    folder: &MemoryFolder,
    name: &str,
    wanted: Option<&[u8]>,
    contents: &[Vec<u8>],
) -> bool {
    if wanted.is_some() && folder.may_leave(name, None) {
        return true;
    }
    // of the contents before this one a crash may leave none but the wanted one
    for content in contents {
        let content = Some(content.as_slice());
        if content != wanted && folder.may_leave(name, content) {
            return true;
        }
    }
    false
}

/// Which index is seen in a folder.
pub fn seen_in<F: Folder>(
    alloc: Global,
    folder: &mut F,
    change: &GivenChange,
) -> Result<Which, FolderError> {
    let manifest = folder.read(alloc, MANIFEST)?;
    let manifest = bytes_of(&manifest);
    let which = change.manifest_of(manifest);
    // the names before this one stand for what they do in that index
    for name in &GivenChange::names(alloc, manifest)? {
        let content = folder.read(alloc, name)?;
        if bytes_of(&content) != change.content(which, name) {
            return Ok(Which::Neither);
        }
    }
    Ok(which)
}

fn bytes_of(content: &Option<Vec<u8>>) -> Option<&[u8]> {
    match content {
        Some(bytes) => Some(bytes.as_slice()),
        None => None,
    }
}

/// Writes which index it is.
pub fn write_which(which: Which, text: &mut Listing) {
    text.add(match which {
        Which::Before => "before",
        Which::After => "after",
        Which::Neither => "neither",
    });
}

/// Writes the names of a folder's files, in order.
pub fn write_names<F: Folder>(alloc: Global, folder: &mut F, text: &mut Listing) -> Done {
    match folder.list(alloc) {
        Ok(mut names) => {
            names.sort_unstable();
            // the names before this one are written
            for name in &names {
                text.add(name.as_str());
            }
            Ok(())
        }
        Err(error) => Err(fault_of(error)),
    }
}

/// Writes the bytes of a file, which are a text, or `none`.
pub fn write_file<F: Folder>(
    alloc: Global,
    folder: &mut F,
    name: &str,
    text: &mut Listing,
) -> Done {
    match folder.read(alloc, name) {
        Err(error) => Err(fault_of(error)),
        Ok(None) => Ok(text.word("none")),
        Ok(Some(bytes)) => match str::from_utf8(&bytes) {
            Ok(read) => Ok(text.word(read)),
            Err(_) => Err(Fault::NotAllowed),
        },
    }
}
