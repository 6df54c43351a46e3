//! Names among others.

ghost use Rattle.std.specs.Prelude.{◌≡◌, ◌↔◌, [], ◌∷◌, IfOk, IsOkUnless, IsTrue};
ghost use Rattle.qm_folder.specs.Clean.{IsClean};
ghost use Rattle.qm_folder.specs.Names.{file_names, is_among, names_of};

use crate::updating::{MANIFEST, STAGED};
use crate::{FolderError, NewFile};
use std::alloc::Global;
use std::collections::BTreeSet;

// Whether a name is one of these.
pub fn is_there(names: &[String], name: &str) -> bool
    ensures { result ≡ is_among (names_of names.now) name.now }
{
    // it is none of those before
    for other in names {
        if name == other.as_str() {
            return true;
        }
    }
    false
}

// Whether a name is that of the manifest, before it counts or since.
fn is_manifest(name: &str) -> bool
    ensures { result ≡ is_among (MANIFEST.now ∷ STAGED.now ∷ []) name.now }
{
    name == MANIFEST || name == STAGED
}

/// Whether an update may have new files of these names, and remove files of those: the new names are distinct, none of all is
/// the manifest's, and no new name is gone. Costs a search among the new names for each name.
///
/// Refused for want of memory alone.
pub fn is_clean(alloc: Global, files: &[NewFile], gone: &[String]) -> Result<bool, FolderError>
    ensures clean { IfOk result (λ clean. IsTrue clean ↔ IsClean (file_names files.now) (names_of gone.now)) }
    ensures refused { IsOkUnless result FolderError.Memory }
{
    let mut names: BTreeSet<&str> = BTreeSet::new(alloc);
    // the names before it are distinct, are in the set, and none is the manifest's
    for file in files {
        let name = file.name.as_str();
        if is_manifest(name) || !names.insert(name)? {
            return Ok(false);
        }
    }
    // none of those before it is the manifest's, or in the set
    for name in gone {
        if is_manifest(name.as_str()) || names.contains(&name.as_str()) {
            return Ok(false);
        }
    }
    Ok(true)
}
