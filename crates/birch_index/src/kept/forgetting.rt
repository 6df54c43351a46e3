//! An index, removed.

use crate::kept::Trouble;
use crate::kept::home::Home;
use crate::kept::lock::lock;
use crate::kept::names::{LOCK, number_of};
use crate::kept::reading::is_there;
use qm_folder::{Folder, MANIFEST, STAGED, SystemFolder};
use std::fs;

/// Removes an index and its folder, and answers whether there was one. What else stands in the folder stays.
pub fn forget(rt: &HostRuntime, home: &Home) -> Result<bool, Trouble> {
    if !is_there(rt, home)? {
        return Ok(false);
    }
    let held = lock(rt, home)?;
    let mut folder = SystemFolder::open(rt, home.folder.as_str())?;
    // without it there is no index, whatever else is left
    folder.remove(MANIFEST)?;
    let names = folder.list(rt.alloc())?;
    remove_named(&mut folder, &names)?;
    drop(held);
    fs::remove_dir(rt, home.folder.as_str())?;
    Ok(true)
}

// Removes those of the names that an index has.
fn remove_named<F: Folder>(folder: &mut F, names: &[String]) -> Result<(), Trouble> {
    // of the names before this one, those that an index has are removed
    for name in names {
        let name = name.as_str();
        if number_of(name).is_some() || name == STAGED || name == LOCK {
            folder.remove(name)?;
        }
    }
    Ok(())
}
