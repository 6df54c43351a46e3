//! The writing of an index.

use crate::index::{Tally, schema};
use crate::indexer::BLOCK_LEN;
use crate::kept::Trouble;
use crate::kept::catalogue::Catalogue;
use crate::kept::catalogue_bytes::catalogue_bytes;
use crate::kept::home::Home;
use crate::kept::names::number_of;
use crate::kept::plan::Plan;
use crate::lengths::norms;
use qm_folder::{Folder, SystemFolder, is_clean, update};
use qm_postings::Searcher;
use qm_store::manifest_bytes;
use std::alloc::Global;

/// Makes the folder of an index, where there is none.
pub fn make_folder(rt: &HostRuntime, home: &Home) -> Result<(), Trouble> {
    SystemFolder::open(rt, home.folder.as_str())?;
    Ok(())
}

/// A number that no file of an index has, which is made at that moment: the moment itself, or a greater one.
pub fn free_number(rt: &HostRuntime, home: &Home, moment: u64) -> Result<u64, Trouble> {
    let names = names_of(rt, home)?;
    let mut greatest = moment;
    // the number is the moment at least, and above those of the names before this one
    for name in &names {
        if let Some(number) = number_of(name.as_str()) {
            greatest = greatest.max(number.saturating_add(1));
        }
    }
    Ok(greatest)
}

/// The names of the files of an index.
pub fn names_of(rt: &HostRuntime, home: &Home) -> Result<Vec<String>, Trouble> {
    let mut folder = SystemFolder::open(rt, home.folder.as_str())?;
    Ok(folder.list(rt.alloc())?)
}

/// Writes what is planned, and removes the files that are none of the index then.
pub fn write(
    rt: &HostRuntime,
    home: &Home,
    plan: &Plan,
    catalogue: &Catalogue,
    tally: Tally,
) -> Result<(), Trouble> {
    let alloc = rt.alloc();
    let manifest = manifest_of(alloc, plan, catalogue, tally)?;
    let gone = unused(rt, home, plan)?;
    if !is_clean(alloc, &plan.files, &gone)? {
        return Err(Trouble::Damaged);
    }
    let mut folder = SystemFolder::open(rt, home.folder.as_str())?;
    update(&mut folder, &plan.files, &manifest, &gone)?;
    Ok(())
}

// The bytes of the manifest.
fn manifest_of(
    alloc: Global,
    plan: &Plan,
    catalogue: &Catalogue,
    tally: Tally,
) -> Result<Vec<u8>, Trouble> {
    let (schema, _) = schema(alloc)?;
    let norms = norms(tally.documents, tally.words);
    let (none, no_weights) = (Vec::new(alloc), Vec::new(alloc));
    let searcher = Searcher::new(alloc, schema, none, no_weights, 0, norms)?;
    let note = catalogue_bytes(alloc, catalogue)?;
    Ok(manifest_bytes(alloc, &searcher, BLOCK_LEN, &plan.segments, &note)?)
}

// The names of files that were of an index, and are none of this one.
fn unused(rt: &HostRuntime, home: &Home, plan: &Plan) -> Result<Vec<String>, Trouble> {
    let mut gone = Vec::new(rt.alloc());
    // of the names before this one those that the plan doesn't have are there
    for name in names_of(rt, home)? {
        if let Some(number) = number_of(name.as_str()) {
            if !plan.names(number) {
                gone.push(name)?;
            }
        }
    }
    Ok(gone)
}
