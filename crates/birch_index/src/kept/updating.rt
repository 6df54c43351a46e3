//! An index, brought up to date.

use crate::indexer::{Gain, Indexer, Readings, read_files};
use crate::kept::Trouble;
use crate::kept::catalogue::Catalogue;
use crate::kept::gone::Gone;
use crate::kept::home::Home;
use crate::kept::loaded::Loaded;
use crate::kept::lock::lock;
use crate::kept::marks::files_at;
use crate::kept::opening::tally_of;
use crate::kept::plan::Plan;
use crate::kept::reading::{Standing, read_standing};
use crate::kept::renewed::renewed;
use crate::kept::staying::Sorted;
use crate::kept::writing::{free_number, make_folder, write};
use crate::reading::Reading;
use crate::walk::Found;
use qm_folder::{Changes, FoundFile, KeptFile, ascend, changes};
use qm_postings::SegmentReader;
use qm_store::DocumentPlace;
use std::alloc::Global;

/// The files that are to be in an index.
#[derive(Drop)]
pub struct ToKeep {
    /// The files.
    pub found: Vec<Found>,
    /// The same ones, under the paths that the index keeps.
    pub keys: Vec<FoundFile>,
    /// The moment before they were looked at, in nanoseconds since 1970.
    pub moment: u64,
}

/// What has changed between the files that an index has kept and those that are found.
pub fn changes_of(
    alloc: Global,
    kept: &[KeptFile],
    found: &[FoundFile],
) -> Result<Changes, Trouble> {
    if !ascend(kept) {
        return Err(Trouble::Damaged);
    }
    // a folder that changes while it is read may give a name twice
    if !ascend(found) {
        return Err(Trouble::Failed);
    }
    Ok(changes(alloc, kept, found)?)
}

/// Brings an index up to date, or makes it where there is none, or where it is to be made anew; and gives it as it stands
/// then, and how many files were read.
pub fn bring_up_to_date(
    rt: &HostRuntime,
    reading: &Reading<'_>,
    home: &Home,
    files: ToKeep,
    is_anew: bool,
) -> Result<(Standing, usize), Trouble> {
    make_folder(rt, home)?;
    let held = lock(rt, home)?;
    let old = if is_anew {
        None
    } else {
        read_standing(rt, home)?
    };
    let old = match old {
        Some(old) => old,
        None => nothing(rt.alloc(), home)?,
    };
    let updated = update_locked(rt, reading, home, files, old);
    drop(held);
    updated
}

// An index of no file.
fn nothing(alloc: Global, home: &Home) -> Result<Standing, Trouble> {
    let asked = String::from_str(alloc, home.asked.as_str())?;
    Ok(Standing {
        segments: Vec::new(alloc),
        catalogue: Catalogue::new(alloc, asked),
    })
}

// Reads what has changed, and writes what becomes of the index.
fn update_locked(
    rt: &HostRuntime,
    reading: &Reading<'_>,
    home: &Home,
    files: ToKeep,
    old: Standing,
) -> Result<(Standing, usize), Trouble> {
    let alloc = rt.alloc();
    let ToKeep {
        found,
        keys,
        moment,
    } = files;
    let changes = changes_of(alloc, &old.catalogue.kept, &keys)?;
    let to_read = files_at(alloc, found, &changes.to_read)?;
    let read = to_read.len();
    let (readings, gains) = read_changed(rt, reading, to_read)?;
    if is_as_before(&old, &changes, &gains) {
        return Ok((old, read));
    }
    let plan = planned(rt, home, &old, &changes, readings, moment)?;
    let catalogue = renewed(alloc, old.catalogue, keys, &changes, gains, moment)?;
    let standing = written(rt, home, plan, catalogue)?;
    Ok((standing, read))
}

// Reads these files, and gives what of them is to be kept.
fn read_changed(
    rt: &HostRuntime,
    reading: &Reading<'_>,
    files: Vec<Found>,
) -> Result<(Readings, Vec<Option<Gain>>), Trouble> {
    let mut indexer = Indexer::new(rt.alloc(), reading.accents)?;
    let gains = match read_files(rt, reading, &mut indexer, files) {
        Ok(gains) => gains,
        Err(error) => return Err(Trouble::Stopped(error)),
    };
    let readings = indexer.finish()?;
    Ok((readings, gains))
}

// Whether there is nothing to be written: what is to be read can't be.
fn is_as_before(old: &Standing, changes: &Changes, gains: &[Option<Gain>]) -> bool {
    !old.segments.is_empty() && changes.gone.is_empty() && gains.iter().all(|gain| gain.is_none())
}

// The files that are to be written, where these were read.
fn planned(
    rt: &HostRuntime,
    home: &Home,
    old: &Standing,
    changes: &Changes,
    readings: Readings,
    moment: u64,
) -> Result<Plan, Trouble> {
    let gone = Gone::of(rt.alloc(), &old.catalogue, &changes.gone)?;
    let mut sorted = sort_out(rt, home, old, &gone)?;
    add_readings(&mut sorted, readings, old.catalogue.next)?;
    sorted.join_small(rt, home, &gone)?;
    laid_out(rt, home, sorted, moment)
}

// The segments that stay, and those of which little stays.
fn sort_out(rt: &HostRuntime, home: &Home, old: &Standing, gone: &Gone) -> Result<Sorted, Trouble> {
    let mut sorted = Sorted::new(rt.alloc());
    // the segments before this one are sorted out
    for (segment, span) in old.segments.iter().zip(old.catalogue.spans.iter()) {
        sorted.add(rt, home, *segment, *span, gone)?;
    }
    Ok(sorted)
}

// Adds what was read, whose files have numbers from the first on.
fn add_readings(sorted: &mut Sorted, readings: Readings, first: u32) -> Result<(), Trouble> {
    let Readings {
        segments,
        places,
        ..
    } = readings;
    // the segments before this one are there, their files numbered from the first on
    for (segment, places) in segments.into_iter().zip(places) {
        sorted.anew.push(numbered(segment, places, first))?;
    }
    Ok(())
}

// A segment whose files have numbers from the first on.
fn numbered(segment: SegmentReader, places: Vec<DocumentPlace>, first: u32) -> Loaded {
    let mut places = places;
    // the places before this one have their files' own numbers
    for place in places.iter_mut() {
        place.file = place.file.saturating_add(first);
    }
    Loaded { segment, places }
}

// The files of these segments that are to be written.
fn laid_out(rt: &HostRuntime, home: &Home, sorted: Sorted, moment: u64) -> Result<Plan, Trouble> {
    let alloc = rt.alloc();
    let mut plan = Plan::new(alloc, free_number(rt, home, moment)?);
    let Sorted { staying, anew } = sorted;
    // the parts before this one stay in the plan
    for part in staying {
        plan.stay(alloc, part)?;
    }
    // the parts before this one are to be written
    for loaded in anew {
        plan.write(alloc, loaded)?;
    }
    Ok(plan)
}

// Writes the files and what is known of them, and gives the index.
fn written(
    rt: &HostRuntime,
    home: &Home,
    plan: Plan,
    catalogue: Catalogue,
) -> Result<Standing, Trouble> {
    let mut catalogue = catalogue;
    catalogue.spans = Vec::from_slice(rt.alloc(), &plan.spans)?;
    let tally = tally_of(&catalogue);
    write(rt, home, &plan, &catalogue, tally)?;
    Ok(Standing {
        segments: plan.segments,
        catalogue,
    })
}
