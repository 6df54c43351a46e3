//! The use of an index that is kept.

use crate::index::Index;
use crate::kept::Trouble;
use crate::kept::above::index_above;
use crate::kept::forgetting::forget;
use crate::kept::gone::Gone;
use crate::kept::home::{Home, home_of};
use crate::kept::keys::found_files;
use crate::kept::opening::{note_again, open};
use crate::kept::reading::{Standing, is_there, read_standing};
use crate::kept::updating::{ToKeep, bring_up_to_date, changes_of};
use crate::reading::{Keeping, Reading};
use crate::walk::find_files;
use birch_text::Cleaned;
use qm_schema::QueryError;
use std::time::{SystemTime, UNIX_EPOCH};

/// How often an index is opened that another run replaces meanwhile.
const TRIES: u32 = 3;

/// The use of an index that is kept.
#[derive(Drop)]
pub enum Use {
    /// This one is used.
    Kept(Index),
    /// There is none.
    NotThere,
    /// None can be used, which was told.
    Refused,
}

/// The index that is kept of what is searched, brought up to date. What stands in its way is told, and it is made anew
/// where that helps.
pub fn kept_index(rt: &HostRuntime, reading: &Reading<'_>) -> Result<Use, QueryError> {
    let home = match home_of(rt, reading, &reading.paths) {
        Ok(home) => home,
        Err(trouble) => return without_home(rt, reading, trouble),
    };
    match tried(rt, reading, &home) {
        Ok(Some(index)) => Ok(Use::Kept(index)),
        Ok(None) => by_one_above(rt, reading),
        // read as if there were no index, which is not asked for
        Err(Trouble::Stream) if reading.keeping != Keeping::Make => Ok(Use::Refused),
        Err(trouble) => mended(rt, reading, &home, trouble),
    }
}

// The index that is kept of a folder above what is searched, where none is of that itself.
fn by_one_above(rt: &HostRuntime, reading: &Reading<'_>) -> Result<Use, QueryError> {
    match index_above(rt, reading) {
        Ok(Some(index)) => Ok(Use::Kept(index)),
        Ok(None) => {
            if reading.keeping == Keeping::Stale {
                let _ = eprintln!(rt; "birch: no index is kept of these paths");
            }
            Ok(Use::NotThere)
        }
        Err(Trouble::Stopped(error)) => Err(error),
        Err(Trouble::Stream) => Ok(Use::Refused),
        Err(trouble) => {
            let what = trouble.what();
            let _ = eprintln!(rt; "birch: the index of a folder above: {what}; no index is used");
            Ok(Use::Refused)
        }
    }
}

// What is done where an index has no folder: it is told where one is asked for.
fn without_home(
    rt: &HostRuntime,
    reading: &Reading<'_>,
    trouble: Trouble,
) -> Result<Use, QueryError> {
    match trouble {
        Trouble::Stopped(error) => Err(error),
        trouble => {
            if reading.keeping != Keeping::Use {
                let what = trouble.what();
                let _ = eprintln!(rt; "birch: no index is used: {what}");
            }
            Ok(Use::Refused)
        }
    }
}

/// The index of what is searched after trouble with the one that is kept, which is told. One of a folder above is not
/// made anew: it has more than what is searched.
pub fn after_trouble(
    rt: &HostRuntime,
    reading: &Reading<'_>,
    trouble: Trouble,
) -> Result<Use, QueryError> {
    let home = match home_of(rt, reading, &reading.paths) {
        Ok(home) => home,
        Err(other) => return without_home(rt, reading, other),
    };
    let is_own = reading.keeping == Keeping::Make || is_there(rt, &home).unwrap_or(true);
    if is_own {
        mended(rt, reading, &home, trouble)
    } else {
        tell(rt, &home, trouble, "no index is used");
        Ok(Use::Refused)
    }
}

// Tells of trouble, and makes the index anew where that helps.
fn mended(
    rt: &HostRuntime,
    reading: &Reading<'_>,
    home: &Home,
    trouble: Trouble,
) -> Result<Use, QueryError> {
    let made = if trouble.is_mended_anew() {
        tell(rt, home, trouble, "it is made anew");
        made_anew(rt, reading, home)
    } else {
        Err(trouble)
    };
    match made {
        Ok(index) => Ok(Use::Kept(index)),
        Err(Trouble::Stopped(error)) => Err(error),
        Err(trouble) => {
            tell(rt, home, trouble, "no index is used");
            Ok(Use::Refused)
        }
    }
}

fn tell(rt: &HostRuntime, home: &Home, trouble: Trouble, then: &str) {
    let (folder, what) = (Cleaned(home.folder.as_str()), trouble.what());
    let _ = eprintln!(rt; "birch: the index in {folder}: {what}; {then}");
}

// The index that is kept; none where there is none, and none is asked for. Where another run has replaced it meanwhile,
// and removed its files, it is opened again.
fn tried(rt: &HostRuntime, reading: &Reading<'_>, home: &Home) -> Result<Option<Index>, Trouble> {
    // each turn so far found that another run was replacing the index
    for _ in 1..TRIES {
        match tried_once(rt, reading, home) {
            Err(Trouble::Missing) => {}
            done => return done,
        }
    }
    tried_once(rt, reading, home)
}

fn tried_once(
    rt: &HostRuntime,
    reading: &Reading<'_>,
    home: &Home,
) -> Result<Option<Index>, Trouble> {
    match reading.keeping {
        Keeping::Stale => as_it_stands(rt, reading, home),
        Keeping::Make => Ok(Some(up_to_date(rt, reading, home)?)),
        Keeping::Use | Keeping::Never | Keeping::Forget => {
            if is_there(rt, home)? {
                Ok(Some(up_to_date(rt, reading, home)?))
            } else {
                Ok(None)
            }
        }
    }
}

// The index as it stands.
fn as_it_stands(
    rt: &HostRuntime,
    reading: &Reading<'_>,
    home: &Home,
) -> Result<Option<Index>, Trouble> {
    let Some(standing) = read_standing(rt, home)? else {
        return Ok(None);
    };
    note_again(rt, reading, &standing.catalogue, &[])?;
    Ok(Some(open_whole(rt, reading, home, standing, 0)?))
}

fn open_whole(
    rt: &HostRuntime,
    reading: &Reading<'_>,
    home: &Home,
    standing: Standing,
    read: usize,
) -> Result<Index, Trouble> {
    let nothing = Gone::new(Vec::new(rt.alloc()));
    open(rt, reading, home, standing, &nothing, read)
}

// The index, brought up to date.
fn up_to_date(rt: &HostRuntime, reading: &Reading<'_>, home: &Home) -> Result<Index, Trouble> {
    let files = to_keep(rt, reading, &reading.paths)?;
    if let Some(standing) = read_standing(rt, home)? {
        if is_unchanged(rt, reading, &standing, &files)? {
            return open_whole(rt, reading, home, standing, 0);
        }
    }
    let (standing, read) = bring_up_to_date(rt, reading, home, files, false)?;
    open_whole(rt, reading, home, standing, read)
}

// Whether an index is of these files as they are. What was left out of those that stay is noted again.
fn is_unchanged(
    rt: &HostRuntime,
    reading: &Reading<'_>,
    standing: &Standing,
    files: &ToKeep,
) -> Result<bool, Trouble> {
    let changes = changes_of(rt.alloc(), &standing.catalogue.kept, &files.keys)?;
    note_again(rt, reading, &standing.catalogue, &changes.gone)?;
    Ok(changes.gone.is_empty() && changes.to_read.is_empty())
}

// The index, made anew of all files.
fn made_anew(rt: &HostRuntime, reading: &Reading<'_>, home: &Home) -> Result<Index, Trouble> {
    let files = to_keep(rt, reading, &reading.paths)?;
    let (standing, read) = bring_up_to_date(rt, reading, home, files, true)?;
    open_whole(rt, reading, home, standing, read)
}

/// The files that are found at these paths, each of which can be read again.
pub fn to_keep(rt: &HostRuntime, reading: &Reading<'_>, paths: &[&str]) -> Result<ToKeep, Trouble> {
    let moment = moment(rt)?;
    let found = find_files(rt, reading, paths)?;
    if found.iter().any(|file| file.is_stream) {
        return Err(Trouble::Stream);
    }
    let keys = found_files(rt.alloc(), paths, &found)?;
    Ok(ToKeep {
        found,
        keys,
        moment,
    })
}

// This moment, in nanoseconds since 1970.
fn moment(rt: &HostRuntime) -> Result<u64, Trouble> {
    let now = SystemTime::now(rt)?;
    match now.duration_since(UNIX_EPOCH) {
        Ok(since) => Ok(u64::try_from(since.as_nanos()).unwrap_or(0)),
        // of a clock that stands before 1970 no file counts as settled
        Err(_) => Ok(0),
    }
}

/// Removes the index that is kept of what would be searched, and answers whether there was one.
pub fn forget_kept(rt: &HostRuntime, reading: &Reading<'_>) -> Result<bool, Trouble> {
    let home = home_of(rt, reading, &reading.paths)?;
    forget(rt, &home)
}
