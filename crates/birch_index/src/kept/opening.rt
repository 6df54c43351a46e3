//! An index that is kept, opened.

use crate::files::Source;
use crate::index::{Index, Tally, schema};
use crate::kept::Trouble;
use crate::kept::catalogue::{Catalogue, Known};
use crate::kept::gone::Gone;
use crate::kept::home::Home;
use crate::kept::keys::shown_path;
use crate::kept::marks::Marks;
use crate::kept::reading::Standing;
use crate::kept::segment::{KeptPart, open_part};
use crate::kept::segments::KeptSegments;
use crate::reading::Reading;
use qm_folder::KeptFile;
use qm_store::KeptSegment;
use std::alloc::Global;

/// The index as it stands, but for the documents of some files, to bring which up to date so many files were read.
pub fn open(
    rt: &HostRuntime,
    reading: &Reading<'_>,
    home: &Home,
    standing: Standing,
    left_out: &Gone,
    read: usize,
) -> Result<Index, Trouble> {
    let alloc = rt.alloc();
    let Standing {
        segments,
        catalogue,
    } = standing;
    let parts = open_parts(rt, home, &segments, left_out)?;
    let tally = tally_of(&catalogue);
    let numbers = numbers_of(alloc, &catalogue)?;
    let files = sources(alloc, &reading.paths, catalogue)?;
    let kept = KeptSegments::new(alloc, parts, &numbers, tally, read)?;
    Ok(Index::of_kept(alloc, kept, files, tally)?)
}

fn open_parts(
    rt: &HostRuntime,
    home: &Home,
    segments: &[KeptSegment],
    left_out: &Gone,
) -> Result<Vec<KeptPart>, Trouble> {
    let alloc = rt.alloc();
    let (schema, _) = schema(alloc)?;
    let mut parts = Vec::with_capacity(alloc, segments.len())?;
    // the segments before this one are open, without what is left out
    for segment in segments {
        let mut part = open_part(rt, home, &schema, segment)?;
        if !left_out.is_empty() {
            part.leave_out(rt, home, &schema, left_out)?;
        }
        parts.push(part)?;
    }
    Ok(parts)
}

/// How much an index is of.
pub fn tally_of(catalogue: &Catalogue) -> Tally {
    let mut tally = Tally {
        documents: 0,
        words: 0,
        bytes: 0,
    };
    // the tally is that of the files before this one
    for (kept, known) in catalogue.kept.iter().zip(catalogue.known.iter()) {
        tally.documents = tally.documents.saturating_add(known.documents);
        tally.words = tally.words.saturating_add(known.words);
        if known.number.is_some() {
            tally.bytes = tally.bytes.saturating_add(kept.stamp.size);
        }
    }
    tally
}

// The numbers of the files that were taken in.
fn numbers_of(alloc: Global, catalogue: &Catalogue) -> Result<Vec<u32>, Trouble> {
    let mut numbers = Vec::with_capacity(alloc, catalogue.known.len())?;
    // the numbers of the files before this one are there, where they have one
    for known in &catalogue.known {
        if let Some(number) = known.number {
            numbers.push(number)?;
        }
    }
    Ok(numbers)
}

// The files that were taken in, under the paths that are shown.
fn sources(alloc: Global, paths: &[&str], catalogue: Catalogue) -> Result<Vec<Source>, Trouble> {
    let Catalogue { kept, known, .. } = catalogue;
    let mut files = Vec::with_capacity(alloc, known.len())?;
    // the files before this one that have documents are there
    for (kept, known) in kept.iter().zip(known.iter()) {
        if known.number.is_some() {
            files.push(source(alloc, paths, kept, known)?)?;
        }
    }
    Ok(files)
}

fn source(
    alloc: Global,
    paths: &[&str],
    kept: &KeptFile,
    known: &Known,
) -> Result<Source, Trouble> {
    Ok(Source {
        path: shown_path(alloc, paths, &kept.path)?,
        name_words: String::new(alloc),
        kept: None,
        column: known.column as usize,
        is_converted: known.is_converted,
        stamp: Some(kept.stamp),
    })
}

/// Notes again what was left out of files when they were read, but for those at these places.
pub fn note_again(
    rt: &HostRuntime,
    reading: &Reading<'_>,
    catalogue: &Catalogue,
    gone: &[usize],
) -> Result<(), Trouble> {
    let mut marks = Marks::new(gone);
    let files = catalogue.kept.iter().zip(catalogue.known.iter());
    // the files before this one that stay and were left out are noted
    for (place, (kept, known)) in files.enumerate() {
        if marks.takes(place) {
            continue;
        }
        if let Some(why) = known.left_out {
            let path = shown_path(rt.alloc(), &reading.paths, &kept.path)?;
            reading.notes.add(rt, path.as_str(), why);
        }
    }
    Ok(())
}
