//! What an index knows of files when it was brought up to date.

use crate::indexer::Gain;
use crate::kept::Trouble;
use crate::kept::catalogue::{Catalogue, Known};
use crate::kept::marks::Marks;
use qm_folder::{Changes, FoundFile, KeptFile, is_settled};
use std::alloc::{AllocError, Global};

/// What an index knew of files, and knows now: of those that stay what it knew, and of those that were read at a moment
/// what they gave. A file that couldn't be read is not known, so that the next run tries again.
pub fn renewed(
    alloc: Global,
    old: Catalogue,
    found: Vec<FoundFile>,
    changes: &Changes,
    gains: Vec<Option<Gain>>,
    moment: u64,
) -> Result<Catalogue, Trouble> {
    let Catalogue {
        asked,
        next,
        kept,
        known,
        ..
    } = old;
    let staying = staying(alloc, kept, known, &changes.gone)?;
    let mut new = Catalogue::new(alloc, asked);
    new.next = next;
    fill(&mut new, found, staying, changes, gains, moment)?;
    Ok(new)
}

// The files that stay.
fn staying(
    alloc: Global,
    kept: Vec<KeptFile>,
    known: Vec<Known>,
    gone: &[usize],
) -> Result<Vec<(KeptFile, Known)>, AllocError> {
    let mut marks = Marks::new(gone);
    let mut staying = Vec::with_capacity(alloc, kept.len())?;
    // the files before this one that are not gone are there
    for (place, file) in kept.into_iter().zip(known).enumerate() {
        if !marks.takes(place) {
            staying.push(file)?;
        }
    }
    Ok(staying)
}

// Adds what is known of each file that was found, in order.
fn fill(
    new: &mut Catalogue,
    found: Vec<FoundFile>,
    staying: Vec<(KeptFile, Known)>,
    changes: &Changes,
    gains: Vec<Option<Gain>>,
    moment: u64,
) -> Result<(), Trouble> {
    let mut marks = Marks::new(&changes.to_read);
    let mut staying = staying.into_iter();
    let mut gains = gains.into_iter();
    // the files before this one are in the catalogue, as they were read or as they stay
    for (place, file) in found.into_iter().enumerate() {
        if marks.takes(place) {
            if let Some(Some(gain)) = gains.next() {
                new.add_read(file, gain, moment)?;
            }
        } else if let Some((kept, known)) = staying.next() {
            new.add(kept, known)?;
        }
    }
    Ok(())
}

impl Catalogue {
    // Adds a file, behind all others.
    fn add(&mut self, kept: KeptFile, known: Known) -> Result<(), Trouble> {
        self.kept.push(kept)?;
        self.known.push(known)?;
        Ok(())
    }

    // Adds a file that was read at a moment.
    fn add_read(&mut self, file: FoundFile, gain: Gain, moment: u64) -> Result<(), Trouble> {
        let number = if gain.is_taken {
            Some(self.take_number()?)
        } else {
            None
        };
        let kept = KeptFile {
            settled: is_settled(&file.stamp, moment),
            path: file.path,
            stamp: file.stamp,
        };
        let known = Known {
            number,
            documents: gain.documents,
            words: gain.words,
            column: u32::try_from(gain.column).unwrap_or(u32::MAX),
            is_converted: gain.is_converted,
            left_out: gain.left_out,
        };
        self.add(kept, known)
    }

    // A number that no file was given.
    fn take_number(&mut self) -> Result<u32, Trouble> {
        let number = self.next;
        match number.checked_add(1) {
            Some(next) => {
                self.next = next;
                Ok(number)
            }
            None => Err(Trouble::Damaged),
        }
    }
}
