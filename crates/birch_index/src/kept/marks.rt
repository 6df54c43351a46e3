//! Places that are marked among others.

use crate::walk::Found;
use std::alloc::{AllocError, Global};

/// Places that are marked among others, ascending, which are asked for in turn.
#[derive(Clone, Copy)]
pub struct Marks<'a> {
    left: &'a [usize],
}

impl<'a> Marks<'a> {
    /// These.
    pub fn new(places: &'a [usize]) -> Marks<'a> {
        Marks { left: places }
    }

    /// Whether a place is marked; each is asked for behind all that come before it.
    pub fn takes(&mut self, place: usize) -> bool {
        match self.left.split_first() {
            Some((first, rest)) if *first == place => {
                self.left = rest;
                true
            }
            _ => false,
        }
    }
}

/// The files at these places, ascending.
pub fn files_at(
    alloc: Global,
    files: Vec<Found>,
    places: &[usize],
) -> Result<Vec<Found>, AllocError> {
    let mut marks = Marks::new(places);
    let mut taken = Vec::with_capacity(alloc, places.len())?;
    // the files before this one that stand at one of the places are taken
    for (place, file) in files.into_iter().enumerate() {
        if marks.takes(place) {
            taken.push(file)?;
        }
    }
    Ok(taken)
}
