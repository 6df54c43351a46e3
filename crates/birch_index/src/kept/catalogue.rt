//! What an index knows of the files that it was made of.

use crate::left_out::LeftOut;
use qm_folder::KeptFile;
use std::alloc::Global;

/// What an index knows of the files that it was made of, and of its segments.
#[derive(Drop)]
pub struct Catalogue {
    /// What it is of.
    pub asked: String,
    /// The least number that no file was given.
    pub next: u32,
    /// What is known of each segment.
    pub spans: Vec<Span>,
    /// The path of each file, and by what a change of it is seen; the paths ascend.
    pub kept: Vec<KeptFile>,
    /// What else is known of each of these files.
    pub known: Vec<Known>,
}

/// What is known of a segment.
#[derive(Clone, Copy)]
pub struct Span {
    /// How many documents it has, deleted ones too.
    pub documents: u32,
    /// The least number of a file of which it may have documents.
    pub first: u32,
    /// The greatest.
    pub last: u32,
}

/// What is known of a file.
#[derive(Clone, Copy)]
pub struct Known {
    /// Its number, which no other file had before; none where it was left out.
    pub number: Option<u32>,
    /// How many documents it has.
    pub documents: u64,
    /// How many words these have.
    pub words: u64,
    /// Which column of a table was read.
    pub column: u32,
    /// Whether its text is its bytes written in another way.
    pub is_converted: bool,
    /// Why it, or some of its rows, were left out.
    pub left_out: Option<LeftOut>,
}

impl Catalogue {
    /// Of no file.
    pub fn new(alloc: Global, asked: String) -> Catalogue {
        Catalogue {
            asked,
            next: 1,
            spans: Vec::new(alloc),
            kept: Vec::new(alloc),
            known: Vec::new(alloc),
        }
    }
}
