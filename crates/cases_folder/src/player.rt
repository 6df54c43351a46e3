//! Which blocks there are.

use crate::compared::{Compared, GivenStamp};
use crate::given::GivenChange;
use crate::given_files::GivenFiles;
use crate::memory::InMemory;
use crate::names::GivenNames;
use crate::system::OnDisk;
use cases::{Block, Done, Fault, Player, Report, play_asked, word};
use std::alloc::Global;
use std::rt::Files;

/// Plays blocks of changes of an index, over folders in memory and in a scratch folder of the system, and of files that are
/// compared.
#[derive(Drop)]
pub struct Folders<'a, R: Files + AllocGlobal + Clone + Drop> {
    pub files: &'a R,
    pub scratch: &'a str,
}

impl<'a, R: Files + AllocGlobal + Clone + Drop> Player for Folders<'a, R> {
    fn play(&mut self, alloc: Global, block: Block<'_>, report: &mut Report) -> Done {
        match word(block.words, 0) {
            "memory" => {
                let change = GivenChange::make(alloc, block.words)?;
                play_asked(alloc, &mut InMemory { change }, block.rows, report)
            }
            "system" => {
                let change = GivenChange::make(alloc, block.words)?;
                let mut on_disk = OnDisk {
                    files: self.files,
                    scratch: self.scratch,
                    change,
                };
                play_asked(alloc, &mut on_disk, block.rows, report)
            }
            "names" => {
                let mut names = GivenNames::make(alloc, block.words)?;
                play_asked(alloc, &mut names, block.rows, report)
            }
            "changes" => {
                let files = GivenFiles::make(alloc, block.words)?;
                play_asked(alloc, &mut Compared { files }, block.rows, report)
            }
            "stamp" => {
                let mut stamp = GivenStamp::make(block.words)?;
                play_asked(alloc, &mut stamp, block.rows, report)
            }
            _ => Err(Fault::NotUnderstood),
        }
    }
}
