//! What is asked of files that an index has kept and files that are found, and of a stamp.

use crate::given_files::GivenFiles;
use crate::left::fault_of;
use cases::{Asker, Done, Fault, Listing, Memory, end_refusals, word, words_of};
use qm_folder::{FileStamp, ascend, changes, is_settled};
use std::alloc::Global;

/// Files that an index has kept, beside files that are found.
#[derive(Drop)]
pub struct Compared {
    pub files: GivenFiles,
}

impl Asker for Compared {
    // `changes`, the places of the kept files that are gone and of the found ones that are to be read; `ascend`, which of
    // the two have their paths in order.
    fn ask(&mut self, alloc: Global, call: &str, memory: Memory, text: &mut Listing) -> Done {
        match call {
            "changes" => self.compare(alloc, memory, text),
            "ascend" => Ok(self.write_order(alloc, memory, text)),
            _ => Err(Fault::NotUnderstood),
        }
    }
}

impl Compared {
    fn compare(&self, alloc: Global, memory: Memory, text: &mut Listing) -> Done {
        if !ascend(&self.files.kept) || !ascend(&self.files.found) {
            return Err(Fault::NotAllowed);
        }
        memory.begin(alloc);
        let compared = changes(alloc, &self.files.kept, &self.files.found);
        end_refusals(alloc);
        match compared {
            Ok(changed) => {
                text.word("gone");
                write_places(&changed.gone, text);
                text.word(" read");
                Ok(write_places(&changed.to_read, text))
            }
            Err(error) => Err(fault_of(error)),
        }
    }

    fn write_order(&self, alloc: Global, memory: Memory, text: &mut Listing) {
        memory.begin(alloc);
        let kept = ascend(&self.files.kept);
        let found = ascend(&self.files.found);
        end_refusals(alloc);
        text.word(match (kept, found) {
            (true, true) => "both",
            (true, false) => "kept",
            (false, true) => "found",
            (false, false) => "none",
        });
    }
}

fn write_places(places: &[usize], text: &mut Listing) {
    // the places before this one are written
    for place in places {
        text.add(place);
    }
}

/// A stamp.
#[derive(Drop)]
pub struct GivenStamp {
    stamp: FileStamp,
}

impl GivenStamp {
    /// That of the words `stamp BYTES_CHANGED CHANGED`.
    pub fn make(words: &[&str]) -> Result<GivenStamp, Fault> {
        let stamp = FileStamp {
            size: 0,
            bytes_changed: read_time(word(words, 1))?,
            changed: read_time(word(words, 2))?,
            inode: 0,
        };
        Ok(GivenStamp { stamp })
    }
}

impl Asker for GivenStamp {
    // `read AT`, whether a file with that stamp which is read then is settled.
    fn ask(&mut self, alloc: Global, call: &str, memory: Memory, text: &mut Listing) -> Done {
        let words = words_of(alloc, call)?;
        if word(&words, 0) != "read" {
            return Err(Fault::NotUnderstood);
        }
        let read_at = read_time(word(&words, 1))?;
        memory.begin(alloc);
        let settled = is_settled(&self.stamp, read_at);
        end_refusals(alloc);
        Ok(text.word(if settled { "settled" } else { "unsettled" }))
    }
}

fn read_time(spelled: &str) -> Result<u64, Fault> {
    spelled.parse().map_err(|_| Fault::NotUnderstood)
}
