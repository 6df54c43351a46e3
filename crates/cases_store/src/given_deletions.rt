//! A segment of which documents are deleted, and the file that tells so.

use crate::asked_segment::write_error;
use crate::changed_bytes::changed;
use crate::given_part::GivenPart;
use crate::given_segment::read_key;
use crate::spelled::{bytes_of, write_bytes, write_numbers};
use cases::{Asker, Done, Fault, Listing, Memory, behind, end_refusals, word, words_of};
use qm_postings::SegmentReader;
use qm_schema::QueryError;
use qm_store::{delete_stored, deletions_bytes};
use std::alloc::Global;

/// A segment that has documents alone, and the key by which its deletions are written and read.
#[derive(Drop)]
pub struct GivenDeletions {
    key: u64,
    whole: GivenPart,
    part: GivenPart,
}

impl GivenDeletions {
    /// That of the words `deletions KEY DOCUMENTS`, none of them deleted.
    pub fn make(alloc: Global, words: &[&str]) -> Result<GivenDeletions, Fault> {
        let mut given = GivenDeletions {
            key: read_key(word(words, 1))?,
            whole: GivenPart::new(alloc),
            part: GivenPart::new(alloc),
        };
        given.whole.take(alloc, &["documents", word(words, 2)])?;
        given.part.take(alloc, &["documents", word(words, 2)])?;
        Ok(given)
    }

    // The bytes that tell which documents are deleted.
    fn bytes(&self, alloc: Global, memory: Memory) -> Result<Vec<u8>, Fault> {
        let segment = self.part.segment(alloc)?;
        memory.begin(alloc);
        let made = deletions_bytes(alloc, &segment, self.key);
        end_refusals(alloc);
        match made {
            Ok(bytes) => Ok(bytes),
            Err(_) => Err(Fault::Refused(QueryError::Memory)),
        }
    }

    // Which documents are deleted after bytes were read, or why they can't be.
    fn ask_read(&self, alloc: Global, bytes: &[u8], memory: Memory, text: &mut Listing) -> Done {
        let mut segment = self.whole.segment(alloc)?;
        if segment.has_deletes() {
            return Err(Fault::NotAllowed);
        }
        memory.begin(alloc);
        let read = delete_stored(alloc, &mut segment, self.key, bytes);
        end_refusals(alloc);
        match read {
            Ok(()) => write_deleted(alloc, &segment, text),
            Err(error) => write_error(error, text),
        }
    }
}

// Writes the numbers of the deleted documents.
fn write_deleted(alloc: Global, segment: &SegmentReader, text: &mut Listing) -> Done {
    let mut numbers = Vec::new(alloc);
    // of the documents before this one those that are deleted are there
    for doc in 0..segment.max_doc() {
        let is_alive = match segment.alive_bitset() {
            Some(alive) => alive.is_alive(doc),
            None => true,
        };
        if !is_alive {
            numbers.push(doc)?;
        }
    }
    Ok(write_numbers(&numbers, text))
}

impl Asker for GivenDeletions {
    // `deleted NUMBERS`, which documents are deleted from then on; `bytes`, those that tell so; `read BYTES`, which documents
    // are deleted after these were read in a segment of which none was; `again`, the same of its own bytes, which may be
    // changed.
    fn ask(&mut self, alloc: Global, call: &str, memory: Memory, text: &mut Listing) -> Done {
        let words = words_of(alloc, call)?;
        match word(&words, 0) {
            "deleted" => self.part.take(alloc, &words),
            "bytes" => Ok(write_bytes(&self.bytes(alloc, memory)?, text)),
            "read" => {
                let bytes = bytes_of(alloc, behind(&words, 1))?;
                self.ask_read(alloc, &bytes, memory, text)
            }
            _ => {
                let own = self.bytes(alloc, Memory::Ample)?;
                let (bytes, count) = changed(alloc, &own, &words)?;
                if word(&words, count) != "again" {
                    return Err(Fault::NotUnderstood);
                }
                self.ask_read(alloc, &bytes, memory, text)
            }
        }
    }
}
