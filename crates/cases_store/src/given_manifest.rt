//! What an index is, beside its segments, and the file that tells so.

use crate::asked_segment::write_error;
use crate::changed_bytes::changed;
use crate::given_segment::read_key;
use crate::kept::read_named_schema;
use crate::spelled::{bytes_of, read_text, write_bytes};
use crate::told_manifest::write_manifest;
use cases::{Asker, Done, Fault, Listing, Memory, behind, end_refusals, number, word, words_of};
use qm_postings::Searcher;
use qm_schema::{Field, QueryError, Term};
use qm_store::{KeptSegment, manifest_bytes, read_manifest};
use std::alloc::Global;
use std::collections::BTreeMap;

/// What a searcher says of terms and lengths, and what is written with it.
#[derive(Drop)]
pub struct GivenManifest {
    searcher: Searcher,
    block_len: u32,
    segments: Vec<KeptSegment>,
    note: Vec<u8>,
}

impl GivenManifest {
    /// That of the words `manifest BLOCK_LEN DEFAULT FIRST STEP FIELD..`: the norms begin with FIRST, and rise by STEP.
    pub fn make(alloc: Global, words: &[&str]) -> Result<GivenManifest, Fault> {
        let (Some(block_len), Some(first), Some(step)) = (
            number(words, 1),
            number(words, 3),
            number(words, 4),
        ) else {
            return Err(Fault::NotUnderstood);
        };
        let searcher = Searcher::from_parts(
            read_named_schema(alloc, behind(words, 5))?,
            Vec::new(alloc),
            BTreeMap::new(alloc),
            read_key(word(words, 2))?,
            norms_of(first, step),
        )?;
        Ok(GivenManifest {
            searcher,
            block_len,
            segments: Vec::new(alloc),
            note: Vec::new(alloc),
        })
    }

    // `weight FIELD TEXT N`, what a term weighs from then on.
    fn set_weight(&mut self, alloc: Global, words: &[&str]) -> Done {
        let (Some(field), Ok(weight)) = (number(words, 1), word(words, 3).parse::<i64>()) else {
            return Err(Fault::NotUnderstood);
        };
        if weight < 0 {
            return Err(Fault::NotAllowed);
        }
        let field = Field::from_field_id(field);
        let term = Term::from_field_text(alloc, field, read_text(word(words, 2)))?;
        Ok(self.searcher.set_weight(term, weight)?)
    }

    // `segment KEY DELETIONS DELETED`, one segment more.
    fn add_segment(&mut self, words: &[&str]) -> Done {
        let Some(deleted) = number(words, 3) else {
            return Err(Fault::NotUnderstood);
        };
        Ok(
            self.segments.push(KeptSegment {
                key: read_key(word(words, 1))?,
                deletions: read_key(word(words, 2))?,
                deleted,
            })?,
        )
    }

    // The bytes that tell all this.
    fn bytes(&self, alloc: Global, memory: Memory) -> Result<Vec<u8>, Fault> {
        memory.begin(alloc);
        let made = manifest_bytes(
            alloc,
            &self.searcher,
            self.block_len,
            &self.segments,
            &self.note,
        );
        end_refusals(alloc);
        match made {
            Ok(bytes) => Ok(bytes),
            Err(_) => Err(Fault::Refused(QueryError::Memory)),
        }
    }
}

// Norms that begin with one and rise by another, as far as they fit.
fn norms_of(first: u32, step: u32) -> [u32; 256] {
    let mut norms = [first; 256];
    // those before it rise
    for id in 0..256 {
        norms[id] = first.saturating_add(step.saturating_mul(id as u32));
    }
    norms
}

// What bytes tell, or why they can't be read.
fn ask_read(alloc: Global, bytes: &[u8], memory: Memory, text: &mut Listing) -> Done {
    memory.begin(alloc);
    let read = read_manifest(alloc, bytes);
    end_refusals(alloc);
    match read {
        Ok(manifest) => Ok(write_manifest(&manifest, text)),
        Err(error) => write_error(error, text),
    }
}

impl Asker for GivenManifest {
    // `weight FIELD TEXT N`, `segment KEY DELETIONS DELETED` and `note BYTES`, what is written from then on; `bytes`, those that tell
    // so; `read BYTES`, what these tell; `again`, the same of its own bytes, which may be changed.
    fn ask(&mut self, alloc: Global, call: &str, memory: Memory, text: &mut Listing) -> Done {
        let words = words_of(alloc, call)?;
        match word(&words, 0) {
            "weight" => self.set_weight(alloc, &words),
            "segment" => self.add_segment(&words),
            "note" => {
                self.note = bytes_of(alloc, behind(&words, 1))?;
                Ok(())
            }
            "bytes" => Ok(write_bytes(&self.bytes(alloc, memory)?, text)),
            "read" => {
                let bytes = bytes_of(alloc, behind(&words, 1))?;
                ask_read(alloc, &bytes, memory, text)
            }
            _ => {
                let own = self.bytes(alloc, Memory::Ample)?;
                let (bytes, count) = changed(alloc, &own, &words)?;
                if word(&words, count) != "again" {
                    return Err(Fault::NotUnderstood);
                }
                ask_read(alloc, &bytes, memory, text)
            }
        }
    }
}
