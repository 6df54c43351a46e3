//! Where the documents of a segment stand, and the file that tells so.

use crate::asked_places::{PlacesCall, ask_places};
use crate::asked_segment::write_error;
use crate::given_segment::read_key;
use crate::spelled::bytes_of;
use crate::writes::{Writes, ask_written};
use cases::{Asker, Done, Fault, Listing, Memory, behind, number, word, words_of};
use qm_store::{DocumentPlace, StoreError, places_bytes, write_places};
use std::alloc::Global;
use std::io::Write;

/// Bytes that are given by hand, and with what they are opened as a file of places.
#[derive(Drop)]
pub struct PlacedBytes<'r> {
    rt: &'r HostRuntime,
    key: u64,
    max_doc: u32,
    bytes: Vec<u8>,
}

impl<'r> PlacedBytes<'r> {
    /// Those of the words `placed KEY MAX_DOC BYTES`.
    pub fn make(
        alloc: Global,
        rt: &'r HostRuntime,
        words: &[&str],
    ) -> Result<PlacedBytes<'r>, Fault> {
        let Some(max_doc) = number(words, 2) else {
            return Err(Fault::NotUnderstood);
        };
        Ok(PlacedBytes {
            rt,
            key: read_key(word(words, 1))?,
            max_doc,
            bytes: bytes_of(alloc, behind(words, 3))?,
        })
    }
}

impl<'r> Asker for PlacedBytes<'r> {
    // What is asked of a file of places, of these bytes.
    fn ask(&mut self, alloc: Global, call: &str, memory: Memory, text: &mut Listing) -> Done {
        let words = words_of(alloc, call)?;
        let call = PlacesCall {
            key: self.key,
            max_doc: self.max_doc,
            memory,
        };
        ask_places(alloc, self.rt, &self.bytes, call, &words, text)
    }
}

/// Places, one for each document, and the key by which they are written and read.
#[derive(Drop)]
pub struct GivenPlaces<'r> {
    rt: &'r HostRuntime,
    key: u64,
    places: Vec<DocumentPlace>,
}

impl<'r> GivenPlaces<'r> {
    /// None so far, of the words `places KEY`.
    pub fn make(
        alloc: Global,
        rt: &'r HostRuntime,
        words: &[&str],
    ) -> Result<GivenPlaces<'r>, Fault> {
        Ok(GivenPlaces {
            rt,
            key: read_key(word(words, 1))?,
            places: Vec::new(alloc),
        })
    }

    // One more, by the words `add FILE LINE FIRST_BYTE BYTE_COUNT`.
    fn add(&mut self, words: &[&str]) -> Done {
        let (Some(file), Some(line), Some(first_byte), Some(byte_count)) = (
            number(words, 1),
            number(words, 2),
            number(words, 3),
            number(words, 4),
        ) else {
            return Err(Fault::NotUnderstood);
        };
        Ok(
            self.places.push(DocumentPlace {
                file,
                line,
                first_byte,
                byte_count,
            })?,
        )
    }

    // So many more, of which each tells what number it has, by the words `numbered COUNT`.
    fn add_numbered(&mut self, words: &[&str]) -> Done {
        let Some(count) = number(words, 1) else {
            return Err(Fault::NotUnderstood);
        };
        // the places of the numbers before this one are added
        for number in 0..count {
            self.places.push(DocumentPlace {
                file: number,
                line: number.saturating_add(1),
                first_byte: number.saturating_mul(16),
                byte_count: number % 7,
            })?;
        }
        Ok(())
    }

    // What is asked of a file of places, of the bytes of these.
    fn ask_own(&self, alloc: Global, words: &[&str], memory: Memory, text: &mut Listing) -> Done {
        let Ok(max_doc) = u32::try_from(self.places.len()) else {
            return Err(Fault::NotAllowed);
        };
        let call = PlacesCall {
            key: self.key,
            max_doc,
            memory,
        };
        match places_bytes(alloc, &self.places, self.key) {
            Ok(bytes) => ask_places(alloc, self.rt, &bytes, call, words, text),
            Err(error) => write_error(error, text),
        }
    }
}

/// Some places, as what is written.
#[derive(Drop)]
struct WrittenPlaces<'a> {
    places: &'a [DocumentPlace],
}

impl<'a> Writes for WrittenPlaces<'a> {
    fn bytes(&self, alloc: Global, key: u64) -> Result<Vec<u8>, StoreError> {
        places_bytes(alloc, self.places, key)
    }

    fn write<W: Write>(&self, alloc: Global, key: u64, out: &mut W) -> Result<(), StoreError> {
        write_places(alloc, self.places, key, out)
    }
}

impl<'r> Asker for GivenPlaces<'r> {
    // `add FILE LINE FIRST_BYTE BYTE_COUNT`, one place more, and `numbered COUNT`, so many; what is asked of how they are
    // written, and of a file of places, of their bytes.
    fn ask(&mut self, alloc: Global, call: &str, memory: Memory, text: &mut Listing) -> Done {
        let words = words_of(alloc, call)?;
        match word(&words, 0) {
            "add" => self.add(&words),
            "numbered" => self.add_numbered(&words),
            _ => {
                let written = WrittenPlaces {
                    places: &self.places,
                };
                match ask_written(alloc, &written, self.key, memory, &words, text) {
                    Some(answer) => answer,
                    None => self.ask_own(alloc, &words, memory, text),
                }
            }
        }
    }
}
