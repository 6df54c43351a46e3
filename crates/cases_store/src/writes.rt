//! What is asked of something that is written.

use crate::asked_segment::write_error;
use crate::sink::{Manner, Sink};
use crate::spelled::write_bytes;
use cases::{Done, Fault, Listing, Memory, end_refusals, number, word};
use qm_store::StoreError;
use std::alloc::Global;
use std::io::Write;

// how many writes are refused one after another at most
const MOST_WRITES: u32 = 10000;

// how many bytes are taken at once then
const PART: usize = 16;

/// What is made into bytes by a key, or written.
pub trait Writes {
    /// Its bytes.
    fn bytes(&self, alloc: Global, key: u64) -> Result<Vec<u8>, StoreError>;

    /// Writes them.
    fn write<W: Write>(&self, alloc: Global, key: u64, out: &mut W) -> Result<(), StoreError>;
}

/// Answers `bytes`, those of what is written, and `written`, those that were written, all at once; `interrupted`, the same
/// where each write was interrupted, `by N`, where so many bytes at most were taken at once, and `each write fails`, how it
/// is refused where its first write fails, then the second, until none does; `None` where none of these was asked.
pub fn ask_written<T: Writes>(
    alloc: Global,
    source: &T,
    key: u64,
    memory: Memory,
    words: &[&str],
    text: &mut Listing,
) -> Option<Done> {
    let manner = match word(words, 0) {
        "bytes" => return Some(ask_bytes(alloc, source, key, memory, text)),
        "each" => return Some(ask_each(alloc, source, key, text)),
        "written" => Manner::whole(),
        "interrupted" => Manner {
            is_interrupted: true,
            ..Manner::whole()
        },
        "by" => match number(words, 1) {
            Some(most) => Manner {
                most: most as usize,
                ..Manner::whole()
            },
            None => return Some(Err(Fault::NotUnderstood)),
        },
        _ => return None,
    };
    Some(ask_written_bytes(alloc, source, key, memory, manner, text))
}

fn ask_bytes<T: Writes>(
    alloc: Global,
    source: &T,
    key: u64,
    memory: Memory,
    text: &mut Listing,
) -> Done {
    memory.begin(alloc);
    let made = source.bytes(alloc, key);
    end_refusals(alloc);
    match made {
        Ok(bytes) => Ok(write_bytes(&bytes, text)),
        Err(error) => write_error(error, text),
    }
}

// The bytes that are written in a manner. Where there is no memory for them, none may be written.
fn ask_written_bytes<T: Writes>(
    alloc: Global,
    source: &T,
    key: u64,
    memory: Memory,
    manner: Manner,
    text: &mut Listing,
) -> Done {
    let mut sink = Sink::new(alloc, manner)?;
    memory.begin(alloc);
    let written = source.write(alloc, key, &mut sink);
    end_refusals(alloc);
    match written {
        Ok(()) => Ok(write_bytes(&sink.bytes, text)),
        Err(StoreError::Memory) if !sink.bytes.is_empty() => {
            Ok(text.word("written before it was refused"))
        }
        Err(error) => write_error(error, text),
    }
}

// How each write is refused, of few bytes each: `failed` where all are answered so, each is the last, and what was taken
// before it is how the bytes begin.
fn ask_each<T: Writes>(alloc: Global, source: &T, key: u64, text: &mut Listing) -> Done {
    let mut whole = Sink::new(alloc, Manner::whole())?;
    if source.write(alloc, key, &mut whole).is_err() {
        return Err(Fault::NotAllowed);
    }
    // with each write before this one refused, it was the last, and only a beginning was taken
    for refused in 1..MOST_WRITES {
        let manner = Manner {
            most: PART,
            refused,
            ..Manner::whole()
        };
        let mut sink = Sink::new(alloc, manner)?;
        let written = source.write(alloc, key, &mut sink);
        if written.is_ok() {
            let answer = if refused == 1 { "none" } else { "failed" };
            return Ok(text.word(answer));
        }
        let is_beginning = whole.bytes.starts_with(&sink.bytes);
        if written != Err(StoreError::Failed) || !sink.was_refused_last() || !is_beginning {
            return Ok(write!(text, "not as wanted at write {refused}"));
        }
    }
    Err(Fault::NotAllowed)
}
