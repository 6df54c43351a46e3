//! A stored segment over bytes that are given by hand.

use crate::asked_segment::{Call, ask};
use crate::changed_bytes::changed;
use crate::heard_pieces::{Heard, HeardPieces};
use crate::kept::read_schema;
use crate::spelled::bytes_of;
use crate::written_file::file_of;
use cases::{Asker, Done, Fault, Listing, Memory, behind, number, word, words_of};
use qm_schema::Schema;
use std::alloc::Global;

/// The bytes of a stored segment, or others; and what it is opened with.
#[derive(Drop)]
pub struct GivenSegment<'r> {
    rt: &'r HostRuntime,
    key: u64,
    schema: Schema,
    bytes: Vec<u8>,
    // whether they are read from a file
    is_file: bool,
}

impl<'r> GivenSegment<'r> {
    /// That of the words `stored KEY FIELDS BYTES`, or `filed KEY FIELDS BYTES`, whose bytes stand in a file.
    pub fn make(
        alloc: Global,
        rt: &'r HostRuntime,
        words: &[&str],
    ) -> Result<GivenSegment<'r>, Fault> {
        Ok(GivenSegment {
            rt,
            key: read_key(word(words, 1))?,
            schema: read_schema(alloc, word(words, 2))?,
            bytes: bytes_of(alloc, behind(words, 3))?,
            is_file: word(words, 0) == "filed",
        })
    }
}

/// The key that a word spells.
pub fn read_key(spelled: &str) -> Result<u64, Fault> {
    match spelled.parse() {
        Ok(key) => Ok(key),
        Err(_) => Err(Fault::NotUnderstood),
    }
}

impl<'r> Asker for GivenSegment<'r> {
    // `open` and `row FIELD TEXT`, of the bytes as they are or changed; `failing N CALL`, the same where the N-th call of
    // what has the bytes is refused, and `counted CALL`, behind whose answer stands how many such calls there were, and
    // how many bytes they read; `shortened N CALL`, the same of a file of which the first N bytes are left once it is open.
    fn ask(&mut self, alloc: Global, call: &str, memory: Memory, text: &mut Listing) -> Done {
        let words = words_of(alloc, call)?;
        let (bytes, count) = changed(alloc, &self.bytes, &words)?;
        let words = behind(&words, count);
        let call = Call {
            key: self.key,
            schema: &self.schema,
            memory,
        };
        match word(words, 0) {
            "failing" => ask_failing(alloc, &bytes, &call, words, text),
            "counted" => ask_counted(alloc, &bytes, &call, behind(words, 1), text),
            "shortened" => {
                let Some(left) = number(words, 1) else {
                    return Err(Fault::NotUnderstood);
                };
                let file = file_of(self.rt, alloc, &bytes, u64::from(left))?;
                ask(alloc, file, &call, behind(words, 2), text)
            }
            _ if self.is_file => {
                let file = file_of(self.rt, alloc, &bytes, bytes.len() as u64)?;
                ask(alloc, file, &call, words, text)
            }
            _ => ask(alloc, bytes, &call, words, text),
        }
    }
}

fn ask_failing(
    alloc: Global,
    bytes: &[u8],
    call: &Call<'_>,
    words: &[&str],
    text: &mut Listing,
) -> Done {
    let Some(refused) = number(words, 1) else {
        return Err(Fault::NotUnderstood);
    };
    let heard = Heard::new(u64::from(refused));
    let pieces = HeardPieces {
        bytes,
        heard: &heard,
    };
    ask(alloc, pieces, call, behind(words, 2), text)
}

fn ask_counted(
    alloc: Global,
    bytes: &[u8],
    call: &Call<'_>,
    words: &[&str],
    text: &mut Listing,
) -> Done {
    let heard = Heard::new(0);
    let pieces = HeardPieces {
        bytes,
        heard: &heard,
    };
    ask(alloc, pieces, call, words, text)?;
    let (calls, read) = (heard.calls.get(), heard.bytes.get());
    Ok(write!(text, " calls {calls} bytes {read}"))
}
