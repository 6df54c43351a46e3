//! What is asked of a file of places.

use crate::asked_segment::write_error;
use crate::changed_bytes::changed;
use crate::heard_pieces::{Heard, HeardPieces};
use crate::written_file::file_of;
use cases::{Done, Fault, Listing, Memory, behind, end_refusals, number, word};
use qm_store::{DocumentPlace, Pieces, StoreError, StoredPlaces};
use std::alloc::Global;

/// With what a file of places is opened, and which requests for memory are refused in the call that is made.
#[derive(Clone, Copy)]
pub struct PlacesCall {
    pub key: u64,
    pub max_doc: u32,
    pub memory: Memory,
}

/// Answers `open`, of how many documents a file tells the places, and `place D`, where a document stands, by its bytes as
/// they are or changed; `filed CALL`, the same where they stand in a file; `failing N CALL`, where the N-th call of what
/// has the bytes is refused; and `counted CALL`, behind whose answer stands how many such calls there were, and how many
/// bytes they read.
pub fn ask_places(
    alloc: Global,
    rt: &HostRuntime,
    bytes: &[u8],
    call: PlacesCall,
    words: &[&str],
    text: &mut Listing,
) -> Done {
    let (bytes, count) = changed(alloc, bytes, words)?;
    let words = behind(words, count);
    match word(words, 0) {
        "filed" => {
            let file = file_of(rt, alloc, &bytes, bytes.len() as u64)?;
            ask_source(alloc, file, call, behind(words, 1), text)
        }
        "failing" => {
            let Some(refused) = number(words, 1) else {
                return Err(Fault::NotUnderstood);
            };
            let heard = Heard::new(u64::from(refused));
            ask_heard(alloc, &bytes, &heard, call, behind(words, 2), text)
        }
        "counted" => {
            let heard = Heard::new(0);
            ask_heard(alloc, &bytes, &heard, call, behind(words, 1), text)?;
            let (calls, read) = (heard.calls.get(), heard.bytes.get());
            Ok(write!(text, " calls {calls} bytes {read}"))
        }
        _ => ask_source(alloc, bytes, call, words, text),
    }
}

fn ask_heard(
    alloc: Global,
    bytes: &[u8],
    heard: &Heard,
    call: PlacesCall,
    words: &[&str],
    text: &mut Listing,
) -> Done {
    ask_source(alloc, HeardPieces { bytes, heard }, call, words, text)
}

// What is answered where the bytes stand there: the call that is asked for is the one whose requests are refused.
fn ask_source<P: Pieces + Drop>(
    alloc: Global,
    source: P,
    call: PlacesCall,
    words: &[&str],
    text: &mut Listing,
) -> Done {
    match word(words, 0) {
        "open" => {
            call.memory.begin(alloc);
            let opened = StoredPlaces::open(alloc, source, call.key, call.max_doc);
            end_refusals(alloc);
            match opened {
                Ok(places) => Ok(write!(text, "{} documents", places.max_doc())),
                Err(error) => write_error(error, text),
            }
        }
        "place" => {
            let Some(doc) = number(words, 1) else {
                return Err(Fault::NotUnderstood);
            };
            match StoredPlaces::open(alloc, source, call.key, call.max_doc) {
                Ok(places) => ask_place(alloc, &places, doc, call.memory, text),
                Err(error) => write_error(error, text),
            }
        }
        _ => Err(Fault::NotUnderstood),
    }
}

fn ask_place<P: Pieces + Drop>(
    alloc: Global,
    places: &StoredPlaces<P>,
    doc: u32,
    memory: Memory,
    text: &mut Listing,
) -> Done {
    if doc >= places.max_doc() {
        return Err(Fault::NotAllowed);
    }
    memory.begin(alloc);
    let found: Result<DocumentPlace, StoreError> = places.place(alloc, doc);
    end_refusals(alloc);
    match found {
        Ok(place) => Ok(write_place(&place, text)),
        Err(error) => write_error(error, text),
    }
}

fn write_place(place: &DocumentPlace, text: &mut Listing) {
    write!(text, "{} {}", place.file, place.line);
    write!(text, " {} {}", place.first_byte, place.byte_count);
}
