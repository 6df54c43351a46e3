//! Where the documents of a segment stand, of which is read what is asked for.
//!
//! Why it is so:
//! - The digest of a piece stands behind it, so an open reads forty bytes however many documents there are.
//! - A file is as long as its number of documents says, so one that was cut is refused as it is opened.

ghost use Rattle.std.specs.Prelude.{◌≡◌, ◌≤◌, ◌+◌, ◌*◌, ◌<◌, Some, IfOk, IfSome, length, option_and_then};
ghost use Rattle.qm_store.specs.Pieces.{Gives, GivesSome, WhereKnown};
ghost use Rattle.qm_store.specs.Places.{documents_in, place_of, place_read, places_opened, places_size};
ghost use Rattle.qm_store.specs.Sealed.{unsealed};

use crate::document_place::DocumentPlace;
use crate::pieces::Pieces;
use crate::place_bytes::{PLACE_BYTES, read_place};
use crate::sealed::{DIGEST_BYTES, read_body, unsealed};
use crate::store_error::StoreError;
use crate::words::read_word;
use crate::written_places::{KIND, PIECE_PLACES};
use qm_docset::DocId;
use std::alloc::Global;

/// How many bytes stand before the first piece.
const START: u64 = 40;

/// How many bytes a piece has of which each place is there.
const PIECE_BYTES: u64 = 4104;

/// A file of places that is kept as bytes: where the documents of a segment stand. Places are read as they are asked for.
#[derive(Drop)]
pub struct StoredPlaces<P> {
    pub(crate) source: P,
    pub(crate) key: u64,
    pub(crate) documents: DocId,
}

impl<P: Pieces + Drop> StoredPlaces<P> {
    /// Opens the places of the segment of a key, which has so many documents. Reads the first forty bytes alone, and looks
    /// how many there are.
    ///
    /// Refused with [`StoreError::OtherFile`] where the bytes are no file of places, with [`StoreError::OtherVersion`]
    /// where they are one of another version, and with [`StoreError::Damaged`] where the first forty are damaged, or those
    /// of another key or of another number of documents, or where more bytes are there than such a file has, or fewer. Else
    /// as what has the bytes refuses them, and for want of memory.
    pub fn open(
        alloc: Global,
        source: P,
        key: u64,
        max_doc: DocId,
    ) -> Result<StoredPlaces<P>, StoreError>
        ensures opened { WhereKnown (P.bytes source) (λ file. Gives (λ s. s.documents) result (places_opened key max_doc file)) }
        ensures of { IfOk result (λ s. (s.source ≡ source) × (s.key ≡ key) × (s.documents ≡ max_doc)) }
    {
        let size = source.byte_count()?;
        let mut head = Vec::new(alloc);
        source.read_at(0, size.min(START), &mut head)?;
        let body = read_body(KIND, key, &head)?;
        match documents_in(key, max_doc, size, body) {
            Some(documents) => Ok(StoredPlaces {
                source,
                key,
                documents,
            }),
            None => Err(StoreError::Damaged),
        }
    }

    /// How many documents have a place. Constant time.
    pub fn max_doc(&self) -> DocId
        ensures { result ≡ self.now.documents }
    {
        self.documents
    }

    /// Where a document stands. Reads the piece that has its place: those of 256 documents at most.
    ///
    /// Asks that the segment has the document. Refused with [`StoreError::Damaged`] where the piece is damaged, or stood
    /// elsewhere. Else as what has the bytes refuses them, and for want of memory.
    pub fn place(&self, alloc: Global, doc: DocId) -> Result<DocumentPlace, StoreError>
        requires there { doc < self.now.documents }
        ensures { WhereKnown (P.bytes self.now.source) (λ file. GivesSome (λ place. place) result (place_read self.now.key self.now.documents doc file)) }
    {
        let number = doc / PIECE_PLACES;
        let count = PIECE_PLACES.min(self.documents - number * PIECE_PLACES);
        let start = START + u64::from(number) * PIECE_BYTES;
        let mut bytes = Vec::new(alloc);
        let len = u64::from(count * PLACE_BYTES) + DIGEST_BYTES as u64;
        self.source.read_at(start, len, &mut bytes)?;
        match place_in(self.key, start, doc % PIECE_PLACES, &bytes) {
            Some(place) => Ok(place),
            None => Err(StoreError::Damaged),
        }
    }
}

// The place of a number in a piece that stands at a place, in front of its digest.
fn place_in(key: u64, at: u64, number: u32, bytes: &[u8]) -> Option<DocumentPlace>
    requires { number * 16 + 8 ≤ length bytes.now }
    ensures { result ≡ option_and_then (place_of number) (unsealed key at bytes.now) }
{
    let piece = unsealed(key, at, bytes)?;
    let (_, rest) = piece.split_at(number as usize * PLACE_BYTES as usize);
    let (place, _) = read_place(rest)?;
    Some(place)
}

// How many documents the body of a head tells of, where they are so many, and so many bytes are those of their file.
fn documents_in(key: u64, max_doc: DocId, size: u64, body: &[u8]) -> Option<DocId>
    ensures told { result ≡ documents_in key max_doc size body.now }
    ensures same { IfSome result (λ documents. documents ≡ max_doc) }
{
    let (own, rest) = read_word(body)?;
    if own != key {
        return None;
    }
    let (documents, rest) = read_word(rest)?;
    if documents != u64::from(max_doc) {
        return None;
    }
    if size != file_size(max_doc) {
        return None;
    }
    if rest.is_empty() { Some(max_doc) } else { None }
}

// How many bytes the file of so many places has.
fn file_size(count: DocId) -> u64
    ensures { result ≡ places_size count }
{
    let pieces = count.div_ceil(PIECE_PLACES);
    START + (u64::from(count) * u64::from(PLACE_BYTES) + u64::from(pieces) * DIGEST_BYTES as u64)
}
