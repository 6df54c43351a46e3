//! Which documents of a segment are deleted, as a file beside it.

ghost use Rattle.std.specs.Prelude.{◌≡◌, [], IfOk, IfSome, IsErr, IsOkUnless, OnOk, length, nat_lt, option_map};
ghost use Rattle.std.specs.List.{list_all};
ghost use Rattle.qm_store.specs.Deletions.{AreNumbers, counted_at, deleting_only, deletions_read, numbers_in, stored_deletions};
ghost use Rattle.qm_store.specs.Pieces.{Gives};

use crate::gaps::{push_gaps, read_gaps};
use crate::head::push_head;
use crate::numbers::{push_number, read_number};
use crate::sealed::{push_digest, read_body};
use crate::store_error::StoreError;
use crate::words::{push_word, read_word};
use qm_docset::DocId;
use qm_postings::SegmentReader;
use std::alloc::{AllocError, Global};

/// The first bytes of each file of deletions.
const KIND: &[u8] = b"birchdel";

/// Which documents of a segment are deleted, as the bytes of a file beside the segment of that key. Costs a step for each
/// document of the segment, and four bytes for each deleted one besides what is written.
///
/// Refused for want of memory alone.
pub fn deletions_bytes(
    alloc: Global,
    segment: &SegmentReader,
    key: u64,
) -> Result<Vec<u8>, StoreError>
    ensures stored { IfOk result (λ v. v.items ≡ stored_deletions key (length segment.now.segment.documents) segment.now.segment.deleted) }
    ensures numbers { OnOk result (AreNumbers (length segment.now.segment.documents) segment.now.segment.deleted) }
    ensures refused { IsOkUnless result StoreError.Memory }
{
    let numbers = deleted_numbers(alloc, segment)?;
    let mut out = Vec::new(alloc);
    push_head(&mut out, KIND)?;
    push_word(&mut out, key)?;
    push_number(&mut out, u64::from(segment.max_doc()))?;
    push_number(&mut out, numbers.len() as u64)?;
    push_gaps(&mut out, &numbers)?;
    push_digest(&mut out, key, 0)?;
    Ok(out)
}

// The numbers of the deleted documents, ascending.
fn deleted_numbers(alloc: Global, segment: &SegmentReader) -> Result<Vec<DocId>, AllocError>
    ensures deleted { IfOk result (λ v. v.items ≡ segment.now.segment.deleted) }
    ensures numbers { OnOk result (AreNumbers (length segment.now.segment.documents) segment.now.segment.deleted) }
{
    let mut numbers = Vec::new(alloc);
    let Some(alive) = segment.alive_bitset() else {
        return Ok(numbers);
    };
    // those before it that are deleted are there
    for doc in 0..segment.max_doc() {
        if !alive.is_alive(doc) {
            numbers.push(doc)?;
        }
    }
    Ok(numbers)
}

/// Reads the file of deletions of the segment of a key, and deletes these documents in the segment: all else in it stays
/// as it was. Costs a step for each document of the segment where one is deleted, and one for each deleted one.
///
/// Asks that no document is deleted yet. Refused with [`StoreError::OtherFile`] where the bytes are no file of deletions,
/// with [`StoreError::OtherVersion`] where they are one of another version, and with [`StoreError::Damaged`] where they
/// are one that is not whole, or that is of a segment of another key, or of another number of documents; then nothing
/// was deleted. Else for want of memory, when some may have been deleted.
pub fn delete_stored(
    alloc: Global,
    segment: &mut SegmentReader,
    key: u64,
    bytes: &[u8],
) -> Result<(), StoreError>
    requires none { segment.old.segment.deleted ≡ [] }
    ensures read { Gives (λ _. segment.new.segment.deleted) result (deletions_read key (length segment.old.segment.documents) bytes.now) }
    ensures others { segment.new ≡ deleting_only segment.new.segment.deleted segment.old }
    ensures unread { IsErr (deletions_read key (length segment.old.segment.documents) bytes.now) → segment.new ≡ segment.old }
{
    let body = read_body(KIND, key, bytes)?;
    let Some(numbers) = read_numbers(alloc, key, segment.max_doc(), body)? else {
        return Err(StoreError::Damaged);
    };
    delete_all(alloc, segment, &numbers)?;
    Ok(())
}

// The numbers that the body of a file tells of the segment of a key; none where it tells no such.
fn read_numbers(
    alloc: Global,
    key: u64,
    count: DocId,
    body: &[u8],
) -> Result<Option<Vec<DocId>>, AllocError>
    ensures read { IfOk result (λ r. option_map (λ v. v.items) r ≡ numbers_in key count body.now) }
    ensures numbers { IfOk result (λ r. IfSome r (λ v. AreNumbers count v.items)) }
{
    let Some((deleted, rest)) = read_counts(key, count, body) else {
        return Ok(None);
    };
    let mut numbers = Vec::new(alloc);
    let Some(rest) = read_gaps(&mut numbers, rest, deleted)? else {
        return Ok(None);
    };
    if !are_within(&numbers, count) {
        return Ok(None);
    }
    if rest.is_empty() {
        Ok(Some(numbers))
    } else {
        Ok(None)
    }
}

// Whether each number is that of one of so many documents.
fn are_within(numbers: &[DocId], count: DocId) -> bool
    ensures { result ≡ list_all (λ d. nat_lt d count) numbers.now }
{
    numbers.iter().all(|number| *number < count)
}

// How many documents are deleted in the segment of a key that has so many, and the bytes behind it.
fn read_counts(key: u64, count: DocId, body: &[u8]) -> Option<(DocId, &[u8])>
    ensures { option_map (λ r. (r.0, r.1.now)) result ≡ counted_at key count body.now }
{
    let (own, rest) = read_word(body)?;
    if own != key {
        return None;
    }
    let (documents, rest) = read_number(rest)?;
    if documents != u64::from(count) {
        return None;
    }
    let (deleted, rest) = read_number(rest)?;
    if deleted > u64::from(count) {
        return None;
    }
    Some((deleted as DocId, rest))
}

// Deletes the documents of these numbers.
fn delete_all(
    alloc: Global,
    segment: &mut SegmentReader,
    numbers: &[DocId],
) -> Result<(), StoreError>
    requires none { segment.old.segment.deleted ≡ [] }
    requires numbers { AreNumbers (length segment.old.segment.documents) numbers.now }
    ensures deleted { OnOk result (segment.new.segment.deleted ≡ numbers.now) }
    ensures others { segment.new ≡ deleting_only segment.new.segment.deleted segment.old }
    ensures refused { IsOkUnless result StoreError.Memory }
{
    // those before it are deleted, and no others
    for number in numbers {
        match segment.delete(alloc, *number) {
            Ok(()) => {}
            Err(_) => return Err(StoreError::Memory),
        }
    }
    Ok(())
}
