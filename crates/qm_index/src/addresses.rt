//! Where documents stand that are numbered over several segments.
//!
//! The number behind the last document of each segment is kept, so that a document's segment is found by halving.

ghost use Rattle.std.specs.Prelude.{◌≡◌, ◌<◌, ◌≤◌, ◌+◌, ◌*◌, IfOk, IfSome, length, map};
ghost use Rattle.std.specs.Option.{IsNone};
ghost use Rattle.qm_docset.specs.declared.numbers.TheConstants.{TERMINATED};
ghost use Rattle.qm_index.specs.Numbers.{HasDocument, IsAddressOf, document_count, ends_from};

use qm_docset::DocId;
use qm_postings::{DocAddress, SegmentReader};
use std::alloc::{AllocError, Global};

/// The address of the document of this number over these segments, of which the first has that number.
/// Costs a step for each segment.
pub(crate) fn address_among(readers: &[SegmentReader], first_ord: u32, number: u64) -> DocAddress
    requires exists { number < document_count readers.now }
    requires few { first_ord + length readers.now ≤ 4294967295 }
    ensures address { IsAddressOf readers.now first_ord number result }
{
    let mut left = number;
    let mut segment_ord = first_ord;
    // the segments before have as many documents as were taken off
    for reader in readers {
        let len = u64::from(reader.max_doc());
        if left < len {
            return DocAddress::new(segment_ord, left as DocId);
        }
        left -= len;
        segment_ord += 1;
    }
    DocAddress::new(segment_ord, left as DocId)
}

/// The same by the numbers behind the last document of each of these segments, of which the first document has
/// number 0. By halving.
pub(crate) fn address_by_ends(readers: &[SegmentReader], ends: &[u64], number: u64) -> DocAddress
    requires exists { number < document_count readers.now }
    requires few { length readers.now ≤ 4294967295 }
    requires ends { ends.now ≡ ends_from 0 readers.now }
    ensures address { IsAddressOf readers.now 0 number result }
{
    let place = ends.partition_point(|end| *end <= number);
    let first = ends[place] - u64::from(readers[place].max_doc());
    DocAddress::new(place as u32, (number - first) as DocId)
}

/// The address of the document of this number over these segments, of which the first document has number 0: as
/// [`Index::searcher`](crate::Index::searcher) has them, the number that the index gave it. None where there is no such
/// document. Costs a step for each segment, and takes no memory.
///
/// Asks that there are no more segments than a searcher has.
pub fn address_of(readers: &[SegmentReader], number: u64) -> Option<DocAddress>
    requires few { length readers.now ≤ 4294967295 }
    ensures address { IfSome result (IsAddressOf readers.now 0 number) }
    ensures none { IsNone result → document_count readers.now ≤ number }
{
    if number < count_documents(readers) {
        Some(address_among(readers, 0, number))
    } else {
        None
    }
}

/// The number over these segments of the document at an address. None where there is no such document. Costs a step for
/// each segment before it, and takes no memory.
///
/// Asks that there are no more segments than a searcher has.
pub fn number_of(readers: &[SegmentReader], address: DocAddress) -> Option<u64>
    requires few { length readers.now ≤ 4294967295 }
    ensures number { IfSome result (λ number. IsAddressOf readers.now 0 number address) }
    ensures none { IsNone result → ¬ HasDocument readers.now address }
{
    let place = address.segment_ord as usize;
    let reader = readers.get(place)?;
    if address.doc_id < reader.max_doc() {
        Some(count_documents(&readers[..place]) + u64::from(address.doc_id))
    } else {
        None
    }
}

// The numbers behind the last document of each of these segments, of which the first document has number 0.
pub(crate) fn ends_of(alloc: Global, readers: &[SegmentReader]) -> Result<Vec<u64>, AllocError>
    requires few { length readers.now ≤ 4294967295 }
    ensures ends { IfOk result (λ ends. ends.items ≡ ends_from 0 readers.now) }
{
    let mut ends = Vec::with_capacity(alloc, readers.len())?;
    let mut end: u64 = 0;
    // those of the segments so far are there
    for reader in readers {
        end += u64::from(reader.max_doc());
        ends.push(end)?;
    }
    Ok(ends)
}

// How many documents segments have, deleted ones too.
pub(crate) fn count_documents(readers: &[SegmentReader]) -> u64
    requires few { length readers.now ≤ 4294967295 }
    ensures count { result ≡ document_count readers.now }
    ensures few { result ≤ length readers.now * TERMINATED }
{
    let mut count = 0;
    // those of the segments so far are counted
    for reader in readers {
        count += u64::from(reader.max_doc());
    }
    count
}
