//! The names of an index's files.

use std::alloc::{AllocError, Global};

/// The name of the file that a run locks while it brings an index up to date.
pub const LOCK: &str = "lock";

/// The name of the file of a segment.
pub fn segment_name(alloc: Global, number: u64) -> Result<String, AllocError> {
    format!(in alloc; "{number}.seg")
}

/// The name of the file of where the documents of a segment stand.
pub fn places_name(alloc: Global, number: u64) -> Result<String, AllocError> {
    format!(in alloc; "{number}.plc")
}

/// The name of a file of deletions.
pub fn deletions_name(alloc: Global, number: u64) -> Result<String, AllocError> {
    format!(in alloc; "{number}.del")
}

/// The number of a file by its name; none where it is no name of these.
pub fn number_of(name: &str) -> Option<u64> {
    let (number, kind) = name.split_once('.')?;
    match kind {
        "seg" | "plc" | "del" => number.parse::<u64>().ok(),
        _ => None,
    }
}
