//! Why two segments were not merged.

use thiserror::Error;

/// Why two segments make no segment. Where several refusals are due, it is the one that comes first in this list.
#[derive(Clone, Copy, Debug, PartialEq, Eq, Error)]
pub enum MergeError {
    /// They have other fields than one another, or cut postings into blocks of other lengths.
    #[error("the segments have different fields or lengths of blocks")]
    Unlike,
    /// They have more than 2147483647 documents together.
    #[error("the segments have more than 2147483647 documents together")]
    TooMany,
    /// There was no memory left for the segment.
    #[error("out of memory")]
    Memory,
}
