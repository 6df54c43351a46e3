//! A segment of a stored index.

/// A segment of a stored index: the numbers of its files, each of which has one of its own in its index, and how many of
/// its documents are deleted.
#[derive(Clone, Copy, Debug, PartialEq, Eq)]
pub struct KeptSegment {
    /// The number of the segment's file, which is the key by which it was written.
    pub key: u64,
    /// The number of its file of deletions, and 0 where there is none.
    pub deletions: u64,
    /// How many documents that file says are deleted.
    pub deleted: u32,
}
