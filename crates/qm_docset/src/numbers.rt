//! Numbers of documents, and their scores.
//!
//! Scores stand beside the numbers, in the lowest crate: statistics of postings, combiners and weights all speak of
//! them.

/// A document's number within its segment, from 0 up.
pub type DocId = u32;

/// A document's score, in whole points. A score is never negative; a threshold may be.
pub type Score = i64;

/// The document that a cursor stands on at its end. Every document of a segment is below it.
pub const TERMINATED: DocId = 2147483647;

/// How many documents [`DocSet::fill_buffer`](crate::DocSet::fill_buffer) takes at once.
pub const COLLECT_BLOCK_BUFFER_LEN: usize = 64;
