//! What an index is, beside its segments.

use crate::kept_segment::KeptSegment;
use qm_schema::{Schema, Term};
use std::collections::BTreeMap;

/// What an index is, beside its segments: what a searcher says of terms and lengths, which segments there are, and a note.
#[derive(Debug, Drop)]
pub struct Manifest {
    /// The fields of its documents.
    pub schema: Schema,
    /// How many postings a block has, in a segment that is added.
    pub block_len: u32,
    /// What each term weighs that has no weight of its own, in whole scores.
    pub default_weight: u64,
    /// The norm of each length id, in words.
    pub norms: [u32; 256],
    /// What each other term weighs, in whole scores.
    pub weights: BTreeMap<Term, u64>,
    /// Its segments, in order.
    pub segments: Vec<KeptSegment>,
    /// Bytes of the application's own.
    pub note: Vec<u8>,
}
