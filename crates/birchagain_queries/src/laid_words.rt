//! Words that stand in bytes, one behind the other.

ghost use Rattle.std.specs.Prelude.{IfOk, map};
ghost use Rattle.birchagain_queries.specs.QueryWords.{AreLaid};

use std::alloc::{AllocError, Global};

/// Words that stand in some bytes one behind the other.
#[derive(Debug, Drop)]
pub struct LaidWords {
    /// Their bytes.
    pub bytes: Vec<u8>,
    /// Where each ends.
    pub ends: Vec<usize>,
}

impl LaidWords {
    /// These words. Costs a copy of each, and is refused for want of memory alone.
    pub fn new(alloc: Global, words: &[&str]) -> Result<LaidWords, AllocError>
        ensures { IfOk result (AreLaid (map (λ w. w.now) words.now)) }
    {
        let mut bytes = Vec::new(alloc);
        let mut ends = Vec::with_capacity(alloc, words.len())?;
        // those before this one stand there
        for word in words {
            bytes.extend_from_slice(word.as_bytes())?;
            ends.push(bytes.len())?;
        }
        Ok(LaidWords { bytes, ends })
    }
}
