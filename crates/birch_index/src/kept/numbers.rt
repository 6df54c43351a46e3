//! Numbers and texts in the bytes of a catalogue.

use crate::kept::Trouble;
use std::alloc::{AllocError, Global};

/// Adds the four bytes of a number, the lowest first.
pub fn push_half(out: &mut Vec<u8>, number: u32) -> Result<(), AllocError> {
    out.extend_from_slice(&number.to_le_bytes())
}

/// Adds the eight bytes of a number, the lowest first.
pub fn push_word(out: &mut Vec<u8>, number: u64) -> Result<(), AllocError> {
    out.extend_from_slice(&number.to_le_bytes())
}

/// Adds how many bytes there are, and these.
pub fn push_bytes(out: &mut Vec<u8>, bytes: &[u8]) -> Result<(), AllocError> {
    push_word(out, bytes.len() as u64)?;
    out.extend_from_slice(bytes)
}

/// Bytes of which some were read.
#[derive(Clone, Copy)]
pub struct Unread<'a> {
    rest: &'a [u8],
}

impl<'a> Unread<'a> {
    /// None of these was read.
    pub fn new(bytes: &'a [u8]) -> Unread<'a> {
        Unread { rest: bytes }
    }

    /// Whether all were read.
    pub fn is_done(&self) -> bool {
        self.rest.is_empty()
    }

    /// Reads a number of four bytes.
    pub fn half(&mut self) -> Result<u32, Trouble> {
        let Some((front, rest)) = self.rest.split_first_chunk::<4>() else {
            return Err(Trouble::Damaged);
        };
        self.rest = rest;
        Ok(u32::from_le_bytes(*front))
    }

    /// Reads a number of eight bytes.
    pub fn word(&mut self) -> Result<u64, Trouble> {
        let Some((front, rest)) = self.rest.split_first_chunk::<8>() else {
            return Err(Trouble::Damaged);
        };
        self.rest = rest;
        Ok(u64::from_le_bytes(*front))
    }

    /// Reads how many bytes there are, and these.
    pub fn bytes(&mut self) -> Result<&'a [u8], Trouble> {
        let count = usize::try_from(self.word()?).unwrap_or(usize::MAX);
        let Some((front, rest)) = self.rest.split_at_checked(count) else {
            return Err(Trouble::Damaged);
        };
        self.rest = rest;
        Ok(front)
    }

    /// Reads a text.
    pub fn text(&mut self, alloc: Global) -> Result<String, Trouble> {
        match str::from_utf8(self.bytes()?) {
            Ok(text) => Ok(String::from_str(alloc, text)?),
            Err(_) => Err(Trouble::Damaged),
        }
    }
}
