//! The text that the bytes of a file are.

use std::alloc::{AllocError, Global};

/// The mark in front of a text that says it is UTF-8.
const UTF8_MARK: &[u8] = b"\xef\xbb\xbf";

/// What the bytes of a file are.
#[derive(Drop)]
pub enum Decoded {
    /// This text, byte for byte.
    Text(String),
    /// This text, written in another way: it has a mark in front or is UTF-16, or U+FFFD stands for what is no UTF-8.
    Converted(String),
    /// No text, since it has a zero byte.
    Binary,
}

/// The text that the bytes of a file are. Of a mark in front the rest is the text: in UTF-16 where the mark says so.
/// All else is UTF-8. Costs a step for each byte, and copies them where they are written in another way.
///
/// Refused for want of memory alone.
pub fn decode(alloc: Global, bytes: Vec<u8>) -> Result<Decoded, AllocError> {
    match bytes.as_slice() {
        [0xff, 0xfe, rest @ ..] => of_pairs(alloc, rest, true),
        [0xfe, 0xff, rest @ ..] => of_pairs(alloc, rest, false),
        _ => of_bytes(alloc, bytes),
    }
}

// The text of pairs of bytes, each a number of UTF-16, of which the low byte comes first or last. What is none, as a
// single last byte, is U+FFFD.
fn of_pairs(alloc: Global, bytes: &[u8], is_low_first: bool) -> Result<Decoded, AllocError> {
    let mut numbers = Vec::with_capacity(alloc, bytes.len() / 2 + 1)?;
    // the pairs before this one are numbers
    for pair in bytes.chunks(2) {
        let number = match pair {
            [low, high] if is_low_first => u16::from_le_bytes([*low, *high]),
            [high, low] => u16::from_be_bytes([*high, *low]),
            _ => 0xfffd,
        };
        numbers.push(number)?;
    }
    let text = String::from_utf16_lossy(alloc, &numbers)?;
    if text.as_bytes().contains(&0) {
        return Ok(Decoded::Binary);
    }
    Ok(Decoded::Converted(text))
}

fn of_bytes(alloc: Global, bytes: Vec<u8>) -> Result<Decoded, AllocError> {
    if bytes.contains(&0) {
        return Ok(Decoded::Binary);
    }
    if let Some(rest) = bytes.strip_prefix(UTF8_MARK) {
        let text = String::from_utf8_lossy(alloc, rest)?;
        return Ok(Decoded::Converted(text));
    }
    match String::from_utf8(bytes) {
        Ok(text) => Ok(Decoded::Text(text)),
        Err(error) => {
            let bytes = error.into_bytes();
            let text = String::from_utf8_lossy(alloc, &bytes)?;
            Ok(Decoded::Converted(text))
        }
    }
}
