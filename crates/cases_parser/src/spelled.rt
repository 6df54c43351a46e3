//! Texts as rows spell and show them.

use cases::{Fault, Listing};
use std::alloc::Global;

/// The text that a row spells: each `%` with two digits is a byte.
pub fn read_text(alloc: Global, spelled: &str) -> Result<String, Fault> {
    let mut bytes = Vec::new(alloc);
    let mut is_first = true;
    // the bytes of the parts before this one are there
    for part in spelled.split('%') {
        let rest = if is_first {
            part
        } else {
            let Some((digits, rest)) = part.split_at_checked(2) else {
                return Err(Fault::NotUnderstood);
            };
            let Ok(byte) = u8::from_str_radix(digits, 16) else {
                return Err(Fault::NotUnderstood);
            };
            bytes.push(byte)?;
            rest
        };
        bytes.extend_from_slice(rest.as_bytes())?;
        is_first = false;
    }
    match str::from_utf8(&bytes) {
        Ok(text) => Ok(String::from_str(alloc, text)?),
        Err(_) => Err(Fault::NotUnderstood),
    }
}

/// Writes a text between two `'`. Of its bytes those that stand for themselves in a row stay, but for `%`,
/// `'` and `=`; each other one is a `%` with two digits.
pub fn show_text(shown: &str, text: &mut Listing) {
    text.word("'");
    // the bytes before this one are written, each as itself or as a `%` with two digits
    for byte in shown.as_bytes() {
        if (*byte == b' ' || byte.is_ascii_graphic()) && !matches!(*byte, b'%' | b'\'' | b'=') {
            write!(text, "{}", char::from(*byte));
        } else {
            write!(text, "%{byte:02x}");
        }
    }
    text.word("'");
}
