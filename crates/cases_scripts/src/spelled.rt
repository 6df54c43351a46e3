//! Bytes as rows spell and show them.

use cases::{Done, Fault, Listing};

/// The first word of a row, and what stands behind the space after it.
pub fn cut<'a>(text: &'a str) -> (&'a str, &'a str) {
    match text.split_once(' ') {
        Some(parts) => parts,
        None => (text, ""),
    }
}

/// Puts the bytes that a row spells behind others: each `\x` with two digits is a byte. No end of a line may
/// be among them.
pub fn read_bytes(spelled: &str, bytes: &mut Vec<u8>) -> Done {
    let mut is_first = true;
    // the bytes of the parts before this one are there
    for part in spelled.split("\\x") {
        let rest = if is_first {
            part
        } else {
            let Some((digits, rest)) = part.split_at_checked(2) else {
                return Err(Fault::NotUnderstood);
            };
            match u8::from_str_radix(digits, 16) {
                Ok(byte) if byte != b'\n' => bytes.push(byte)?,
                _ => return Err(Fault::NotUnderstood),
            }
            rest
        };
        bytes.extend_from_slice(rest.as_bytes())?;
        is_first = false;
    }
    Ok(())
}

/// Writes bytes behind a text, each end of a line as `\n`, and `nothing` where there are none.
pub fn show_bytes(bytes: &[u8], text: &mut Listing) {
    if bytes.is_empty() {
        return text.word("nothing");
    }
    // the bytes before this one are written, each end of a line as `\n`
    for byte in bytes {
        if *byte == b'\n' {
            text.word("\\n");
        } else if *byte == b' ' || byte.is_ascii_graphic() {
            write!(text, "{}", char::from(*byte));
        } else {
            write!(text, "\\x{byte:02x}");
        }
    }
}
