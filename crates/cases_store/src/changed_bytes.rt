//! Bytes of a case, as they are or changed.

use cases::{Done, Fault, number, word};
use std::alloc::Global;

/// Bytes with a bit turned, where the words begin with `turned PLACE BIT`, or the first of them, by `first COUNT`; else all
/// as they are. How many words said so comes with them.
pub fn changed(alloc: Global, bytes: &[u8], words: &[&str]) -> Result<(Vec<u8>, usize), Fault> {
    let mut bytes = Vec::from_slice(alloc, bytes)?;
    match word(words, 0) {
        "turned" => {
            turn(&mut bytes, number(words, 1), number(words, 2))?;
            Ok((bytes, 3))
        }
        "first" => {
            let Some(count) = number(words, 1) else {
                return Err(Fault::NotUnderstood);
            };
            bytes.truncate(count as usize);
            Ok((bytes, 2))
        }
        _ => Ok((bytes, 0)),
    }
}

// Turns a bit of a byte.
fn turn(bytes: &mut [u8], place: Option<u32>, bit: Option<u32>) -> Done {
    let (Some(place), Some(bit)) = (place, bit) else {
        return Err(Fault::NotUnderstood);
    };
    let Some(byte) = bytes.get_mut(place as usize) else {
        return Err(Fault::NotAllowed);
    };
    if bit > 7 {
        return Err(Fault::NotAllowed);
    }
    *byte ^= 1 << bit;
    Ok(())
}
