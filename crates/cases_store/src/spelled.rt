//! What words of a case spell.

use cases::{Done, Fault, Listing, read_documents};
use qm_postings::TermRow;
use qm_schema::QueryError;
use std::alloc::{AllocError, Global};

/// Whether a field of this word keeps positions.
pub fn keeps_positions(kept: &str) -> Result<bool, Fault> {
    match kept {
        "positions" => Ok(true),
        "freqs" => Ok(false),
        _ => Err(Fault::NotUnderstood),
    }
}

/// The text of a word, and none for `-`.
pub fn read_text(spelled: &str) -> &str {
    if spelled == "-" { "" } else { spelled }
}

/// The numbers that a word spells, with `,` between two, and none for `-`.
pub fn read_numbers(alloc: Global, spelled: &str) -> Result<Vec<u32>, Fault> {
    let mut parts = Vec::new(alloc);
    if spelled != "-" {
        // the parts before this one are there
        for part in spelled.split(',') {
            parts.push(part)?;
        }
    }
    read_documents(alloc, &parts)
}

/// The bytes that a text spells, each by two hexadecimal digits, and none for `-`.
pub fn read_bytes(alloc: Global, spelled: &str) -> Result<Vec<u8>, Fault> {
    let mut words = Vec::new(alloc);
    // the words before this one are there
    for word in spelled.split_whitespace() {
        words.push(word)?;
    }
    bytes_of(alloc, &words)
}

/// The bytes that words spell.
pub fn bytes_of(alloc: Global, words: &[&str]) -> Result<Vec<u8>, Fault> {
    let mut bytes = Vec::new(alloc);
    if words.first() == Some(&"-") {
        return Ok(bytes);
    }
    // the bytes of the words before this one are there
    for digits in words {
        let Ok(byte) = u8::from_str_radix(digits, 16) else {
            return Err(Fault::NotUnderstood);
        };
        bytes.push(byte)?;
    }
    Ok(bytes)
}

/// Writes bytes as they are read.
pub fn write_bytes(bytes: &[u8], text: &mut Listing) {
    // the bytes before this one are written, each as two digits
    for byte in bytes {
        text.space();
        write!(text, "{byte:02x}");
    }
}

/// Writes what was read: a row, or `none`.
pub fn write_read(read: Result<Option<TermRow>, AllocError>, text: &mut Listing) -> Done {
    match read {
        Err(_) => Err(Fault::Refused(QueryError::Memory)),
        Ok(None) => Ok(text.word("none")),
        Ok(Some(row)) => Ok(write_row(&row, text)),
    }
}

/// Writes the documents, the frequencies and the positions of a row.
pub fn write_row(row: &TermRow, text: &mut Listing) {
    write_numbers(&row.documents, text);
    text.word(" ");
    write_numbers(&row.frequencies, text);
    text.word(" ");
    write_numbers(&row.positions, text);
}

/// Writes numbers as they are read.
pub fn write_numbers(numbers: &[u32], text: &mut Listing) {
    if numbers.is_empty() {
        text.word("-");
    }
    // the numbers before this one are written, with `,` between two
    for (place, number) in numbers.iter().enumerate() {
        if place > 0 {
            text.word(",");
        }
        write!(text, "{number}");
    }
}
