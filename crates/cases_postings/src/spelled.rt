//! What words of a case spell.

ghost use Rattle.std.specs.Prelude.{IfOk, pos, ◌≤ℤ◌};
ghost use Rattle.std.specs.List.Sorted.{IsNonDecreasing};

use cases::{Fault, Listing, read_documents, score};
use qm_docset::{DocId, Score};
use qm_schema::{Field, IndexRecordOption, Schema, Term};
use qm_term::Bm25Weight;
use std::alloc::{AllocError, Global};
use std::array;

/// What stands before the first space of a text, and what stands behind it.
pub fn cut<'a>(text: &'a str) -> (&'a str, &'a str) {
    match text.split_once(' ') {
        Some(parts) => parts,
        None => (text, ""),
    }
}

/// The numbers that a word spells, with `,` between two: `1,4`, or `0..3` for 0, 1 and 2. An empty word
/// spells none.
pub fn read_numbers(alloc: Global, word: &str) -> Result<Vec<DocId>, Fault> {
    let mut parts = Vec::new(alloc);
    if !word.is_empty() {
        // the parts before this one are there
        for part in word.split(',') {
            parts.push(part)?;
        }
    }
    read_documents(alloc, &parts)
}

/// The text that is spelled: what stands between quotation marks, `w*3` for `www`, else as it is.
pub fn read_text(alloc: Global, spelled: &str) -> Result<String, AllocError> {
    if let Some(quoted) = spelled.strip_prefix("\"") {
        return String::from_str(alloc, quoted.strip_suffix("\"").unwrap_or(quoted));
    }
    let Some((part, times)) = spelled.split_once('*') else {
        return String::from_str(alloc, spelled);
    };
    let mut text = Listing::new(alloc);
    // the text is the part as often as there were turns
    for _ in 0..times.parse::<u32>().unwrap_or(0) {
        text.word(part);
    }
    text.into_string()
}

/// The term of a field that a word spells: by its bytes, where it has `\x`, else by its text.
pub fn read_term(alloc: Global, field: Field, spelled: &str) -> Result<Term, Fault> {
    if spelled.contains("\\x") {
        let bytes = read_bytes(alloc, spelled)?;
        return Ok(Term::from_field_bytes(alloc, field, &bytes)?);
    }
    let text = read_text(alloc, spelled)?;
    Ok(Term::from_field_text(alloc, field, text.as_str())?)
}

/// The field of this name, or of the number behind `#`.
pub fn read_field(schema: &Schema, name: &str) -> Result<Field, Fault> {
    let found = match name.strip_prefix("#") {
        Some(number) => number.parse::<u32>().ok().map(Field::from_field_id),
        None => schema.get_field(name),
    };
    found.ok_or(Fault::NotUnderstood)
}

/// The texts that are spelled, each with its field: `NAME: WORDS ; NAME: WORDS`, or the words of the first
/// field.
pub fn read_texts(
    alloc: Global,
    schema: &Schema,
    spelled: &str,
) -> Result<Vec<(Field, String)>, Fault> {
    let mut texts = Vec::new(alloc);
    // the texts of the parts before this one are there, each with its field
    for part in spelled.split(';') {
        let (field, words) = match part.split_once(':') {
            Some((name, words)) => (read_field(schema, name.trim())?, words.trim()),
            None => (Field::from_field_id(0), part.trim()),
        };
        texts.push((field, read_text(alloc, words)?))?;
    }
    Ok(texts)
}

/// The bytes that a word spells: `\x` and two digits are a byte, `""` is no byte.
pub fn read_bytes(alloc: Global, spelled: &str) -> Result<Vec<u8>, Fault> {
    let mut bytes = Vec::new(alloc);
    if spelled == "\"\"" {
        return Ok(bytes);
    }
    let mut is_first = true;
    // the bytes of the parts before this one are there
    for part in spelled.split("\\x") {
        if is_first {
            bytes.extend_from_slice(part.as_bytes())?;
        } else {
            let Some((digits, rest)) = part.split_at_checked(2) else {
                return Err(Fault::NotUnderstood);
            };
            let Ok(byte) = u8::from_str_radix(digits, 16) else {
                return Err(Fault::NotUnderstood);
            };
            bytes.push(byte)?;
            bytes.extend_from_slice(rest.as_bytes())?;
        }
        is_first = false;
    }
    Ok(bytes)
}

/// Writes bytes as they are read.
pub fn write_bytes(bytes: &[u8], text: &mut Listing) {
    if bytes.is_empty() {
        return text.word("\"\"");
    }
    // the bytes before this one are written, each as itself or as `\x` with two digits
    for byte in bytes {
        if byte.is_ascii_graphic() {
            write!(text, "{}", char::from(*byte));
        } else {
            write!(text, "\\x{byte:02x}");
        }
    }
}

/// What is asked of postings.
pub fn read_option(name: &str) -> Result<IndexRecordOption, Fault> {
    match name {
        "basic" => Ok(IndexRecordOption::Basic),
        "freqs" => Ok(IndexRecordOption::WithFreqs),
        "positions" => Ok(IndexRecordOption::WithFreqsAndPositions),
        _ => Err(Fault::NotUnderstood),
    }
}

/// Each length id itself.
pub fn same_norms() -> [u32; 256] {
    array::from_fn(|id| id as u32)
}

/// The norms that a word spells: `same`, or one for all length ids, and behind it others as `AT:NORM`.
pub fn read_norms(spelled: &str) -> Result<[u32; 256], Fault> {
    if spelled == "same" {
        return Ok(same_norms());
    }
    let mut norms = [0; 256];
    // the norms are those that the parts before this one give, and 0 where none does
    for part in spelled.split(',') {
        match part.split_once(':') {
            None => norms = [read_number(part)?; 256],
            Some((at, norm)) => match norms.get_mut(read_number(at)? as usize) {
                Some(slot) => *slot = read_number(norm)?,
                None => return Err(Fault::NotUnderstood),
            },
        }
    }
    Ok(norms)
}

/// The norms that a word spells, where none is less than the one before it.
pub fn read_rising_norms(spelled: &str) -> Result<[u32; 256], Fault>
    ensures { IfOk result IsNonDecreasing }
{
    let norms = read_norms(spelled)?;
    if !norms.is_sorted() {
        return Err(Fault::NotUnderstood);
    }
    Ok(norms)
}

/// The number that a word spells.
pub fn read_number(word: &str) -> Result<u32, Fault> {
    match word.parse() {
        Ok(number) => Ok(number),
        Err(_) => Err(Fault::NotUnderstood),
    }
}

/// The weight and the boost that a word spells: `1000*3`, or `1000` for a boost of 1.
pub fn read_boosted(spelled: &str) -> Result<(Score, Score), Fault>
    ensures weight { IfOk result (λ both. pos 0 ≤ℤ both.0) }
    ensures boost { IfOk result (λ both. pos 0 ≤ℤ both.1) }
{
    let (weight, boost) = match spelled.split_once('*') {
        Some(parts) => parts,
        None => (spelled, "1"),
    };
    let (Some(weight), Some(boost)) = (score(&[weight], 0), score(&[boost], 0)) else {
        return Err(Fault::NotUnderstood);
    };
    Ok((weight, boost))
}

/// The weight that a word spells, as `1000`, or `1000*3` under a boost. The norm of each length id is the
/// id.
pub fn read_weight(spelled: &str) -> Result<Bm25Weight, Fault> {
    let (weight, boost) = read_boosted(spelled)?;
    Ok(Bm25Weight::new(weight, same_norms())?.boost_by(boost)?)
}

/// The weight that a word spells, and nothing for `none`.
pub fn read_weight_or_none(spelled: &str) -> Result<Option<Bm25Weight>, Fault> {
    if spelled == "none" {
        Ok(None)
    } else {
        Ok(Some(read_weight(spelled)?))
    }
}
