//! What an index knows of files, as bytes.

use crate::kept::Trouble;
use crate::kept::catalogue::{Catalogue, Known, Span};
use crate::kept::numbers::{Unread, push_bytes, push_half, push_word};
use crate::left_out::LeftOut;
use qm_folder::{FileStamp, KeptFile};
use std::alloc::{AllocError, Global};

/// The bytes of a catalogue.
pub fn catalogue_bytes(alloc: Global, catalogue: &Catalogue) -> Result<Vec<u8>, AllocError> {
    let mut out = Vec::new(alloc);
    push_bytes(&mut out, catalogue.asked.as_bytes())?;
    push_half(&mut out, catalogue.next)?;
    push_word(&mut out, catalogue.spans.len() as u64)?;
    // the spans before this one are written
    for span in &catalogue.spans {
        push_span(&mut out, span)?;
    }
    push_word(&mut out, catalogue.kept.len() as u64)?;
    // the files before this one are written
    for (kept, known) in catalogue.kept.iter().zip(catalogue.known.iter()) {
        push_kept(&mut out, kept)?;
        push_known(&mut out, known)?;
    }
    Ok(out)
}

fn push_span(out: &mut Vec<u8>, span: &Span) -> Result<(), AllocError> {
    push_half(out, span.documents)?;
    push_half(out, span.first)?;
    push_half(out, span.last)
}

fn push_kept(out: &mut Vec<u8>, file: &KeptFile) -> Result<(), AllocError> {
    push_bytes(out, &file.path)?;
    push_stamp(out, file.stamp)?;
    push_half(out, u32::from(file.settled))
}

fn push_stamp(out: &mut Vec<u8>, stamp: FileStamp) -> Result<(), AllocError> {
    push_word(out, stamp.size)?;
    push_word(out, stamp.bytes_changed)?;
    push_word(out, stamp.changed)?;
    push_word(out, stamp.inode)
}

fn push_known(out: &mut Vec<u8>, known: &Known) -> Result<(), AllocError> {
    // no file has the number 0
    push_half(out, known.number.unwrap_or(0))?;
    push_word(out, known.documents)?;
    push_word(out, known.words)?;
    push_half(out, known.column)?;
    push_half(out, u32::from(known.is_converted))?;
    push_left_out(out, known.left_out)
}

// Each reason by its number, and of rows their first line and how many they are.
fn push_left_out(out: &mut Vec<u8>, left_out: Option<LeftOut>) -> Result<(), AllocError> {
    let (reason, line, count) = match left_out {
        None => (0, 0, 0),
        Some(LeftOut::Binary) => (1, 0, 0),
        Some(LeftOut::TooLarge) => (2, 0, 0),
        Some(LeftOut::NoColumn) => (3, 0, 0),
        Some(LeftOut::Rows { line, count }) => (4, line, count),
    };
    push_half(out, reason)?;
    push_half(out, line)?;
    push_half(out, count)
}

/// The catalogue that some bytes are.
pub fn read_catalogue(alloc: Global, bytes: &[u8]) -> Result<Catalogue, Trouble> {
    let mut unread = Unread::new(bytes);
    let asked = unread.text(alloc)?;
    let mut catalogue = Catalogue::new(alloc, asked);
    catalogue.next = unread.half()?;
    let spans = unread.word()?;
    // as many spans are read as there were turns
    for _ in 0..spans {
        catalogue.spans.push(read_span(&mut unread)?)?;
    }
    let files = unread.word()?;
    // as many files are read as there were turns
    for _ in 0..files {
        catalogue.kept.push(read_kept(alloc, &mut unread)?)?;
        catalogue.known.push(read_known(&mut unread)?)?;
    }
    if unread.is_done() {
        Ok(catalogue)
    } else {
        Err(Trouble::Damaged)
    }
}

fn read_span(unread: &mut Unread<'_>) -> Result<Span, Trouble> {
    let documents = unread.half()?;
    let first = unread.half()?;
    let last = unread.half()?;
    Ok(Span {
        documents,
        first,
        last,
    })
}

fn read_kept(alloc: Global, unread: &mut Unread<'_>) -> Result<KeptFile, Trouble> {
    let path = unread.bytes()?;
    let stamp = read_stamp(unread)?;
    let settled = unread.half()? != 0;
    let path = Vec::from_slice(alloc, path)?;
    Ok(KeptFile {
        path,
        stamp,
        settled,
    })
}

fn read_stamp(unread: &mut Unread<'_>) -> Result<FileStamp, Trouble> {
    let size = unread.word()?;
    let bytes_changed = unread.word()?;
    let changed = unread.word()?;
    let inode = unread.word()?;
    Ok(FileStamp {
        size,
        bytes_changed,
        changed,
        inode,
    })
}

fn read_known(unread: &mut Unread<'_>) -> Result<Known, Trouble> {
    let number = unread.half()?;
    let documents = unread.word()?;
    let words = unread.word()?;
    let column = unread.half()?;
    let is_converted = unread.half()? != 0;
    let left_out = read_left_out(unread)?;
    Ok(Known {
        number: if number == 0 { None } else { Some(number) },
        documents,
        words,
        column,
        is_converted,
        left_out,
    })
}

fn read_left_out(unread: &mut Unread<'_>) -> Result<Option<LeftOut>, Trouble> {
    let reason = unread.half()?;
    let line = unread.half()?;
    let count = unread.half()?;
    match reason {
        0 => Ok(None),
        1 => Ok(Some(LeftOut::Binary)),
        2 => Ok(Some(LeftOut::TooLarge)),
        3 => Ok(Some(LeftOut::NoColumn)),
        4 => Ok(Some(LeftOut::Rows { line, count })),
        _ => Err(Trouble::Damaged),
    }
}
