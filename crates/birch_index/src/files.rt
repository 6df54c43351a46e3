//! What stands in files.

use crate::left_out::LeftOut;
use crate::reading::Reading;
use crate::stamps::stamp_of;
use birch_text::{Decoded, decode};
use qm_folder::FileStamp;
use std::alloc::AllocError;
use std::fs::File;
use std::io::{Read, Seek, SeekFrom};
use std::{fs, io};

/// A file that is read.
#[derive(Drop)]
pub struct Source {
    /// Its path, as it is shown.
    pub path: String,
    /// The words of its own name, each with a space behind it.
    pub name_words: String,
    /// Its text, where it can't be read again, as from a pipe.
    pub kept: Option<String>,
    /// Which column of a table is read.
    pub column: usize,
    /// Whether its text is its bytes written in another way.
    pub is_converted: bool,
    /// What it was when it was read, where it can be read again.
    pub stamp: Option<FileStamp>,
}

/// A text that was read of a file.
#[derive(Drop)]
pub struct Text {
    /// The text.
    pub text: String,
    /// Whether it is the file's bytes written in another way.
    pub is_converted: bool,
    /// What the file was when it was read, where it can be read again.
    pub stamp: Option<FileStamp>,
}

/// What was read of a file.
#[derive(Drop)]
pub enum Contents {
    /// Its text.
    Text(Text),
    /// Nothing, since what stands there is no text that is read; and why.
    LeftOut(LeftOut),
    /// Nothing, since it can't be read, which is noted.
    Unread,
}

/// The text of a file.
pub fn read_text(
    rt: &HostRuntime,
    reading: &Reading<'_>,
    path: &str,
) -> Result<Contents, AllocError> {
    let (bytes, stamp) = match read_bytes(rt, path, reading.max_size) {
        Ok(read) => read,
        Err(error) => {
            reading.notes.add_error(rt, reading, path, &error)?;
            return Ok(Contents::Unread);
        }
    };
    if bytes.len() as u64 > reading.max_size {
        return Ok(Contents::LeftOut(LeftOut::TooLarge));
    }
    let (text, is_converted) = match decode(rt.alloc(), bytes)? {
        Decoded::Text(text) => (text, false),
        Decoded::Converted(text) => (text, true),
        Decoded::Binary => return Ok(Contents::LeftOut(LeftOut::Binary)),
    };
    Ok(Contents::Text(Text {
        text,
        is_converted,
        stamp,
    }))
}

/// The bytes of a file, or one more than `most` of them, and what it was then, where it can be read again.
pub fn read_bytes(
    rt: &HostRuntime,
    path: &str,
    most: u64,
) -> io::Result<(Vec<u8>, Option<FileStamp>)> {
    let mut bytes = Vec::new(rt.alloc());
    let room = most.saturating_add(1);
    if path == "-" {
        rt.stdin().take(room).read_to_end(&mut bytes)?;
        return Ok((bytes, None));
    }
    let file: File = fs::open(rt, path)?;
    let found = file.metadata()?;
    let stamp = if found.is_file() {
        Some(stamp_of(&found))
    } else {
        None
    };
    file.take(room).read_to_end(&mut bytes)?;
    Ok((bytes, stamp))
}

/// So many bytes of a file's text, from a place on; none where it has another stamp than the one that is wanted. What
/// isn't a text any more is an error.
pub fn read_piece(
    rt: &HostRuntime,
    reading: &Reading<'_>,
    file: &Source,
    start: u64,
    len: u64,
) -> io::Result<Option<String>> {
    if file.is_converted {
        return converted_piece(rt, reading, file, start, len);
    }
    let mut bytes = Vec::new(rt.alloc());
    let mut opened: File = fs::open(rt, file.path.as_str())?;
    if let Some(stamp) = file.stamp {
        if stamp_of(&opened.metadata()?) != stamp {
            return Ok(None);
        }
    }
    opened.seek(SeekFrom::Start(start))?;
    opened.take(len).read_to_end(&mut bytes)?;
    match String::from_utf8(bytes) {
        Ok(text) => Ok(Some(text)),
        Err(_) => Err(io::Error::from(io::ErrorKind::InvalidData)),
    }
}

// The same of a file whose text is its bytes written in another way: where a piece of it begins there can be told of the
// whole alone.
fn converted_piece(
    rt: &HostRuntime,
    reading: &Reading<'_>,
    file: &Source,
    start: u64,
    len: u64,
) -> io::Result<Option<String>> {
    let alloc = rt.alloc();
    let (bytes, stamp) = read_bytes(rt, file.path.as_str(), reading.max_size)?;
    if stamp != file.stamp {
        return Ok(None);
    }
    let Decoded::Converted(text) = decode(alloc, bytes)? else {
        return Ok(None);
    };
    let start = usize::try_from(start).unwrap_or(usize::MAX);
    let end = start.saturating_add(usize::try_from(len).unwrap_or(usize::MAX));
    match text.as_str().get(start..end) {
        Some(piece) => Ok(Some(String::from_str(alloc, piece)?)),
        None => Ok(None),
    }
}
