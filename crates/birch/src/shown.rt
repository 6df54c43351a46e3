//! A result, as it is printed.

use birch_index::{Reading, Source, read_piece};
use birch_text::{Cleaned, EscapedJson, Form, Mark, Snippet, is_steering, snippet_of, text_at};
use qm_store::DocumentPlace;
use serde_json::{Value, json};
use std::alloc::{AllocError, Global};
use std::io;
use std::io::Write;

/// How many bytes of a text are shown.
const SHOWN_BYTES: usize = 240;

/// A document that was found, with its text and the words in it that were asked for.
#[derive(Drop)]
pub struct Shown<'a> {
    /// The path of its file.
    pub path: &'a str,
    /// The number of the line where the first word of these stands.
    pub line: u64,
    /// What it scores.
    pub score: i64,
    /// Its text.
    pub text: String,
    /// The words that were asked for.
    pub marks: Vec<Mark>,
    /// What of it is shown.
    pub snippet: Snippet,
    /// How many more documents have the same text, and aren't listed.
    pub more: u64,
}

/// The text of a document, read again; none where its file has changed since it was read.
pub fn text_of(
    rt: &HostRuntime,
    reading: &Reading<'_>,
    file: &Source,
    place: DocumentPlace,
) -> io::Result<Option<String>> {
    let (alloc, form) = (rt.alloc(), reading.form);
    let (start, len) = (place.first_byte as usize, place.byte_count as usize);
    if let Some(text) = &file.kept {
        let piece = text.as_str().get(start..start.saturating_add(len));
        let text = text_at(alloc, form, file.column, piece.unwrap_or(""))?;
        return Ok(Some(text));
    }
    let (start, len) = (u64::from(place.first_byte), u64::from(place.byte_count));
    match read_piece(rt, reading, file, start, len)? {
        Some(piece) => {
            let text = text_at(alloc, form, file.column, piece.as_str())?;
            Ok(Some(text))
        }
        None => Ok(None),
    }
}

/// The line where the first mark that is shown stands; of a row its own.
pub fn line_of(
    form: Form<'_>,
    place: DocumentPlace,
    text: &str,
    marks: &[Mark],
    snippet: Snippet,
) -> u64 {
    let line = u64::from(place.line);
    if let (Form::Paragraphs, Some(mark)) = (form, marks.get(snippet.first_mark)) {
        let before = text.get(..mark.start).unwrap_or("");
        let ends = before
            .as_bytes()
            .iter()
            .filter(|byte| **byte == b'\n')
            .count();
        return line.saturating_add(ends as u64);
    }
    line
}

/// What is shown of a text.
pub fn shown_part(text: &str, marks: &[Mark]) -> Snippet {
    snippet_of(text, marks, SHOWN_BYTES)
}

/// Writes a result for people: its number, path, line and score, and below them what is shown of it.
pub fn write_plain<W: Write>(
    out: &mut W,
    number: usize,
    shown: &Shown<'_>,
    is_coloured: bool,
) -> io::Result<()> {
    let Shown {
        path,
        line,
        score,
        ..
    } = shown;
    let path = Cleaned(path);
    if is_coloured {
        writeln!(
            out,
            "{number}. \x1b[35m{path}\x1b[m:\x1b[32m{line}\x1b[m  {score}"
        )?;
    } else {
        writeln!(out, "{number}. {path}:{line}  {score}")?;
    }
    write_snippet(out, shown, is_coloured)?;
    if shown.more > 0 {
        let more = shown.more;
        writeln!(out, "    and {more} more of the same text")?;
    }
    Ok(())
}

// Writes what is shown of a text, in one line, with the found words marked.
fn write_snippet<W: Write>(out: &mut W, shown: &Shown<'_>, is_coloured: bool) -> io::Result<()> {
    let (begin, end) = if is_coloured {
        ("\x1b[1;31m", "\x1b[m")
    } else {
        ("[", "]")
    };
    let text = shown.text.as_str();
    let Snippet {
        start,
        end: stop,
        ..
    } = shown.snippet;
    let mut at = start;
    out.write_all(if start == 0 { b"    " } else { b"    .. " })?;
    // the text up to `at` is written, with the marks before this one
    for mark in &shown.marks {
        if mark.start < at || mark.end > stop {
            continue;
        }
        write_flow(out, text.get(at..mark.start).unwrap_or(""))?;
        out.write_all(begin.as_bytes())?;
        write_flow(out, text.get(mark.start..mark.end).unwrap_or(""))?;
        out.write_all(end.as_bytes())?;
        at = mark.end;
    }
    write_flow(out, text.get(at..stop).unwrap_or(""))?;
    out.write_all(if stop < text.len() { b" ..\n" } else { b"\n" })
}

// Writes a text in one line: spaces and ends of lines that stand together as one space, and what would
// steer a terminal as a question mark.
fn write_flow<W: Write>(out: &mut W, text: &str) -> io::Result<()> {
    let mut in_space = false;
    // the letters before this one are written, and one space for each run of them
    for letter in text.chars() {
        if letter.is_whitespace() {
            if !in_space {
                out.write_all(b" ")?;
            }
        } else if is_steering(letter) {
            out.write_all(b"?")?;
        } else {
            write!(out, "{letter}")?;
        }
        in_space = letter.is_whitespace();
    }
    Ok(())
}

/// Writes a result as a line of JSON: path, line, score, the whole text, and the found words, each as the
/// letters of the text from where and up to where it stands.
pub fn write_json<W: Write>(alloc: Global, out: &mut W, shown: &Shown<'_>) -> io::Result<()> {
    let text = json_line(alloc, shown)?;
    let text = EscapedJson(text.as_str());
    writeln!(out, "{text}")
}

fn json_line(alloc: Global, shown: &Shown<'_>) -> Result<String, AllocError> {
    let marks = json_marks(alloc, shown.text.as_str(), &shown.marks)?;
    let Shown {
        path,
        line,
        score,
        text,
        more,
        ..
    } = shown;
    let (path, line, score, text, more) = (*path, *line, *score, text.as_str(), *more);
    let told = json!(in alloc; {
        "path": path, "line": line, "score": score, "text": text, "found": marks, "more": more
    })?;
    told.to_string(alloc)
}

// Each mark as two numbers of letters.
fn json_marks(alloc: Global, text: &str, marks: &[Mark]) -> Result<Value, AllocError> {
    let mut pairs = Vec::with_capacity(alloc, marks.len())?;
    let mut letters: u64 = 0;
    let mut at = 0;
    // the marks before this one are there; `letters` stand before `at`, where the last of them ends
    for mark in marks {
        letters = letters.saturating_add(letters_of(text, at, mark.start));
        let length = letters_of(text, mark.start, mark.end);
        let end = letters.saturating_add(length);
        pairs.push(json!(in alloc; [letters, end])?)?;
        letters = end;
        at = mark.end;
    }
    Ok(Value::Array(pairs))
}

// How many letters stand between two bytes.
fn letters_of(text: &str, start: usize, end: usize) -> u64 {
    text.get(start..end).unwrap_or("").chars().count() as u64
}
