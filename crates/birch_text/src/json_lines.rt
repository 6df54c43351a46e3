//! Documents that are lines of JSON.

use crate::passage::{Passages, Place};
use crate::row::Row;
use serde_json::Value;
use std::alloc::{AllocError, Global};

/// Hands over the text under that key of each line, or, without a key, each line that is an object: its texts,
/// numbers and the like are fields by the keys that lead to them. Any other line is left out.
///
/// Refused for want of memory alone.
pub(crate) fn add_json<P: Passages>(
    alloc: Global,
    key: Option<&str>,
    text: &str,
    passages: &mut P,
) -> Result<(), AllocError> {
    let mut start: usize = 0;
    let mut line: u32 = 1;
    // the lines before this one are added, or left out
    for whole in text.split_inclusive('\n') {
        if !whole.trim().is_empty() {
            let len = whole.len();
            add_json_line(alloc, key, whole, Place { line, start, len }, passages)?;
        }
        start = start.saturating_add(whole.len());
        line = line.saturating_add(1);
    }
    Ok(())
}

// Hands over one line.
fn add_json_line<P: Passages>(
    alloc: Global,
    key: Option<&str>,
    line: &str,
    place: Place,
    passages: &mut P,
) -> Result<(), AllocError> {
    let value = read_json(alloc, line)?;
    if let Some(text) = text_under(&value, key) {
        passages.add(text, place);
    } else if key.is_none() && value.is_object() {
        passages.add_row(&json_row(alloc, &value)?, place);
    } else {
        passages.leave_out(place.line);
    }
    Ok(())
}

// The value that a line is; null, which has no text either, where it is no JSON.
fn read_json(alloc: Global, line: &str) -> Result<Value, AllocError> {
    match Value::from_str(alloc, line) {
        Ok(value) => Ok(value),
        Err(error) if error.is_memory() => Err(AllocError),
        Err(_) => Ok(Value::Null),
    }
}

// The text under a key; none without a key.
fn text_under<'a>(value: &'a Value, key: Option<&str>) -> Option<&'a str> {
    value.get(key?)?.as_str()
}

/// The text under the key of a line, or without a key all that it has.
///
/// Refused for want of memory alone. Where the file was changed meanwhile it may be empty.
pub(crate) fn json_text(
    alloc: Global,
    key: Option<&str>,
    piece: &str,
) -> Result<String, AllocError> {
    let value = read_json(alloc, piece)?;
    match key {
        None => Ok(json_row(alloc, &value)?.text),
        key => String::from_str(alloc, text_under(&value, key).unwrap_or("")),
    }
}

// The document that a value is.
fn json_row(alloc: Global, value: &Value) -> Result<Row, AllocError> {
    let mut row = Row::new(alloc);
    push_found(alloc, &mut row, "", value)?;
    Ok(row)
}

// Adds what is found at a path as fields. A value nests no deeper than a call may.
fn push_found(alloc: Global, row: &mut Row, path: &str, value: &Value) -> Result<(), AllocError> {
    match value {
        Value::Object(members) => {
            // the fields of the members before this one are in the row
            for (key, member) in members {
                let inner = path_to(alloc, path, key.as_str())?;
                push_found(alloc, row, inner.as_str(), member)?;
            }
            Ok(())
        }
        Value::Array(items) => {
            // the fields of the items before this one are in the row
            for item in items {
                push_found(alloc, row, path, item)?;
            }
            Ok(())
        }
        Value::Null => Ok(()),
        Value::String(text) => row.push(alloc, path, text.as_str()),
        _ => row.push(alloc, path, value.to_string(alloc)?.as_str()),
    }
}

// The path that leads to a member of what stands at a path.
fn path_to(alloc: Global, path: &str, key: &str) -> Result<String, AllocError> {
    if path.is_empty() {
        return String::from_str(alloc, key);
    }
    format!(in alloc; "{path}.{key}")
}
