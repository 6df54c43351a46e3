//! Where the index of some paths is kept.

use crate::environment::variable;
use crate::kept::Trouble;
use crate::reading::Reading;
use birch_text::{Accents, Form};
use serde_json::{Value, json};
use std::alloc::{AllocError, Global};
use std::fs;
use std::hash::{DefaultHasher, Hasher};

/// Which files are read and how: another number where words are cut or folded otherwise, or files kept otherwise.
const WAY: u32 = 3;

/// Where the index of some paths is kept.
#[derive(Drop)]
pub struct Home {
    /// Its folder.
    pub folder: String,
    /// What it is of: the paths, and what of the files below them is read.
    pub asked: String,
}

impl Home {
    /// The path of a file in the folder.
    pub fn path_of(&self, alloc: Global, name: &str) -> Result<String, AllocError> {
        let mut path = String::from_str(alloc, self.folder.as_str())?;
        path.push('/')?;
        path.push_str(name)?;
        Ok(path)
    }
}

/// Where the index of these paths is kept: the folder's name is a digest of what the index is of, so that one is not
/// taken for another.
pub fn home_of(rt: &HostRuntime, reading: &Reading<'_>, paths: &[&str]) -> Result<Home, Trouble> {
    if paths.contains(&"-") {
        return Err(Trouble::Stream);
    }
    let asked = asked_of(rt, reading, paths)?;
    let mut hasher = DefaultHasher::new();
    hasher.write(asked.as_bytes());
    let digest = hasher.finish();
    let base = folder_of_all(rt, reading)?;
    let folder = format!(in rt.alloc(); "{base}/{digest:016x}")?;
    Ok(Home { folder, asked })
}

/// The folder of all indexes from the root on, without links; none where it isn't there.
pub fn folder_of_indexes(
    rt: &HostRuntime,
    reading: &Reading<'_>,
) -> Result<Option<String>, AllocError> {
    let whole = folder_of_all(rt, reading).and_then(|folder| whole_path(rt, folder.as_str()));
    match whole {
        Ok(folder) => Ok(Some(folder)),
        Err(Trouble::Stopped(_)) => Err(AllocError),
        Err(_) => Ok(None),
    }
}

// The folder of all indexes.
fn folder_of_all(rt: &HostRuntime, reading: &Reading<'_>) -> Result<String, Trouble> {
    let alloc = rt.alloc();
    if let Some(folder) = reading.index_folder {
        return Ok(String::from_str(alloc, folder)?);
    }
    if let Some(cache) = variable(rt, "XDG_CACHE_HOME")? {
        // one that depends on the current folder is none
        if cache.starts_with('/') {
            return Ok(format!(in alloc; "{cache}/birch")?);
        }
    }
    match variable(rt, "HOME")? {
        Some(home) => Ok(format!(in alloc; "{home}/.cache/birch")?),
        None => Err(Trouble::Homeless),
    }
}

// What an index is of, as a line of JSON.
fn asked_of(rt: &HostRuntime, reading: &Reading<'_>, paths: &[&str]) -> Result<String, Trouble> {
    let alloc = rt.alloc();
    let paths = whole_paths(rt, paths)?;
    let globs = text_values(alloc, &reading.globs)?;
    let types = text_values(alloc, &reading.types)?;
    Ok(asked_line(alloc, reading, &paths, &globs, &types)?)
}

// The line of JSON that has these lists.
fn asked_line(
    alloc: Global,
    reading: &Reading<'_>,
    paths: &Value,
    globs: &Value,
    types: &Value,
) -> Result<String, AllocError> {
    let (form, part) = form_of(reading.form);
    let (hidden, ignored, most) = (reading.has_hidden, reading.has_ignored, reading.max_size);
    let accents = reading.accents == Accents::Kept;
    let asked = json!(in alloc; {
        "way": WAY, "form": form, "part": part, "accents": accents, "hidden": hidden, "ignored": ignored,
        "most": most, "globs": globs, "types": types, "paths": paths
    })?;
    asked.to_string(alloc)
}

// What of a file is a document, and which part of that.
fn form_of<'a>(form: Form<'a>) -> (&'static str, &'a str) {
    match form {
        Form::Paragraphs => ("paragraphs", ""),
        Form::Lines => ("lines", ""),
        Form::Csv(column) => ("csv", column),
        Form::Json(key) => ("json", key),
        Form::CsvFields => ("csv-fields", ""),
        Form::JsonFields => ("json-fields", ""),
    }
}

/// A path from the root on, without links.
pub fn whole_path(rt: &HostRuntime, path: &str) -> Result<String, Trouble> {
    match fs::canonicalize(rt, path) {
        Ok(whole) => Ok(String::from_str(rt.alloc(), whole.as_str())?),
        Err(error) if error.kind() == std::io::ErrorKind::OutOfMemory => Err(Trouble::from(error)),
        Err(_) => Err(Trouble::Homeless),
    }
}

// The whole paths of some, as a list.
fn whole_paths(rt: &HostRuntime, paths: &[&str]) -> Result<Value, Trouble> {
    let mut whole = Vec::with_capacity(rt.alloc(), paths.len())?;
    // the whole paths of those before this one are there
    for path in paths {
        let path = whole_path(rt, path)?;
        whole.push(text_value(rt.alloc(), path.as_str())?)?;
    }
    Ok(Value::Array(whole))
}

fn text_values(alloc: Global, texts: &[&str]) -> Result<Value, AllocError> {
    let mut values = Vec::with_capacity(alloc, texts.len())?;
    // the texts before this one are values
    for text in texts {
        values.push(text_value(alloc, text)?)?;
    }
    Ok(Value::Array(values))
}

fn text_value(alloc: Global, text: &str) -> Result<Value, AllocError> {
    json!(in alloc; text)
}
