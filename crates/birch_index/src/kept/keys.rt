//! The paths of files, as an index keeps them.

use crate::kept::Trouble;
use crate::walk::{Found, joined};
use qm_folder::FoundFile;
use std::alloc::{AllocError, Global};

/// The bytes of the number of a path that was given, in front of a kept path.
const ROOT_BYTES: usize = 4;

/// The files that were found below the paths that were given, each under the path that an index keeps. These ascend as
/// folders are walked through.
pub fn found_files(
    alloc: Global,
    paths: &[&str],
    found: &[Found],
) -> Result<Vec<FoundFile>, AllocError> {
    let mut files = Vec::with_capacity(alloc, found.len())?;
    // the files before this one have their keys
    for file in found {
        let root = paths.get(file.root as usize).copied().unwrap_or("");
        files.push(FoundFile {
            path: key_of(alloc, file.root, below(root, file.path.as_str()))?,
            stamp: file.stamp,
        })?;
    }
    Ok(files)
}

// What of a path stands below one that was given; nothing where it is that one itself.
fn below<'a>(root: &str, path: &'a str) -> &'a str {
    if root == "." {
        return path.strip_prefix("./").unwrap_or(path);
    }
    let rest = path.strip_prefix(root).unwrap_or(path);
    rest.strip_prefix('/').unwrap_or(rest)
}

/// The same of what was found below one path, as an index of a folder above keeps it: there that path is this one.
pub fn found_below(
    alloc: Global,
    root: &str,
    inner: &[u8],
    found: &[Found],
) -> Result<Vec<FoundFile>, AllocError> {
    let mut files = Vec::with_capacity(alloc, found.len())?;
    // the files before this one have their keys
    for file in found {
        let mut path = Vec::from_slice(alloc, inner)?;
        let rest = below(root, file.path.as_str());
        if !rest.is_empty() {
            path.push(0)?;
            push_names(&mut path, rest)?;
        }
        files.push(FoundFile {
            path,
            stamp: file.stamp,
        })?;
    }
    Ok(files)
}

/// The path that an index of one folder keeps of what stands there below it.
pub fn inner_key(alloc: Global, below: &str) -> Result<Vec<u8>, AllocError> {
    key_of(alloc, 0, below)
}

/// The path that an index of the inner path alone would keep, of one that an index of a folder above keeps; none where it
/// doesn't stand at the inner path or below it.
pub fn key_within(alloc: Global, inner: &[u8], key: &[u8]) -> Result<Option<Vec<u8>>, AllocError> {
    let Some(rest) = key.strip_prefix(inner) else {
        return Ok(None);
    };
    let names = match rest.split_first() {
        None => rest,
        Some((0, names)) => names,
        Some(_) => return Ok(None),
    };
    let mut within = Vec::with_capacity(alloc, names.len().saturating_add(ROOT_BYTES))?;
    within.extend_from_slice(&[0; ROOT_BYTES])?;
    within.extend_from_slice(names)?;
    Ok(Some(within))
}

// A path below the one of a number, as bytes: the number, and the names, each with a zero byte before the next. No name
// has one, and all others are greater, so that what stands in a folder comes before what only begins like its name.
fn key_of(alloc: Global, root: u32, below: &str) -> Result<Vec<u8>, AllocError> {
    let mut key = Vec::with_capacity(alloc, below.len().saturating_add(ROOT_BYTES))?;
    key.extend_from_slice(&root.to_be_bytes())?;
    push_names(&mut key, below)?;
    Ok(key)
}

fn push_names(key: &mut Vec<u8>, path: &str) -> Result<(), AllocError> {
    // the bytes before this one are in the key, with a 0 for each slash
    for byte in path.as_bytes() {
        key.push(if *byte == b'/' { 0 } else { *byte })?;
    }
    Ok(())
}

/// The path of a file as it is shown, by the path that an index keeps.
pub fn shown_path(alloc: Global, paths: &[&str], key: &[u8]) -> Result<String, Trouble> {
    let Some((root, names)) = key.split_first_chunk::<ROOT_BYTES>() else {
        return Err(Trouble::Damaged);
    };
    let Some(root) = paths.get(u32::from_be_bytes(*root) as usize) else {
        return Err(Trouble::Damaged);
    };
    if names.is_empty() {
        return Ok(String::from_str(alloc, root)?);
    }
    let mut below = Vec::with_capacity(alloc, names.len())?;
    // the bytes before this one are in the path, with a slash for each 0
    for byte in names {
        below.push(if *byte == 0 { b'/' } else { *byte })?;
    }
    match str::from_utf8(&below) {
        Ok(below) => Ok(joined(alloc, root, below)?),
        Err(_) => Err(Trouble::Damaged),
    }
}
