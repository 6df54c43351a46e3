//! What bytes of a manifest spell.

use std::alloc::{AllocError, Global};

/// The names in a manifest, with `,` between two.
pub fn named(alloc: Global, manifest: &[u8]) -> Result<Vec<&str>, AllocError> {
    let mut names = Vec::new(alloc);
    let Ok(text) = str::from_utf8(manifest) else {
        return Ok(names);
    };
    // the names before this one are there, but for empty ones
    for name in text.split(',') {
        if !name.is_empty() {
            names.push(name)?;
        }
    }
    Ok(names)
}
