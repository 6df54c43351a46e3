//! What the environment says.

use std::alloc::AllocError;
use std::env;
use std::env::VarError;

/// What a variable of the environment says; nothing where it is empty.
///
/// Refused for want of memory alone.
pub fn variable(rt: &HostRuntime, name: &str) -> Result<Option<String>, AllocError> {
    match env::var(rt, name) {
        Ok(value) => Ok(if value.is_empty() { None } else { Some(value) }),
        Err(VarError::OutOfMemory) => Err(AllocError),
        Err(VarError::NotPresent | VarError::NotUnicode) => Ok(None),
    }
}
