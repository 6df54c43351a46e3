//! What the reasons say why a stored segment can't be read or written.

use cases::{Asker, Done, Fault, Listing, Memory};
use qm_store::StoreError;
use std::alloc::Global;

/// Rows that name an error, each answered with its text.
#[derive(Drop)]
pub struct ErrorTexts;

impl Asker for ErrorTexts {
    fn ask(&mut self, _alloc: Global, call: &str, _memory: Memory, text: &mut Listing) -> Done {
        let error = match call {
            "Memory" => StoreError::Memory,
            "Failed" => StoreError::Failed,
            "OtherFile" => StoreError::OtherFile,
            "OtherVersion" => StoreError::OtherVersion,
            "Damaged" => StoreError::Damaged,
            _ => return Err(Fault::NotUnderstood),
        };
        Ok(write!(text, "{error}"))
    }
}
