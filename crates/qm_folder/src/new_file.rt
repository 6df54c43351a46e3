//! A file that is to be written.

/// A file that is to be written: its name and its bytes.
#[derive(Drop)]
pub struct NewFile {
    pub name: String,
    pub bytes: Vec<u8>,
}
