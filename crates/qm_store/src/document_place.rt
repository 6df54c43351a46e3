//! Where a document stands.
//!
//! A place has sixteen bytes, so where it stands follows from the document's number.

/// Where a document stands among the files that it was read from.
#[derive(Clone, Copy, Debug, PartialEq, Eq)]
pub struct DocumentPlace {
    /// The file that it stands in: a number, to which the application gives a meaning.
    pub file: u32,
    /// The line that it begins in. From which number on lines are counted is the application's own.
    pub line: u32,
    /// How many bytes of the file stand before it.
    pub first_byte: u32,
    /// How many bytes it has.
    pub byte_count: u32,
}
