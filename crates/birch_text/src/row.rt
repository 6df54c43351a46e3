//! Documents of several fields.

use std::alloc::{AllocError, Global};

/// A field of a document.
#[derive(Drop)]
pub struct RowField {
    /// Its name; nothing where it has none.
    pub name: String,
    /// Its first byte, in the text of the document.
    pub start: usize,
    /// The byte behind it.
    pub end: usize,
}

/// A document of several fields.
#[derive(Drop)]
pub struct Row {
    /// Its text: those of its fields, with an end of line between them.
    pub text: String,
    /// Its fields, in their order.
    pub fields: Vec<RowField>,
}

impl Row {
    /// With no field yet.
    pub(crate) fn new(alloc: Global) -> Row {
        Row {
            text: String::new(alloc),
            fields: Vec::new(alloc),
        }
    }

    /// Adds a field.
    ///
    /// Refused for want of memory alone.
    pub(crate) fn push(&mut self, alloc: Global, name: &str, text: &str) -> Result<(), AllocError> {
        if !self.fields.is_empty() {
            self.text.push('\n')?;
        }
        let start = self.text.len();
        self.text.push_str(text)?;
        let field = RowField {
            name: String::from_str(alloc, name)?,
            start,
            end: self.text.len(),
        };
        self.fields.push(field)?;
        Ok(())
    }
}
