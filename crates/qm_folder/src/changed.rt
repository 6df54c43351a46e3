//! What has changed between an index of files and the files.

/// What has changed since an index was made.
#[derive(Drop)]
pub struct Changes {
    /// the places of the kept files that don't stay
    pub gone: Vec<usize>,
    /// the places of the found files that are to be read
    pub to_read: Vec<usize>,
}
