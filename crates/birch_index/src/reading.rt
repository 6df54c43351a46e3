//! What is read, and how.

use crate::left_out::Notes;
use birch_text::{Accents, Form, PathRules};

/// What is read, and how.
#[derive(Drop)]
pub struct Reading<'a> {
    /// What is searched.
    pub paths: Vec<&'a str>,
    /// What of a file is a document.
    pub form: Form<'a>,
    /// Whether accents count in words.
    pub accents: Accents,
    /// Whether names that begin with a dot are read.
    pub has_hidden: bool,
    /// Whether files are read that ignore files name.
    pub has_ignored: bool,
    /// Patterns of the paths that are read, and with a `!` of those that aren't.
    pub globs: Vec<&'a str>,
    /// The same ones.
    pub glob_rules: PathRules,
    /// Kinds of files of which one is read; none where any is.
    pub types: Vec<&'a str>,
    /// How many bytes a file may have.
    pub max_size: u64,
    /// What is left out.
    pub notes: Notes,
    /// Whether it is told how far the reading is.
    pub has_progress: bool,
    /// What becomes of an index that is kept of the paths.
    pub keeping: Keeping,
    /// The folder of all indexes that are kept; none for the one of the user's cache.
    pub index_folder: Option<&'a str>,
}

/// What becomes of an index that is kept of the paths.
#[derive(Clone, Copy, PartialEq, Eq)]
pub enum Keeping {
    /// It is brought up to date and used, where there is one.
    Use,
    /// It is made, or brought up to date.
    Make,
    /// It is used as it stands, and no file is looked at.
    Stale,
    /// It is not used.
    Never,
    /// It is removed.
    Forget,
}
