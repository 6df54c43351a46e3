//! Why two answers can't be merged, and the statuses by which C learns of it.

ghost use Rattle.std.specs.Prelude.{◌≡◌};

/// Why two answers can't be merged.
#[derive(Clone, Copy, Debug, PartialEq, Eq)]
pub enum MergeRefusal {
    /// A hit of one of them scores more than the one before it.
    NotRanked,
    /// A document of the second would have a number above 18446744073709551615.
    NumberTooHigh,
}

impl MergeRefusal {
    ghost use Rattle.birchagain_partitions.specs.Statuses.{status_of};

    /// The status of a call that was refused so.
    pub fn status(self) -> u32
        ensures { result ≡ status_of self }
    {
        match self {
            MergeRefusal::NotRanked => 73,
            MergeRefusal::NumberTooHigh => 74,
        }
    }
}

/// What a status of this crate's own says, in English.
pub fn merge_status_text(status: u32) -> Option<&'static str> {
    match status {
        73 => Some("a hit scores more than the one before it"),
        74 => Some("a document would have a number above 18446744073709551615"),
        _ => None,
    }
}
