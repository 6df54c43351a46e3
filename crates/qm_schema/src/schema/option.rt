//! What the postings of a field keep.

ghost use Rattle.std.specs.Prelude.{◌≡◌};
ghost use Rattle.qm_schema.specs.Option.{has_freq, has_positions};

/// What the postings of a field keep of each document, or what a query asks of them.
#[derive(Clone, Copy, Debug, PartialEq, Eq, Hash)]
pub enum IndexRecordOption {
    /// The documents alone.
    Basic,
    /// The documents, and how often the term stands in each.
    WithFreqs,
    /// The documents, how often the term stands in each, and at which positions.
    WithFreqsAndPositions,
}

impl IndexRecordOption {
    /// Whether frequencies are kept, or asked for.
    pub fn has_freq(self) -> bool
        ensures { result ≡ has_freq self }
    {
        match self {
            IndexRecordOption::Basic => false,
            IndexRecordOption::WithFreqs | IndexRecordOption::WithFreqsAndPositions => true,
        }
    }

    /// Whether positions are kept, or asked for.
    pub fn has_positions(self) -> bool
        ensures { result ≡ has_positions self }
    {
        match self {
            IndexRecordOption::Basic | IndexRecordOption::WithFreqs => false,
            IndexRecordOption::WithFreqsAndPositions => true,
        }
    }
}
