//! How a run ended.

use cases::Listing;
use qm_script::RunError;

/// How a run ended.
#[derive(Clone, Copy, PartialEq, Eq)]
pub enum Ending {
    /// with this exit status
    Status(u8),
    /// with a text, and no status
    Text,
    /// before its script did
    Refused(RunError),
}

impl Ending {
    /// Writes it behind a text.
    pub fn write(self, text: &mut Listing) {
        match self {
            Ending::Status(status) => write!(text, "{status}"),
            Ending::Text => text.word("none"),
            Ending::Refused(error) => write!(text, "refused {error:?}"),
        }
    }

    /// Whether the run came to the end of its script.
    pub fn is_well(self) -> bool {
        !matches!(self, Ending::Refused(_))
    }
}
