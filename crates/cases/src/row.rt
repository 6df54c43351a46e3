//! A row of a block.

/// A call, and what it must answer.
#[derive(Clone, Copy)]
pub struct Row<'a> {
    pub line: u64,
    /// the words of the call
    pub call: &'a str,
    /// what stands behind `=`; an empty text where nothing does
    pub wanted: &'a str,
    /// whether the call is made again and again, with each of its requests for memory refused in turn
    pub is_refused: bool,
}

/// The row that a line spells: `seek 4 = 9`, or `refused each count = 3`.
pub fn read_row<'a>(line: u64, text: &'a str) -> Row<'a> {
    let (call, wanted) = match text.split_once('=') {
        Some((call, wanted)) => (call.trim(), wanted.trim()),
        None => (text.trim(), ""),
    };
    match call.strip_prefix("refused each ") {
        Some(call) => Row {
            line,
            call,
            wanted,
            is_refused: true,
        },
        None => Row {
            line,
            call,
            wanted,
            is_refused: false,
        },
    }
}
