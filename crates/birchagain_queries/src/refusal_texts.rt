//! What the statuses of refused queries say.

/// What a status of this crate's own says, in English: one from 71 on. Those of the typed language say what
/// [`qm_parser::RefusalKind`] does.
pub fn query_status_text(status: u32) -> Option<&'static str> {
    match status {
        71 => Some("a query names a field, and the documents have no fields"),
        72 => Some("there is no language of queries of that number"),
        86 => Some("an array is too small for what it is to be filled with"),
        _ => untyped_text(status),
    }
}

// The same of a text that is none of the typed language.
fn untyped_text(status: u32) -> Option<&'static str> {
    let text = match status {
        101 => "a \\ stands only before a sign",
        102 => "the quote isn't ended",
        103 => "the parenthesis isn't ended",
        104 => "the parenthesis ends nothing",
        105 => "parentheses stand in one another more than 64 deep",
        106 => "* stands only alone, or at the end of a word or a phrase, and ? nowhere",
        107 =>
            "~ stands only behind a phrase: words that are only like this one can't be asked for",
        108 => "a number must follow the ~",
        109 => "the number behind the ~ is above 4294967295",
        110 => "^ stands only behind a word, a phrase or a parenthesis, and once",
        111 => "a number must follow the ^",
        112 => "the number behind the ^ must be a whole one, and end there",
        113 => "the number behind the ^ is above 2147483647",
        114 => "a name must stand before the :",
        115 => "a word, a phrase or a parenthesis must follow the : at once",
        116 => "documents that have anything in a field can't be asked for",
        117 => "a word, a phrase, a field or a parenthesis must follow the sign",
        118 => "a clause must stand on each side of AND and OR",
        119 => "ranges can't be asked for",
        120 => "IN and a set of words can't be asked for",
        121 => "regular expressions can't be asked for",
        122 => "white space is missing before this",
        _ => return None,
    };
    Some(text)
}
