//! What in a text isn't understood.

use thiserror::Error;

/// What in the text of a query isn't understood.
#[derive(Clone, Copy, Debug, PartialEq, Eq, Error)]
pub enum RefusalKind {
    /// A `\` that no sign follows.
    #[error("a \\ stands only before a sign")]
    StrayEscape,
    /// A `"` that no other ends.
    #[error("the quote isn't ended")]
    OpenQuote,
    /// A `(` that no `)` ends.
    #[error("the parenthesis isn't ended")]
    OpenParenthesis,
    /// A `)` that ends no `(`.
    #[error("the parenthesis ends nothing")]
    StrayParenthesis,
    /// A `(` inside 64 others.
    #[error("parentheses stand in one another more than 64 deep")]
    TooDeep,
    /// A `*` or a `?` that isn't the end of a word or a phrase, or alone.
    #[error("* stands only alone, or at the end of a word or a phrase, and ? nowhere")]
    Wildcard,
    /// A `~` that isn't behind a phrase.
    #[error("~ stands only behind a phrase: words that are only like this one can't be asked for")]
    Fuzzy,
    /// The `~` behind a phrase, without a number.
    #[error("a number must follow the ~")]
    SlopWithoutNumber,
    /// The `~` behind a phrase, with a number above 4294967295.
    #[error("the number behind the ~ is above 4294967295")]
    SlopTooGreat,
    /// A `^` that isn't behind a word, a phrase, a `*` or a parenthesis, or behind a boost already.
    #[error("^ stands only behind a word, a phrase or a parenthesis, and once")]
    StrayBoost,
    /// A `^` without a number.
    #[error("a number must follow the ^")]
    BoostWithoutNumber,
    /// A `^` with something behind its digits, such as a point.
    #[error("the number behind the ^ must be a whole one, and end there")]
    BoostNotWhole,
    /// A `^` with a number above 2147483647.
    #[error("the number behind the ^ is above 2147483647")]
    BoostTooGreat,
    /// A `:` with no name before it.
    #[error("a name must stand before the :")]
    FieldWithoutName,
    /// A name and a `:` that no word, phrase or parenthesis follows at once.
    #[error("a word, a phrase or a parenthesis must follow the : at once")]
    FieldWithoutValue,
    /// A name, a `:` and a `*`: documents that have anything in a field.
    #[error("documents that have anything in a field can't be asked for")]
    AnyValue,
    /// A `+`, a `-` or a `NOT` that nothing follows which it could be said of. A `+` and a `-` are
    /// followed at once.
    #[error("a word, a phrase, a field or a parenthesis must follow the sign")]
    SignWithoutClause,
    /// An `AND` or an `OR` without a clause before it or behind it.
    #[error("a clause must stand on each side of AND and OR")]
    OperatorWithoutSide,
    /// A `[`, `]`, `{` or `}`, or a `<` or `>` where a word may begin.
    #[error("ranges can't be asked for")]
    Range,
    /// The word `IN`.
    #[error("IN and a set of words can't be asked for")]
    Set,
    /// A `/` where a word may begin.
    #[error("regular expressions can't be asked for")]
    Regex,
    /// Something that begins right behind a word, a phrase, a boost or a parenthesis.
    #[error("white space is missing before this")]
    Touching,
}
