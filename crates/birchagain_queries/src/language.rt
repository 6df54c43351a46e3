//! The languages of queries.

ghost use Rattle.std.specs.Prelude.{◌≡◌};

/// A language in which a query is written.
#[derive(Clone, Copy, Debug, PartialEq, Eq)]
pub enum Language {
    /// The one that people type: `docs/QUERIES.md`.
    Typed,
    /// That of scripts: a `Q` of `docs/SCRIPT.md`.
    Script,
}

impl Language {
    ghost use Rattle.birchagain_queries.specs.Languages.{language_of};

    /// The language of a number: 0 is the typed one, and 1 that of scripts.
    pub fn numbered(number: u32) -> Option<Language>
        ensures { result ≡ language_of number }
    {
        match number {
            0 => Some(Language::Typed),
            1 => Some(Language::Script),
            _ => None,
        }
    }
}
