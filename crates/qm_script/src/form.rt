//! The words by which a line and a query begin.
//!
//! A word is compared with one after another, those first that are asked for most.

ghost use Rattle.std.specs.Prelude.{◌≡◌};
ghost use Rattle.qm_script.specs.Script.{form_named, line_form_named, occur_named};

use qm_schema::Occur;

/// What a line asks for, by its first word.
#[derive(Clone, Copy, Debug)]
pub enum LineForm {
    Doc,
    Weight,
    Segment,
    Delete,
    Docs,
    Scores,
    Count,
    Prune,
    Top,
}

/// What a query is, by its first word.
#[derive(Clone, Copy, Debug)]
pub enum QueryForm {
    All,
    Empty,
    Term,
    Phrase,
    PhrasePrefix,
    Boolean,
    Boost,
    Const,
    DisjunctionMax,
}

/// The form of a query that begins with this word.
#[tactic(auto, unfolding(crate::specs::Script::form_named))]
pub(crate) fn query_form(word: &str) -> Option<QueryForm>
    ensures { result ≡ form_named word.now }
{
    match word {
        "term" => Some(QueryForm::Term),
        "bool" => Some(QueryForm::Boolean),
        "phrase" => Some(QueryForm::Phrase),
        "prefix" => Some(QueryForm::PhrasePrefix),
        "boost" => Some(QueryForm::Boost),
        "max" => Some(QueryForm::DisjunctionMax),
        "const" => Some(QueryForm::Const),
        "all" => Some(QueryForm::All),
        "none" => Some(QueryForm::Empty),
        _ => None,
    }
}

/// How a clause behind this sign occurs.
#[tactic(auto, unfolding(crate::specs::Script::occur_named))]
pub(crate) fn occur_of(sign: &str) -> Option<Occur>
    ensures { result ≡ occur_named sign.now }
{
    match sign {
        "+" => Some(Occur::Must),
        "?" => Some(Occur::Should),
        "-" => Some(Occur::MustNot),
        _ => None,
    }
}

/// What a line that begins with this word asks for.
#[tactic(auto, unfolding(crate::specs::Script::line_form_named))]
pub(crate) fn line_form(word: &str) -> Option<LineForm>
    ensures { result ≡ line_form_named word.now }
{
    match word {
        "doc" => Some(LineForm::Doc),
        "docs" => Some(LineForm::Docs),
        "count" => Some(LineForm::Count),
        "scores" => Some(LineForm::Scores),
        "top" => Some(LineForm::Top),
        "prune" => Some(LineForm::Prune),
        "weight" => Some(LineForm::Weight),
        "segment" => Some(LineForm::Segment),
        "delete" => Some(LineForm::Delete),
        _ => None,
    }
}
