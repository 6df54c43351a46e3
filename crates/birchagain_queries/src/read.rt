//! The query that a text says.

ghost use Rattle.std.specs.Prelude.{IfErr, IfOk, IsUtf8};
ghost use Rattle.birchagain_queries.specs.Languages.{IsUnread, Says};
ghost use Rattle.birchagain_queries.specs.declared.language.Language.TheVariants.{Script, Typed};
ghost use Rattle.qm_script.specs.Spelled.{query_of};

use crate::fields::names_field;
use crate::language::Language;
use crate::refusal::QueryRefusal;
use crate::translated::translated;
use qm_parser::parse_query;
use qm_schema::QueryError;
use qm_script::{SpelledQuery, Unparsed, parse_query_text};
use std::alloc::Global;
use std::str;

/// The query that a text says, all of it, in a language. Words are taken as they stand: none is folded, and the text of
/// a phrase is cut at ASCII spaces.
///
/// Refused with [`QueryRefusal::NotUnderstood`] exactly where the text is not UTF-8, or is none of the language of
/// scripts; with [`QueryRefusal::Untyped`] exactly where it is none of the typed language, by what isn't understood and
/// its place; with [`QueryRefusal::NamesField`] exactly where it is one, and names a field; want of memory aside. Costs
/// about as much as the text is long.
pub fn query_of_text(
    alloc: Global,
    language: Language,
    text: &[u8],
) -> Result<SpelledQuery, QueryRefusal>
    ensures read { IfOk result (λ query. Says language text.now (query_of query)) }
    ensures refused { IfErr result (IsUnread language text.now) }
{
    match language {
        Language::Typed => query_of_typed(alloc, text),
        Language::Script => query_of_script(alloc, text),
    }
}

fn query_of_script(alloc: Global, text: &[u8]) -> Result<SpelledQuery, QueryRefusal>
    ensures read { IfOk result (λ query. Says Script text.now (query_of query)) }
    ensures refused { IfErr result (IsUnread Script text.now) }
{
    match parse_query_text(alloc, text) {
        Ok(query) => Ok(query),
        Err(Unparsed::Memory) => Err(QueryRefusal::Query(QueryError::Memory)),
        Err(Unparsed::NotUnderstood) => Err(QueryRefusal::NotUnderstood),
    }
}

fn query_of_typed(alloc: Global, text: &[u8]) -> Result<SpelledQuery, QueryRefusal>
    ensures read { IfOk result (λ query. Says Typed text.now (query_of query)) }
    ensures refused { IfErr result (IsUnread Typed text.now) }
{
    let Ok(text) = str::from_utf8(text) else {
        return Err(QueryRefusal::NotUnderstood);
    };
    let parsed = parse_query(alloc, text)?;
    if names_field(&parsed) {
        return Err(QueryRefusal::NamesField);
    }
    Ok(translated(alloc, &parsed)?)
}
