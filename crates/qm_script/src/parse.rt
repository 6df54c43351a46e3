//! What a line of a script asks for.

ghost use Rattle.std.specs.Prelude.{◌≡◌, map, IfOk, IsUtf8, Some};
ghost use Rattle.qm_script.specs.Cursor.{words_left};
ghost use Rattle.qm_script.specs.Script.{AreWords, Request, behind_line_form, delete_at, line_request, line_words, prune_at, top_at, weight_at, whole_query, words_request};
ghost use Rattle.qm_script.specs.Requests.{request_of};
ghost use Rattle.qm_script.specs.Spelled.{Gives, query_of};
ghost use Rattle.qm_script.specs.Spelling.{Spells};

use crate::document_line::document_text;
use crate::form::{LineForm, line_form};
use crate::non_negative_score::NonNegativeScore;
use crate::question::Question;
use crate::read_query::read_query;
use crate::spelled_query::{MAX_DEPTH, SpelledQuery};
use crate::unparsed::Unparsed;
use crate::words::Words;
use std::alloc::Global;
use std::str;

/// What a line asks for.
#[derive(Debug, Drop)]
pub enum Command {
    /// Nothing: the line has no word.
    Nothing,
    /// To add a document with the words of this text, which spaces part.
    AddDocument(String),
    /// To give a word its weight, from now on.
    SetWeight(String, NonNegativeScore),
    /// To end the open segment, and to open another.
    EndSegment,
    /// To delete the document of this number over all segments.
    DeleteDocument(u64),
    /// To answer what is asked of a query.
    Ask(Question, SpelledQuery),
}

/// What a line asks for.
pub fn parse_line(alloc: Global, line: &[u8]) -> Result<Command, Unparsed>
    ensures text { IfOk result (λ command. IsUtf8 line.now) }
    ensures request { IsUtf8 line.now → Gives request_of result (line_request line.now) }
    // what a line spells is read back from it
    ensures spelled { (request : Request) → Spells line.now request → IsUtf8 line.now → Gives request_of result (Some request) }
{
    let Ok(text) = str::from_utf8(line) else {
        return Err(Unparsed::NotUnderstood);
    };
    match document_text(text) {
        Some(words) => Ok(Command::AddDocument(String::from_str(alloc, words)?)),
        None => parse_text(alloc, text),
    }
}

fn parse_text(alloc: Global, text: &str) -> Result<Command, Unparsed>
    ensures { Gives request_of result (line_request text.now) }
{
    let mut words = Words::new(text);
    parse_words(alloc, &mut words)
}

#[tactic(auto, unfolding(crate::specs::Script::words_request))]
fn parse_words(alloc: Global, words: &mut Words<'_>) -> Result<Command, Unparsed>
    requires { AreWords (words_left words.old) }
    ensures { Gives request_of result (words_request (words_left words.old)) }
{
    let Some(first) = words.next_word() else {
        return Ok(Command::Nothing);
    };
    match line_form(first) {
        Some(form) => parse_behind_form(alloc, words, form),
        None => Err(Unparsed::NotUnderstood),
    }
}

#[tactic(auto, unfolding(crate::specs::Script::behind_line_form))]
fn parse_behind_form(
    alloc: Global,
    words: &mut Words<'_>,
    form: LineForm,
) -> Result<Command, Unparsed>
    requires { AreWords (words_left words.old) }
    ensures { Gives request_of result (behind_line_form form (words_left words.old)) }
{
    match form {
        LineForm::Doc => Ok(Command::AddDocument(words.rest(alloc)?)),
        LineForm::Weight => parse_weight(alloc, words),
        LineForm::Segment => {
            words.end()?;
            Ok(Command::EndSegment)
        }
        LineForm::Delete => parse_delete(words),
        LineForm::Docs => Ok(Command::Ask(Question::Documents, parse_query(alloc, words)?)),
        LineForm::Scores => Ok(Command::Ask(Question::Scores, parse_query(alloc, words)?)),
        LineForm::Count => Ok(Command::Ask(Question::Count, parse_query(alloc, words)?)),
        LineForm::Prune => parse_prune(alloc, words),
        LineForm::Top => parse_top(alloc, words),
    }
}

#[tactic(auto, unfolding(crate::specs::Script::weight_at))]
fn parse_weight(alloc: Global, words: &mut Words<'_>) -> Result<Command, Unparsed>
    ensures { Gives request_of result (weight_at (words_left words.old)) }
{
    let word = words.text(alloc)?;
    let weight = words.score()?;
    words.end()?;
    Ok(Command::SetWeight(word, weight))
}

#[tactic(auto, unfolding(crate::specs::Script::delete_at))]
fn parse_delete(words: &mut Words<'_>) -> Result<Command, Unparsed>
    ensures { Gives request_of result (delete_at (words_left words.old)) }
{
    let number = words.document()?;
    words.end()?;
    Ok(Command::DeleteDocument(number))
}

#[tactic(auto, unfolding(crate::specs::Script::prune_at))]
fn parse_prune(alloc: Global, words: &mut Words<'_>) -> Result<Command, Unparsed>
    ensures { Gives request_of result (prune_at (words_left words.old)) }
{
    let threshold = words.threshold()?;
    let query = parse_query(alloc, words)?;
    Ok(Command::Ask(Question::Above(threshold), query))
}

#[tactic(auto, unfolding(crate::specs::Script::top_at))]
fn parse_top(alloc: Global, words: &mut Words<'_>) -> Result<Command, Unparsed>
    ensures { Gives request_of result (top_at (words_left words.old)) }
{
    let count = words.count()?;
    let query = parse_query(alloc, words)?;
    Ok(Command::Ask(Question::Best(count), query))
}

/// The query that a text spells, all of it, where it is UTF-8.
pub fn parse_query_text(alloc: Global, text: &[u8]) -> Result<SpelledQuery, Unparsed>
    ensures text { IfOk result (λ query. IsUtf8 text.now) }
    ensures query { IsUtf8 text.now → Gives query_of result (whole_query (line_words text.now)) }
{
    let Ok(text) = str::from_utf8(text) else {
        return Err(Unparsed::NotUnderstood);
    };
    parse_query(alloc, &mut Words::new(text))
}

// A query that takes all of the words.
#[tactic(auto, unfolding(crate::specs::Script::whole_query))]
fn parse_query(alloc: Global, words: &mut Words<'_>) -> Result<SpelledQuery, Unparsed>
    ensures { Gives query_of result (whole_query (words_left words.old)) }
{
    let query = read_query(alloc, words, MAX_DEPTH)?;
    words.end()?;
    Ok(query)
}
