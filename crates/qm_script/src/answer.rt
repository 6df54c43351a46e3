//! What the program answers to a line.

ghost use Rattle.std.specs.Prelude.{◌≡◌, IfOk, OnOk, length, string_bytes};
ghost use Rattle.qm_query.specs.Query.{query_of as built_query};
ghost use Rattle.qm_script.specs.Answers.{AnswersQuestion, DeletesDocument, IsChangeAnswer, IsListingAnswer, Step, WritesAsked, answer_text, status_of};
ghost use Rattle.qm_script.specs.ScriptSegments.{IsBuilt};
ghost use Rattle.qm_script.specs.Served.{ServesQuery};
ghost use Rattle.qm_script.specs.Spelled.{query_of};
ghost use Rattle.qm_script.specs.State.{state};

use crate::best::write_best;
use crate::corpus::Corpus;
use crate::counting::write_count;
use crate::matching::write_matches;
use crate::parse::Command;
use crate::pruning::write_pruned;
use crate::query_builder::build_query;
use crate::question::Question;
use crate::spelled_query::SpelledQuery;
use qm_postings::Searcher;
use qm_query::{AnyQuery, EnableScoring};
use qm_schema::QueryError;
use std::alloc::{AllocError, Global};

/// What a line is answered.
#[derive(Clone, Copy, PartialEq, Eq)]
pub(crate) enum Answer {
    /// Nothing is written: the line had no word, or it added something.
    Silence,
    /// What was asked for is listed: documents, or their number.
    Listing,
    /// The line was refused, with the refusal's number.
    Refused(u8),
    /// The line wasn't understood.
    NotUnderstood,
}

impl Answer {
    /// The exit status of a script in which no other line is answered worse than this.
    pub(crate) fn status(self) -> u8
        ensures { result ≡ status_of self }
    {
        match self {
            Answer::Silence | Answer::Listing => 0,
            Answer::Refused(_) => 1,
            Answer::NotUnderstood => 2,
        }
    }

    /// Makes of the text, which has what was listed, all that is written where this answers line
    /// `line`. Its only error is the want of memory for the text of a refusal: a listing has left room for
    /// the end of its line.
    pub(crate) fn finish(self, line: u64, text: &mut String) -> Result<(), AllocError>
        ensures { OnOk result (string_bytes text.new ≡ answer_text line self (string_bytes text.old)) }
    {
        match self {
            Answer::Silence => {
                text.clear();
                Ok(())
            }
            Answer::Listing => text.push('\n'),
            Answer::Refused(number) => {
                text.clear();
                write!(text, "line {line}: refused {number}\n")
            }
            Answer::NotUnderstood => {
                text.clear();
                write!(text, "line {line}: not understood\n")
            }
        }
    }
}

/// Answers what a line asks for, `None` where it isn't understood, and leaves what it lists in the
/// text, which is empty before. An error says that there was no memory for what the program itself
/// keeps.
#[tactic(auto, using(crate::proofs::States::is_state))]
pub(crate) fn answer_command(
    alloc: Global,
    corpus: &mut Corpus,
    command: Option<Command>,
    text: &mut String,
) -> Result<Answer, AllocError>
    requires { length (string_bytes text.old) ≡ 0 }
    ensures { IfOk result (λ answer. Step (state corpus.old) command answer (string_bytes text.new) (state corpus.new)) }
{
    match command {
        None => Ok(Answer::NotUnderstood),
        Some(Command::Nothing) => Ok(Answer::Silence),
        Some(Command::AddDocument(words)) => answer_change(corpus.add_document(alloc, words)),
        Some(Command::SetWeight(word, weight)) => answer_change(corpus.set_weight(
            alloc,
            word.as_str(),
            weight,
        )),
        Some(Command::EndSegment) => answer_change(corpus.end_segment(alloc)),
        Some(Command::DeleteDocument(number)) => answer_deletion(alloc, corpus, number),
        Some(Command::Ask(question, query)) => answer_query(alloc, corpus, question, &query, text),
    }
}

// A deletion is silent; a line that deletes a document that is not there is not understood.
#[tactic(auto, using(crate::proofs::States::is_state))]
fn answer_deletion(alloc: Global, corpus: &mut Corpus, number: u64) -> Result<Answer, AllocError>
    ensures { IfOk result (λ answer. DeletesDocument number (state corpus.old) answer (state corpus.new)) }
{
    if corpus.delete(alloc, number)? {
        Ok(Answer::Silence)
    } else {
        Ok(Answer::NotUnderstood)
    }
}

// A change of the documents or the weights is silent. Where memory is refused for what the program
// itself keeps, the run ends.
fn answer_change(changed: Result<(), QueryError>) -> Result<Answer, AllocError>
    ensures { IfOk result (IsChangeAnswer changed) }
{
    match changed {
        Ok(()) => Ok(Answer::Silence),
        Err(QueryError::Memory) => Err(AllocError),
        Err(error) => Ok(Answer::Refused(error.number())),
    }
}

// Answers a line that asks something of a query.
#[tactic(auto, using(crate::proofs::States::is_state))]
fn answer_query(
    alloc: Global,
    corpus: &mut Corpus,
    question: Question,
    spelled: &SpelledQuery,
    text: &mut String,
) -> Result<Answer, AllocError>
    requires { length (string_bytes text.old) ≡ 0 }
    ensures answer { IfOk result (λ answer. AnswersQuestion question (query_of spelled.now) (state corpus.old) answer (string_bytes text.new)) }
    ensures unchanged { OnOk result (state corpus.new ≡ state corpus.old) }
{
    match build_query(alloc, spelled) {
        Ok(query) => {
            let narrowed = corpus.build_segments(alloc, spelled)?;
            let written = write_asked(alloc, corpus, &narrowed, question, &query, text);
            Ok(answer_listing(written))
        }
        Err(error) => Ok(Answer::Refused(error.number())),
    }
}

// Writes what is asked of a query, over the segments that serve it.
fn write_asked(
    alloc: Global,
    corpus: &Corpus,
    narrowed: &Option<Box<Searcher>>,
    question: Question,
    query: &AnyQuery,
    text: &mut String,
) -> Result<(), QueryError>
    requires built { IsBuilt corpus.now }
    requires served { ServesQuery (built_query query.now) corpus.now narrowed.now }
    requires empty { length (string_bytes text.old) ≡ 0 }
    ensures { WritesAsked question (built_query query.now) (state corpus.now) result (string_bytes text.new) }
{
    let searcher = corpus.searcher();
    let searched = corpus.searched(narrowed);
    let segments = searched.segment_readers();
    match question {
        Question::Documents => {
            let enable = EnableScoring::disabled_from_searcher(searcher);
            write_matches(alloc, segments, enable, query, text)
        }
        Question::Scores => {
            let enable = EnableScoring::enabled_from_searcher(searcher);
            write_matches(alloc, segments, enable, query, text)
        }
        Question::Count => write_count(alloc, searched, query, text),
        Question::Above(threshold) => {
            let enable = EnableScoring::enabled_from_searcher(searcher);
            let ended = corpus.ended();
            write_pruned(alloc, segments, ended, enable, query, threshold, text)
        }
        Question::Best(count) => write_best(alloc, searched, searcher, query, count, text),
    }
}

fn answer_listing(listed: Result<(), QueryError>) -> Answer
    ensures { IsListingAnswer listed result }
{
    match listed {
        Ok(()) => Answer::Listing,
        Err(error) => Answer::Refused(error.number()),
    }
}
