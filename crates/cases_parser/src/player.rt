//! Which blocks there are.

use crate::shown::{show_refusal, show_size, show_tree};
use crate::spelled::read_text;
use cases::{
    Asker, Block, Done, Fault, Listing, Memory, Player, Report, end_refusals, play_asked, word,
};
use qm_parser::{ParseError, ParsedQuery, parse_query};
use qm_schema::QueryError;
use std::alloc::Global;

/// Plays blocks of texts.
#[derive(Drop)]
pub struct Texts;

impl Player for Texts {
    fn play(&mut self, alloc: Global, block: Block<'_>, report: &mut Report) -> Done {
        match word(block.words, 0) {
            "parse" => play_asked(alloc, &mut Parsed, block.rows, report),
            _ => Err(Fault::NotUnderstood),
        }
    }
}

/// Asks for the tree of each row's text.
#[derive(Drop)]
struct Parsed;

impl Asker for Parsed {
    // `: TEXT`, the tree; `tree TIMES : TEXT`, how the tree begins of a text that stands so often behind itself;
    // `nested TIMES : TEXT`, the same of a text in so many parentheses.
    fn ask(&mut self, alloc: Global, call: &str, memory: Memory, text: &mut Listing) -> Done {
        let Some((form, spelled)) = call.split_once(':') else {
            return Err(Fault::NotUnderstood);
        };
        let typed = read_text(alloc, spelled.trim())?;
        let form = form.trim();
        if form.is_empty() {
            let parsed = parse(alloc, memory, typed.as_str());
            return show(parsed, false, text);
        }
        let repeated = repeat(alloc, form, typed.as_str())?;
        let parsed = parse(alloc, memory, repeated.as_str());
        show(parsed, true, text)
    }
}

fn parse(alloc: Global, memory: Memory, typed: &str) -> Result<ParsedQuery, ParseError> {
    memory.begin(alloc);
    let parsed = parse_query(alloc, typed);
    end_refusals(alloc);
    parsed
}

fn show(parsed: Result<ParsedQuery, ParseError>, is_large: bool, text: &mut Listing) -> Done {
    match parsed {
        Ok(tree) if is_large => Ok(show_size(&tree, text)),
        Ok(tree) => Ok(show_tree(&tree, text)),
        Err(ParseError::Refused(refusal)) => Ok(show_refusal(refusal, text)),
        Err(ParseError::Memory) => Err(Fault::Refused(QueryError::Memory)),
    }
}

// The text that stands so often behind itself, or in so many parentheses.
fn repeat(alloc: Global, form: &str, typed: &str) -> Result<String, Fault> {
    let Some((form, times)) = form.split_once(' ') else {
        return Err(Fault::NotUnderstood);
    };
    let Ok(times) = times.parse::<u32>() else {
        return Err(Fault::NotUnderstood);
    };
    let mut text = Listing::new(alloc);
    match form {
        "tree" => push_times(times, typed, &mut text),
        "nested" => {
            push_times(times, "(", &mut text);
            text.word(typed);
            push_times(times, ")", &mut text);
        }
        _ => return Err(Fault::NotUnderstood),
    }
    Ok(text.into_string()?)
}

fn push_times(times: u32, part: &str, text: &mut Listing) {
    // the part stands behind the text as often as there were turns
    for _ in 0..times {
        text.word(part);
    }
}
