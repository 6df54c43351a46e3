//! Rows on explanations.

use crate::spelled::{cut, read_number};
use cases::{Asker, Done, Fault, Listing, Memory, end_refusals};
use qm_docset::Score;
use qm_term::Explanation;
use std::alloc::Global;

/// Writes an explanation: its value, and each detail with its value.
pub fn write_explanation(explanation: &Explanation, text: &mut Listing) {
    write!(text, "{}", explanation.value());
    if explanation.description().is_empty() {
        text.word(" without a description");
    }
    // the details before this one are written, each with its value
    for detail in explanation.details() {
        let (description, value) = (detail.description(), detail.value());
        write!(text, " {description} {value}");
        if !detail.details().is_empty() {
            text.word(" and more");
        }
    }
}

/// An explanation, and its last copy.
#[derive(Drop)]
pub struct ExplanationRows {
    explanation: Explanation,
    copy: Explanation,
}

/// An explanation of a value that is spelled. Some requests for memory are refused as it is made.
pub fn make_explanation(
    alloc: Global,
    value: &str,
    description: &str,
    memory: Memory,
) -> Result<Explanation, Fault> {
    let Ok(value) = value.parse::<Score>() else {
        return Err(Fault::NotUnderstood);
    };
    memory.begin(alloc);
    let made = Explanation::new(alloc, description, value);
    end_refusals(alloc);
    Ok(made?)
}

impl ExplanationRows {
    pub fn new(alloc: Global, explanation: Explanation) -> Result<ExplanationRows, Fault> {
        let copy = explanation.clone(alloc)?;
        Ok(ExplanationRows { explanation, copy })
    }

    // Adds the detail `VALUE DESCRIPTION`, and behind `>` its own one.
    fn add_detail(&mut self, alloc: Global, spelled: &str, memory: Memory) -> Done {
        let (first, inner) = match spelled.split_once(" > ") {
            Some((first, inner)) => (first, Some(inner)),
            None => (spelled, None),
        };
        let (value, description) = cut(first);
        let mut detail = make_explanation(alloc, value, description, Memory::Ample)?;
        if let Some(inner) = inner {
            let (value, description) = cut(inner);
            detail.add_detail(make_explanation(alloc, value, description, Memory::Ample)?)?;
        }
        memory.begin(alloc);
        Ok(self.explanation.add_detail(detail)?)
    }

    fn add_context(&mut self, alloc: Global, context: &str, memory: Memory) -> Done {
        memory.begin(alloc);
        Ok(self.explanation.add_context(context)?)
    }

    fn make_copy(&mut self, alloc: Global, memory: Memory) -> Done {
        memory.begin(alloc);
        self.copy = self.explanation.clone(alloc)?;
        Ok(())
    }
}

impl Asker for ExplanationRows {
    fn ask(&mut self, alloc: Global, call: &str, memory: Memory, text: &mut Listing) -> Done {
        let (name, rest) = cut(call);
        match name {
            "detail" => self.add_detail(alloc, rest, memory),
            "context" => self.add_context(alloc, rest, memory),
            "clone" => self.make_copy(alloc, memory),
            "copy" => ask_explanation(alloc, &self.copy, rest, text),
            _ => ask_explanation(alloc, &self.explanation, call, text),
        }
    }
}

// `at 0 1`: the value, the description and the number of details of the second detail of the first one.
// `prints TEXT`: whether the text stands in what is printed of it.
fn ask_explanation(
    alloc: Global,
    explanation: &Explanation,
    call: &str,
    text: &mut Listing,
) -> Done {
    let (name, rest) = cut(call);
    match name {
        "at" => write_detail(explanation, rest, text),
        "prints" => {
            let printed = format!(in alloc; "{explanation:?}")?;
            Ok(write!(text, "{}", printed.contains(rest)))
        }
        _ => Err(Fault::NotUnderstood),
    }
}

fn write_detail(explanation: &Explanation, path: &str, text: &mut Listing) -> Done {
    let mut here = explanation;
    // `here` is reached by the numbers so far
    for number in path.split_whitespace() {
        let place = read_number(number)? as usize;
        let Some(detail) = here.details().get(place) else {
            return Err(Fault::NotAllowed);
        };
        here = detail;
    }
    let (value, count) = (here.value(), here.details().len());
    Ok(write!(text, "{value} {} {count}", here.description()))
}
