//! What words spell in front form, read from the last word to the first: what stands behind a word is made
//! already.

use crate::form::{Form, has_word};
use cases::{Fault, Memory};
use qm_schema::Occur;
use std::alloc::Global;

/// What words made, with the sign before it.
pub type Clause<T> = (Occur, Box<T>);

/// A language of front forms.
pub trait Language<T> {
    /// Whether a form begins with this word.
    fn is_name(&self, word: &str) -> bool;

    /// What a form makes, over what is made already.
    fn build(
        &self,
        alloc: Global,
        form: Form<'_>,
        made: &mut Vec<Clause<T>>,
    ) -> Result<Box<T>, Fault>;
}

/// What words spell, with some requests for memory refused as it is made and none as what stands inside is.
pub fn read_front<T: Drop, L: Language<T>>(
    alloc: Global,
    language: &L,
    words: &[&str],
    memory: Memory,
) -> Result<Box<T>, Fault> {
    let mut made = read_words(alloc, language, words, memory)?;
    if made.len() > 1 {
        return Err(Fault::NotUnderstood);
    }
    take_clause(&mut made)
}

/// What was made last.
pub fn take_clause<T: Drop>(made: &mut Vec<Clause<T>>) -> Result<Box<T>, Fault> {
    match made.pop() {
        Some((_, last)) => Ok(last),
        None => Err(Fault::NotUnderstood),
    }
}

/// The clauses that were made last, so many, in order.
pub fn take_clauses<T: Drop>(
    alloc: Global,
    made: &mut Vec<Clause<T>>,
    count: u32,
) -> Result<Vec<Clause<T>>, Fault> {
    let mut taken = Vec::new(alloc);
    // as many clauses are taken, in order, as there were turns
    for _ in 0..count {
        match made.pop() {
            Some(clause) => taken.push(clause)?,
            None => return Err(Fault::NotUnderstood),
        }
    }
    Ok(taken)
}

// What words spell one behind another, the first one last.
fn read_words<T: Drop, L: Language<T>>(
    alloc: Global,
    language: &L,
    words: &[&str],
    memory: Memory,
) -> Result<Vec<Clause<T>>, Fault> {
    let mut made = Vec::new(alloc);
    let mut end = words.len();
    // what was made is that of the words from `end` on
    for at in (0..words.len()).rev() {
        let name = words[at];
        if (is_sign(name) || language.is_name(name)) && at < end {
            let form = Form {
                name,
                words: &words[at + 1..end],
                is_first: !has_word(&words[..at], name),
                memory: if at == 0 { memory } else { Memory::Ample },
            };
            let clause = build_clause(alloc, language, form, &mut made)?;
            made.push(clause)?;
            end = at;
        }
    }
    if end > 0 {
        return Err(Fault::NotUnderstood);
    }
    Ok(made)
}

fn is_sign(word: &str) -> bool {
    match word {
        "+" | "-" | "?" => true,
        _ => false,
    }
}

fn build_clause<T: Drop, L: Language<T>>(
    alloc: Global,
    language: &L,
    form: Form<'_>,
    made: &mut Vec<Clause<T>>,
) -> Result<Clause<T>, Fault> {
    let inner = if is_sign(form.name) {
        take_clause(made)?
    } else {
        language.build(alloc, form, made)?
    };
    Ok((occur_of(form.name), inner))
}

// How a clause with this sign occurs.
fn occur_of(sign: &str) -> Occur {
    match sign {
        "+" => Occur::Must,
        "-" => Occur::MustNot,
        _ => Occur::Should,
    }
}
