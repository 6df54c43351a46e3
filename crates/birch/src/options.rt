//! What the command is asked for.

use crate::listing::Unit;
use crate::offered::DEFAULT_SIZE;
use anyhow::{Error, Result, anyhow, bail};
use birch_index::{Keeping, Notes, Reading};
use birch_text::{Accents, Form, PathRules, PatternError};
use clap::ArgMatches;
use std::alloc::{AllocError, Global};

/// What the command is asked for.
#[derive(Drop)]
pub struct Options<'a> {
    /// What is read, and how.
    pub reading: Reading<'a>,
    /// What is searched for; none where queries are read.
    pub query: Option<&'a str>,
    /// Where queries are read, a line each.
    pub queries: Option<&'a str>,
    /// Which documents are one result together.
    pub unit: Unit,
    /// How many results are listed.
    pub limit: usize,
    /// How many of the first results aren't.
    pub skipped: usize,
    /// Whether the number of documents alone is wanted.
    pub is_count: bool,
    /// Whether results are lines of JSON.
    pub is_json: bool,
    /// The result of which it is told why it scores what it does.
    pub explained: Option<usize>,
    /// Whether numbers and times are wanted.
    pub has_stats: bool,
    /// When found words are coloured.
    pub color: Color,
}

/// When found words are coloured.
#[derive(Clone, Copy, PartialEq, Eq)]
pub enum Color {
    /// Never.
    Never,
    /// Where a terminal shows them.
    Auto,
    /// Always.
    Always,
}

/// What the words of the command line ask for.
pub fn read_options<'a>(alloc: Global, matches: &ArgMatches<'a>) -> Result<Options<'a>> {
    let queries = matches.get_str("queries");
    let keeping = keeping_of(matches);
    let first = matches.get_str("QUERY");
    let has_query = queries.is_none() && keeping != Keeping::Make && keeping != Keeping::Forget;
    let query = if has_query {
        Some(first.ok_or(anyhow!("a query is wanted; --help says more"))?)
    } else {
        None
    };
    Ok(Options {
        query,
        queries,
        unit: unit(matches),
        limit: matches.get_one::<u32>("limit").unwrap_or(10) as usize,
        skipped: matches.get_one::<u32>("skip").unwrap_or(0) as usize,
        is_count: matches.get_flag("count"),
        is_json: matches.get_flag("json"),
        explained: explained(matches)?,
        has_stats: matches.get_flag("stats"),
        color: color_of(matches.get_str("color").unwrap_or("auto")),
        reading: reading(alloc, matches, if has_query { None } else { first })?,
    })
}

// What is read, and how; the first word is a path too where it is no query.
fn reading<'a>(
    alloc: Global,
    matches: &ArgMatches<'a>,
    first: Option<&'a str>,
) -> Result<Reading<'a>> {
    let globs = texts(alloc, matches, "glob")?;
    let has_hidden = matches.get_flag("hidden");
    Ok(Reading {
        paths: paths(alloc, matches, first)?,
        form: form(matches),
        accents: accents(matches),
        has_hidden,
        has_ignored: has_hidden || matches.get_flag("no-ignore"),
        glob_rules: glob_rules(alloc, &globs)?,
        globs,
        types: texts(alloc, matches, "type")?,
        max_size: size(matches.get_str("max-size").unwrap_or(DEFAULT_SIZE))?,
        notes: Notes::new(matches.get_flag("notes")),
        has_progress: matches.get_flag("progress"),
        keeping: keeping_of(matches),
        index_folder: matches.get_str("index-dir"),
    })
}

// What is searched; the first word is a path too where it is no query.
fn paths<'a>(
    alloc: Global,
    matches: &ArgMatches<'a>,
    first: Option<&'a str>,
) -> Result<Vec<&'a str>, AllocError> {
    let mut paths = Vec::new(alloc);
    if let Some(path) = first {
        paths.push(path)?;
    }
    paths.extend_from_slice(matches.get_strs("PATH").unwrap_or(&[]))?;
    if paths.is_empty() {
        paths.push(".")?;
    }
    Ok(paths)
}

fn keeping_of(matches: &ArgMatches<'_>) -> Keeping {
    if matches.get_flag("index") {
        Keeping::Make
    } else if matches.get_flag("stale") {
        Keeping::Stale
    } else if matches.get_flag("no-index") {
        Keeping::Never
    } else if matches.get_flag("forget") {
        Keeping::Forget
    } else {
        Keeping::Use
    }
}

fn form<'a>(matches: &ArgMatches<'a>) -> Form<'a> {
    if let Some(column) = matches.get_str("csv") {
        return Form::Csv(column);
    }
    if let Some(key) = matches.get_str("json-key") {
        return Form::Json(key);
    }
    if matches.get_flag("csv-fields") {
        return Form::CsvFields;
    }
    if matches.get_flag("json-fields") {
        return Form::JsonFields;
    }
    if matches.get_flag("lines") {
        Form::Lines
    } else {
        Form::Paragraphs
    }
}

fn accents(matches: &ArgMatches<'_>) -> Accents {
    if matches.get_flag("accents") {
        Accents::Kept
    } else {
        Accents::Folded
    }
}

fn unit(matches: &ArgMatches<'_>) -> Unit {
    if matches.get_flag("files") {
        Unit::File
    } else if matches.get_flag("repeats") {
        Unit::Document
    } else {
        Unit::Text
    }
}

fn explained(matches: &ArgMatches<'_>) -> Result<Option<usize>> {
    match matches.get_one::<u32>("explain") {
        Some(0) => bail!("results are numbered from 1 up: --explain 1"),
        Some(number) => Ok(Some(number as usize)),
        None => Ok(None),
    }
}

// What an option says that may be repeated.
fn texts<'a>(
    alloc: Global,
    matches: &ArgMatches<'a>,
    name: &str,
) -> Result<Vec<&'a str>, AllocError> {
    let mut texts = Vec::new(alloc);
    texts.extend_from_slice(matches.get_strs(name).unwrap_or(&[]))?;
    Ok(texts)
}

// The patterns of paths.
fn glob_rules(alloc: Global, globs: &[&str]) -> Result<PathRules> {
    let mut rules = PathRules::new(alloc);
    // the patterns before this one are among the rules
    for glob in globs {
        match rules.add_with_braces(alloc, glob) {
            Ok(()) => {}
            Err(PatternError::TooMany) => {
                bail!("the braces of --glob {glob} stand for more than a thousand patterns")
            }
            Err(PatternError::Memory) => return Err(Error::from(AllocError)),
        }
    }
    Ok(rules)
}

fn color_of(text: &str) -> Color {
    match text {
        "always" => Color::Always,
        "never" => Color::Never,
        _ => Color::Auto,
    }
}

// A number of bytes, as 300, 10K, 10M or 1G. A place within a file has 32 bits.
fn size(text: &str) -> Result<u64> {
    let (digits, unit) = match text.strip_suffix('K') {
        Some(digits) => (digits, 1 << 10),
        None => match text.strip_suffix('M') {
            Some(digits) => (digits, 1 << 20),
            None => match text.strip_suffix('G') {
                Some(digits) => (digits, 1 << 30),
                None => (text, 1),
            },
        },
    };
    match digits.parse::<u64>() {
        Ok(number) => Ok(number.saturating_mul(unit).min(u64::from(u32::MAX))),
        Err(_) => bail!("--max-size {text} is no number of bytes, as 500K, 64M or 1G"),
    }
}
