//! Lists of patterns, as ignore files and options have them.

use crate::glob::is_glob_match;
use std::alloc::{AllocError, AllocFailed, Global};

/// How many patterns one with braces may stand for.
const MOST_PATTERNS: usize = 1000;

/// What a pattern says of what it fits.
#[derive(Clone, Copy, PartialEq, Eq)]
pub enum Sense {
    /// It has no `!` in front.
    Plain,
    /// It has one.
    Turned,
}

// A pattern of paths.
#[derive(Drop)]
struct PathRule {
    pattern: String,
    sense: Sense,
    // whether it is one of whole paths, and not of a path's last name
    is_whole: bool,
    // whether folders alone are of it
    is_of_folders: bool,
}

/// A list of patterns, of which the last one that fits decides.
#[derive(Drop)]
pub struct PathRules {
    rules: Vec<PathRule>,
}

/// Why a pattern is not taken.
#[derive(Clone, Copy, PartialEq, Eq)]
pub enum PatternError {
    /// Its braces stand for too many patterns.
    TooMany,
    /// There is no memory for it.
    Memory,
}

impl From<AllocError> for PatternError {
    fn from(_error: AllocError) -> PatternError {
        PatternError::Memory
    }
}

impl<T: Drop> From<AllocFailed<T>> for PatternError {
    fn from(_error: AllocFailed<T>) -> PatternError {
        PatternError::Memory
    }
}

impl PathRules {
    /// No pattern yet.
    pub fn new(alloc: Global) -> PathRules {
        PathRules {
            rules: Vec::new(alloc),
        }
    }

    /// Whether there is none.
    pub fn is_empty(&self) -> bool {
        self.rules.is_empty()
    }

    /// Whether one has no `!` in front.
    pub fn has_plain(&self) -> bool {
        self.rules.iter().any(|rule| rule.sense == Sense::Plain)
    }

    /// Adds the patterns of an ignore file, one a line; an empty line has none, nor has one that begins with `#`.
    ///
    /// Refused for want of memory alone.
    pub fn add_lines(&mut self, alloc: Global, text: &str) -> Result<(), AllocError> {
        // the patterns of the lines before this one are among the rules
        for line in text.lines() {
            let pattern = without_end(line);
            if !pattern.is_empty() && !pattern.starts_with('#') {
                self.add_plain(alloc, pattern)?;
            }
        }
        Ok(())
    }

    /// Adds a pattern in which braces stand for each of what they have: `*.{a,b}` is `*.a` and `*.b`.
    ///
    /// Refused where that would be too many, and for want of memory.
    pub fn add_with_braces(&mut self, alloc: Global, pattern: &str) -> Result<(), PatternError> {
        let mut open = Vec::new(alloc);
        open.push(String::from_str(alloc, pattern)?)?;
        // as many patterns are taken as there were turns, and the rules and those left stand for what was given
        for _ in 0..MOST_PATTERNS {
            let Some(next) = open.pop() else {
                return Ok(());
            };
            match first_braces(next.as_str()) {
                Some(braces) => push_alternatives(alloc, &mut open, next.as_str(), braces),
                None => self.add_plain(alloc, next.as_str()),
            }?;
        }
        if open.is_empty() {
            return Ok(());
        }
        Err(PatternError::TooMany)
    }

    // Adds a pattern: a `!` in front turns it, a `/` in front or within makes it one of whole paths, and one behind one
    // of folders.
    fn add_plain(&mut self, alloc: Global, pattern: &str) -> Result<(), AllocError> {
        let turned = pattern.strip_prefix('!');
        let given = turned.unwrap_or(pattern);
        let path = given.strip_suffix('/').unwrap_or(given);
        let inner = path.strip_prefix('/').unwrap_or(path);
        self.rules.push(PathRule {
            pattern: String::from_str(alloc, inner)?,
            sense: if turned.is_some() {
                Sense::Turned
            } else {
                Sense::Plain
            },
            is_whole: path.contains('/'),
            is_of_folders: given.ends_with('/'),
        })?;
        Ok(())
    }

    /// What the last pattern says that fits a path, which begins below where the patterns count from; none where no one
    /// fits. Costs each pattern's length times the path's at most.
    pub fn sense_of(&self, path: &str, is_folder: bool) -> Option<Sense> {
        let name = match path.rsplit_once('/') {
            Some((_, name)) => name,
            None => path,
        };
        let fitting = self.rules.iter().rev().find(|rule| {
            let whole = if rule.is_whole { path } else { name };
            (is_folder || !rule.is_of_folders) && is_glob_match(rule.pattern.as_str(), whole)
        });
        fitting.map(|rule| rule.sense)
    }
}

// A line of an ignore file without the spaces at its end, but for one behind a `\`.
fn without_end(line: &str) -> &str {
    let short = line.trim_end();
    if short.ends_with('\\') && short.len() < line.len() {
        line.get(..short.len().saturating_add(1)).unwrap_or(short)
    } else {
        short
    }
}

// Braces in a pattern, by their bytes: where they begin and end.
#[derive(Clone, Copy)]
struct Braces {
    open: usize,
    close: usize,
}

// The first braces that are ended, with all that stand in them.
fn first_braces(pattern: &str) -> Option<Braces> {
    let mut open: Option<usize> = None;
    let mut depth: usize = 0;
    // how deep the braces are before this byte, once one is open
    for (at, byte) in pattern.as_bytes().iter().enumerate() {
        match open {
            None if *byte == b'{' => open = Some(at),
            None => {}
            Some(open) if *byte == b'}' && depth == 0 => return Some(Braces { open, close: at }),
            Some(_) => depth = depth_behind(depth, *byte),
        }
    }
    None
}

// Adds the pattern with each of what its braces have in place of them.
fn push_alternatives(
    alloc: Global,
    patterns: &mut Vec<String>,
    pattern: &str,
    braces: Braces,
) -> Result<(), AllocError> {
    let before = pattern.get(..braces.open).unwrap_or("");
    let behind = pattern.get(braces.close.saturating_add(1)..).unwrap_or("");
    let mut start = braces.open.saturating_add(1);
    let mut depth: usize = 0;
    // the alternatives that end before this byte are there, and the next begins at `start`
    for (at, byte) in pattern.as_bytes().iter().enumerate() {
        if at <= braces.open || at > braces.close {
            continue;
        }
        let is_end = at == braces.close || (*byte == b',' && depth == 0);
        if is_end {
            let one = pattern.get(start..at).unwrap_or("");
            patterns.push(format!(in alloc; "{before}{one}{behind}")?)?;
            start = at.saturating_add(1);
        }
        depth = depth_behind(depth, *byte);
    }
    Ok(())
}

// How many braces are open behind a byte, where so many are before it.
fn depth_behind(depth: usize, byte: u8) -> usize {
    match byte {
        b'{' => depth.saturating_add(1),
        b'}' => depth.saturating_sub(1),
        _ => depth,
    }
}
