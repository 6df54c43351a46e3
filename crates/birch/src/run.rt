//! A run of the command.

use crate::answer::{answer, understand};
use crate::offered::command;
use crate::options::{Color, Options, read_options};
use crate::stats::{Stopwatch, tell_read};
use crate::stop::Stop;
use anyhow::anyhow;
use birch_index::{
    Index, Keeping, Reading, Trouble, Use, after_trouble, forget_kept, kept_index, read_all,
    variable,
};
use birch_text::{Cleaned, EscapedJson, QueryTree};
use serde_json::{Value, json};
use std::alloc::{AllocError, Global};
use std::io::{BufRead, BufReader, BufWriter, IsTerminal, Write};
use std::{fs, io};

/// The exit status where nothing was found.
const NOTHING_FOUND: u8 = 1;

/// The exit status after an error.
pub const FAILED: u8 = 2;

/// How many bytes are many to be read at each run.
const MANY_BYTES: u64 = 20_000_000;

/// How often an index that is kept is made anew in one answer.
const MOST_MENDED: u32 = 2;

/// Reads the command line, the files and the queries, answers these, and gives the exit status.
pub fn run(rt: &HostRuntime) -> Result<u8, Stop> {
    let alloc = rt.alloc();
    let words = words_of_command(rt)?;
    let matches = match command(alloc)?.try_get_matches_from(words.as_slice()) {
        Ok(matches) => matches,
        Err(error) => {
            error.print(rt)?;
            return Ok(u8::try_from(error.exit_code()).unwrap_or(FAILED));
        }
    };
    let options = read_options(alloc, &matches)?;
    search(rt, &options)
}

// The words of the command line.
fn words_of_command(rt: &HostRuntime) -> Result<Vec<String>, Stop> {
    match std::env::args(rt) {
        Ok(words) => Ok(words.collect(rt.alloc())?),
        Err(error) if error.kind() == io::ErrorKind::InvalidData => {
            let what = anyhow!("a word of the command line is no UTF-8");
            Err(Stop::Failed(what))
        }
        Err(error) => Err(Stop::from(error)),
    }
}

// Does what is asked for, and gives the exit status: an error where a path of the command line couldn't be read.
fn search(rt: &HostRuntime, options: &Options<'_>) -> Result<u8, Stop> {
    let status = match options.reading.keeping {
        Keeping::Forget => forget(rt, options)?,
        Keeping::Make if options.queries.is_none() => keep(rt, options)?,
        _ => answer_all(rt, options)?,
    };
    Ok(if options.reading.notes.has_failed() {
        FAILED
    } else {
        status
    })
}

// Removes the index that is kept.
fn forget(rt: &HostRuntime, options: &Options<'_>) -> Result<u8, Stop> {
    if forget_kept(rt, &options.reading)? {
        Ok(0)
    } else {
        let _ = eprintln!(rt; "birch: no index is kept of these paths");
        Ok(NOTHING_FOUND)
    }
}

// Makes an index, or brings it up to date.
fn keep(rt: &HostRuntime, options: &Options<'_>) -> Result<u8, Stop> {
    let watch = Stopwatch::start(rt)?;
    match kept_index(rt, &options.reading)? {
        Use::Kept(index) => {
            options.reading.notes.tell(rt);
            if options.has_stats {
                tell_read(rt, &index, watch)?;
            }
            Ok(0)
        }
        Use::NotThere | Use::Refused => Ok(FAILED),
    }
}

// Reads the query of the command line, where there is one, then the files, or the index that is kept of them, and
// answers the queries.
fn answer_all(rt: &HostRuntime, options: &Options<'_>) -> Result<u8, Stop> {
    let first = match options.query {
        None => None,
        Some(query) => match understand(rt, options, query)? {
            Some(tree) => Some(tree),
            None => return Ok(FAILED),
        },
    };
    let watch = Stopwatch::start(rt)?;
    let index = index_of(rt, &options.reading)?;
    options.reading.notes.tell(rt);
    if options.has_stats {
        tell_read(rt, &index, watch)?;
    }
    let out = BufWriter::new(rt.alloc(), io::writer(rt))?;
    let is_coloured = is_coloured(rt, options.color)?;
    let mut session = Session {
        rt,
        options,
        index,
        is_coloured,
        out,
    };
    session.answer_all(first)
}

// The index of what is searched: the one that is kept, where there is one, and else one of all files, read now.
fn index_of(rt: &HostRuntime, reading: &Reading<'_>) -> Result<Index, Stop> {
    if reading.keeping == Keeping::Never {
        return Ok(read_all(rt, reading)?);
    }
    match kept_index(rt, reading)? {
        Use::Kept(index) => Ok(index),
        Use::Refused => Ok(read_all(rt, reading)?),
        Use::NotThere => {
            let index = read_all(rt, reading)?;
            hint(rt, index.tally.bytes);
            Ok(index)
        }
    }
}

// Tells that an index may be kept, where many bytes were read.
fn hint(rt: &HostRuntime, bytes: u64) {
    if bytes > MANY_BYTES {
        let megabytes = bytes / 1_000_000;
        let _ = eprintln!(rt;
            "birch: {megabytes} MB read; with --index an index is kept, and what changes alone is read"
        );
    }
}

// Whether found words are coloured: where nothing else is said, on a terminal, unless NO_COLOR says otherwise.
fn is_coloured(rt: &HostRuntime, color: Color) -> Result<bool, AllocError> {
    match color {
        Color::Always => Ok(true),
        Color::Never => Ok(false),
        Color::Auto => Ok(rt.stdout().is_terminal() && variable(rt, "NO_COLOR")?.is_none()),
    }
}

// Queries of one index, and where they are answered.
#[derive(Drop)]
struct Session<'a, 'o, W: Write + Drop> {
    rt: &'a HostRuntime,
    options: &'a Options<'o>,
    index: Index,
    is_coloured: bool,
    out: BufWriter<W>,
}

impl<'a, 'o, W: Write + Drop> Session<'a, 'o, W> {
    // Answers the query of the command line, or those that are read, and gives the exit status.
    fn answer_all(&mut self, first: Option<QueryTree>) -> Result<u8, Stop> {
        if let Some(tree) = first {
            let found = self.answer(&tree)?;
            self.out.flush()?;
            return Ok(status_of(Some(found)));
        }
        match self.options.queries {
            None => Ok(NOTHING_FOUND),
            Some("-") => {
                let mut input = BufReader::new(self.rt.alloc(), self.rt.stdin())?;
                self.answer_lines(&mut input)
            }
            Some(path) => {
                let file = fs::open(self.rt, path)?;
                let mut input = BufReader::new(self.rt.alloc(), file)?;
                self.answer_lines(&mut input)
            }
        }
    }

    // Answers one query, and gives how many results there are; none where it isn't understood.
    fn find(&mut self, query: &str) -> Result<Option<usize>, Stop> {
        match understand(self.rt, self.options, query)? {
            Some(tree) => Ok(Some(self.answer(&tree)?)),
            None => Ok(None),
        }
    }

    // Answers one query, and gives how many results there are. Where the index that is kept turns out to be damaged,
    // another takes its place, at last one of all files, read now.
    fn answer(&mut self, tree: &QueryTree) -> Result<usize, Stop> {
        // each turn so far met an index that was replaced or damaged, and mended that
        for _ in 0..MOST_MENDED {
            match self.answer_once(tree) {
                Err(Stop::Kept(trouble)) => self.mend(trouble)?,
                found => return found,
            }
        }
        self.index = read_all(self.rt, &self.options.reading)?;
        self.answer_once(tree)
    }

    // Has another index take the place of the one that is kept.
    fn mend(&mut self, trouble: Trouble) -> Result<(), Stop> {
        self.index = match after_trouble(self.rt, &self.options.reading, trouble)? {
            Use::Kept(index) => index,
            Use::NotThere | Use::Refused => read_all(self.rt, &self.options.reading)?,
        };
        Ok(())
    }

    fn answer_once(&mut self, tree: &QueryTree) -> Result<usize, Stop> {
        let Session {
            rt,
            options,
            index,
            is_coloured,
            out,
        } = self;
        answer(rt, options, index, tree, *is_coloured, out)
    }

    // Answers each line before the next one is waited for. The status is that of an error where there
    // was one, else that of the best answer.
    fn answer_lines<R: BufRead>(&mut self, input: &mut R) -> Result<u8, Stop> {
        let mut line = Vec::new(self.rt.alloc());
        let mut status = NOTHING_FOUND;
        // the lines before this one are answered, and their statuses joined
        for _ in 0..u64::MAX {
            line.clear();
            if input.read_until(b'\n', &mut line)? == 0 {
                break;
            }
            status = joined(status, self.answer_line(line.as_slice())?);
        }
        Ok(status)
    }

    // Answers one line, and shows where the answer ends: in lines for people it has the query above it and
    // an empty line below, and of JSON a line below with the query and how many results there are.
    fn answer_line(&mut self, line: &[u8]) -> Result<u8, Stop> {
        let text = String::from_utf8_lossy(self.rt.alloc(), line)?;
        let query = text.as_str().trim();
        let Options {
            is_json,
            is_count,
            ..
        } = *self.options;
        if !is_json && !is_count {
            let query = Cleaned(query);
            writeln!(self.out, "== {query}")?;
        }
        let found = if str::from_utf8(line).is_ok() {
            self.find_line(query)?
        } else {
            let _ = eprintln!(self.rt; "birch: a query is no UTF-8");
            None
        };
        if is_json {
            let end = json_end(self.rt.alloc(), query, found)?;
            let end = EscapedJson(end.as_str());
            writeln!(self.out, "{end}")?;
        } else if !is_count || found.is_none() {
            writeln!(self.out)?;
        }
        self.out.flush()?;
        Ok(status_of(found))
    }

    // Answers the query of a line, and gives how many results there are; an empty one has none.
    fn find_line(&mut self, query: &str) -> Result<Option<usize>, Stop> {
        if !query.is_empty() {
            return self.find(query);
        }
        if self.options.is_count {
            writeln!(self.out, "0")?;
        }
        Ok(Some(0))
    }
}

// The line of JSON that ends an answer.
fn json_end(alloc: Global, query: &str, found: Option<usize>) -> Result<String, AllocError> {
    let found = match found {
        Some(found) => json!(in alloc; found)?,
        None => Value::Null,
    };
    json!(in alloc; {"query": query, "results": found})?.to_string(alloc)
}

// The exit status of a query with so many results, or none where it isn't understood.
fn status_of(found: Option<usize>) -> u8 {
    match found {
        None => FAILED,
        Some(0) => NOTHING_FOUND,
        Some(_) => 0,
    }
}

// The status of two answers.
fn joined(first: u8, second: u8) -> u8 {
    if first == FAILED || second == FAILED {
        FAILED
    } else {
        first.min(second)
    }
}
