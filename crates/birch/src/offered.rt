//! The options of the command, in the order in which its help has them.

use birch_text::FILE_TYPES;
use clap::builder::ValueParser;
use clap::{Arg, ArgAction, Command};
use std::alloc::{AllocError, Global};

/// The version of the program, the first one of CHANGELOG.md.
const VERSION: &str = "0.1.0";

/// How many results are listed unless it is said.
const DEFAULT_LIMIT: &str = "10";

/// How many bytes a file may have unless it is said.
pub const DEFAULT_SIZE: &str = "64M";

/// The words for when found words are coloured.
const COLORS: [&str; 3] = ["never", "auto", "always"];

const HELP: &str = "\
A query is words, and for each: +must be there, -must not, \"a phrase\", \"a phrase\"~2 whose words stand up
to 2 places apart, begin* for words that begin so, word^3 for three times the weight, name:word for a word of
the file's own name, or with --csv-fields and --json-fields of the field with that name; joined by AND, OR, NOT
and parentheses. A \\ makes a letter of a sign.
Status: 0 if something was found, 1 if nothing was, 2 after an error.";

/// An option of the command, in clap's words.
#[derive(Clone, Copy)]
struct Offered {
    /// Its name behind two hyphens.
    name: &'static str,
    /// Its letter behind one hyphen.
    letter: Option<char>,
    /// What happens where it is said.
    action: ArgAction,
    /// What help calls its value, where it has one.
    value: &'static [&'static str],
    /// What its value has to be.
    parser: ValueParser<'static>,
    /// The value where it isn't said, if it then has one.
    default: &'static [&'static str],
    /// The options that can't be said with it; a pair stands at one of the two.
    excludes: &'static [&'static str],
    /// What it does, in one line.
    help: &'static str,
}

/// An option with no value.
const FLAG: Offered = Offered {
    name: "",
    letter: None,
    action: ArgAction::SetTrue,
    value: &[],
    parser: ValueParser::Bool,
    default: &[],
    excludes: &[],
    help: "",
};

/// An option whose value is any text.
const TEXT: Offered = Offered {
    action: ArgAction::Set,
    parser: ValueParser::String,
    ..FLAG
};

/// An option whose value is a number of 32 bits.
const NUMBER: Offered = Offered {
    action: ArgAction::Set,
    parser: ValueParser::Signed(0, 4294967295),
    ..FLAG
};

/// All options; help has them in this order. They are no constant, since the proof of `command` would go through that
/// for a minute.
static OPTIONS: [Offered; 28] = [
    Offered {
        name: "lines",
        excludes: &["csv", "json-key"],
        help: "A document is a line, and not a paragraph",
        ..FLAG
    },
    Offered {
        name: "csv",
        value: &["COLUMN"],
        excludes: &["json-key"],
        help: "A document is that column of a row of a CSV file",
        ..TEXT
    },
    Offered {
        name: "json-key",
        value: &["KEY"],
        help: "A document is the text under that key of a line of JSON",
        ..TEXT
    },
    Offered {
        name: "csv-fields",
        excludes: &["lines", "csv", "json-key"],
        help: "A document is a row of a CSV file, and title:fox asks its column title",
        ..FLAG
    },
    Offered {
        name: "json-fields",
        excludes: &["lines", "csv", "json-key", "csv-fields"],
        help: "A document is a line of JSON, and meta.title:fox asks title in meta",
        ..FLAG
    },
    Offered {
        name: "accents",
        help: "Has accents count, so that cafe finds no café",
        ..FLAG
    },
    Offered {
        name: "hidden",
        help: "Reads names that begin with a dot too, and what ignore files name",
        ..FLAG
    },
    Offered {
        name: "no-ignore",
        help: "Reads what .gitignore and .ignore name too",
        ..FLAG
    },
    Offered {
        name: "glob",
        action: ArgAction::Append,
        value: &["PATTERN"],
        help: "Reads only what fits, as *.md or doc/**, or with ! in front what doesn't; may be repeated",
        ..TEXT
    },
    Offered {
        name: "type",
        letter: Some('t'),
        action: ArgAction::Append,
        value: &["TYPE"],
        parser: ValueParser::Names(&FILE_TYPES),
        help: "Reads only files of a kind, as md or py; may be repeated",
        ..TEXT
    },
    Offered {
        name: "max-size",
        value: &["BYTES"],
        default: &[DEFAULT_SIZE],
        help: "Leaves out larger files; 10K, 10M and 1G are understood",
        ..TEXT
    },
    Offered {
        name: "notes",
        help: "Lists on standard error what is left out, and why",
        ..FLAG
    },
    Offered {
        name: "progress",
        help: "Tells on standard error how far the reading is",
        ..FLAG
    },
    Offered {
        name: "index",
        excludes: &["stale", "no-index", "forget"],
        help: "Keeps an index of the paths, or brings it up to date",
        ..FLAG
    },
    Offered {
        name: "stale",
        excludes: &["no-index", "forget"],
        help: "Answers by the index as it stands, and looks at no file",
        ..FLAG
    },
    Offered {
        name: "no-index",
        excludes: &["forget"],
        help: "Reads all files, also where an index is kept",
        ..FLAG
    },
    Offered {
        name: "forget",
        excludes: &["queries"],
        help: "Removes the index of the paths",
        ..FLAG
    },
    Offered {
        name: "index-dir",
        value: &["FOLDER"],
        help: "Keeps indexes there, and not in the user's cache",
        ..TEXT
    },
    Offered {
        name: "limit",
        letter: Some('k'),
        value: &["K"],
        default: &[DEFAULT_LIMIT],
        help: "Lists at most so many results",
        ..NUMBER
    },
    Offered {
        name: "skip",
        value: &["N"],
        excludes: &["explain"],
        help: "Leaves out the first N results, as if they stood on pages before",
        ..NUMBER
    },
    Offered {
        name: "files",
        excludes: &["repeats"],
        help: "Lists each file once, by the best that stands in it",
        ..FLAG
    },
    Offered {
        name: "repeats",
        help: "Lists each document, also where several have the same text",
        ..FLAG
    },
    Offered {
        name: "count",
        letter: Some('c'),
        help: "Prints how many documents match, and lists none",
        ..FLAG
    },
    Offered {
        name: "json",
        help: "Prints each result as a line of JSON",
        ..FLAG
    },
    Offered {
        name: "explain",
        value: &["N"],
        excludes: &["count"],
        help: "Prints the N-th result alone, and why it scores what it does",
        ..NUMBER
    },
    Offered {
        name: "stats",
        help: "Tells on standard error what was read and scored, and how long it took",
        ..FLAG
    },
    Offered {
        name: "queries",
        value: &["FILE"],
        help: "Answers each line of a file, or of - for standard input",
        ..TEXT
    },
    Offered {
        name: "color",
        value: &["WHEN"],
        parser: ValueParser::Names(&COLORS),
        default: &["auto"],
        help: "Colours found words: never, auto or always",
        ..TEXT
    },
];

/// The command with its arguments.
pub fn command<'a>(alloc: Global) -> Result<Command<'a>, AllocError> {
    let mut command = Command::new(alloc, "birch")
        .version(VERSION)
        .about("Searches text files, and lists the best paragraphs, lines or rows")
        .override_usage(
            "birch [OPTIONS] QUERY [PATH..]\n       birch [OPTIONS] --queries FILE [PATH..]\n       birch [OPTIONS] --index [PATH..]\n       birch [OPTIONS] --forget [PATH..]",
        )
        .after_help(HELP)
        .arg(Arg::new(alloc, "QUERY").help(
            "What is searched for, in one word of the command line",
        ))?
        .arg(
            Arg::new(alloc, "PATH")
                .num_args(0..)
                .action(ArgAction::Append)
                .help("Files and folders; - is standard input [default: .]"),
        )?;
    // the command has the options before this one
    for offered in &OPTIONS {
        command = with_option(alloc, command, offered)?;
    }
    Ok(command)
}

// The command with one option more.
fn with_option<'a>(
    alloc: Global,
    command: Command<'a>,
    offered: &Offered,
) -> Result<Command<'a>, AllocError> {
    let arg = Arg::new(alloc, offered.name)
        .long(offered.name)
        .action(offered.action)
        .value_names(offered.value)
        .value_parser(offered.parser)
        .default_values(offered.default)
        .help(offered.help)
        .conflicts_with_all(offered.excludes)?;
    command.arg(match offered.letter {
        Some(letter) => arg.short(letter),
        None => arg,
    })
}
