//! Kinds of files, by the ends of their names.

/// The words for the kinds of files, as an option takes them.
pub const FILE_TYPES: [&str; 26] = [
    "c", "cpp", "css", "csv", "go", "html", "java", "js", "json", "log", "lua", "md", "org", "php",
    "py", "rb", "rst", "rust", "sh", "sql", "tex", "toml", "ts", "txt", "xml", "yaml",
];

// The ends of the names of each kind.
const ENDS: [(&str, &[&str]); 26] = [
    ("c", &["c", "h"]),
    ("cpp", &["cc", "cpp", "cxx", "h", "hh", "hpp", "hxx"]),
    ("css", &["css"]),
    ("csv", &["csv", "tsv"]),
    ("go", &["go"]),
    ("html", &["htm", "html"]),
    ("java", &["java"]),
    ("js", &["cjs", "js", "jsx", "mjs"]),
    ("json", &["json", "jsonl"]),
    ("log", &["log"]),
    ("lua", &["lua"]),
    ("md", &["markdown", "md", "mdown"]),
    ("org", &["org"]),
    ("php", &["php"]),
    ("py", &["py", "pyi"]),
    ("rb", &["rb"]),
    ("rst", &["rest", "rst"]),
    ("rust", &["rs"]),
    ("sh", &["bash", "sh", "zsh"]),
    ("sql", &["sql"]),
    ("tex", &["sty", "tex"]),
    ("toml", &["toml"]),
    ("ts", &["ts", "tsx"]),
    ("txt", &["text", "txt"]),
    ("xml", &["xml", "xsl"]),
    ("yaml", &["yaml", "yml"]),
];

/// Whether a file of this own name is of a kind; case doesn't count in its end.
pub fn is_of_type(kind: &str, name: &str) -> bool {
    let Some((_, end)) = name.rsplit_once('.') else {
        return false;
    };
    let known = ENDS.iter().find(|(word, _)| *word == kind);
    known.is_some_and(|(_, ends)| ends.iter().any(|it| it.eq_ignore_ascii_case(end)))
}
