//! Trees as rows show them.

use crate::spelled::show_text;
use cases::Listing;
use qm_parser::{ParsedLeaf, ParsedQuery, Refusal, RefusalKind, Sign};

/// Writes a tree: `word 'a'`, `prefix 'a'`, `phrase 2 'a b'`, `phrase prefix 'a b'`, `all`, `empty`, `field 'name' Q`,
/// `boost 2 Q`, and `( + Q ? Q - Q )` for clauses.
pub fn show_tree(tree: &ParsedQuery, text: &mut Listing) {
    match tree {
        ParsedQuery::Empty => text.word("empty"),
        ParsedQuery::Leaf(leaf) => show_leaf(leaf, text),
        ParsedQuery::Field(name, inner) => {
            text.word("field ");
            show_text(name.as_str(), text);
            text.word(" ");
            show_tree(inner, text);
        }
        ParsedQuery::Boost(boost, inner) => {
            write!(text, "boost {boost} ");
            show_tree(inner, text);
        }
        ParsedQuery::Boolean(clauses) => {
            text.word("(");
            // the clauses before this one are written, each behind its sign
            for (sign, clause) in clauses {
                text.word(shown_sign(*sign));
                show_tree(clause, text);
            }
            text.word(" )");
        }
    }
}

fn show_leaf(leaf: &ParsedLeaf, text: &mut Listing) {
    match leaf {
        ParsedLeaf::All => text.word("all"),
        ParsedLeaf::Word(word) => {
            text.word("word ");
            show_text(word.as_str(), text);
        }
        ParsedLeaf::Prefix(word) => {
            text.word("prefix ");
            show_text(word.as_str(), text);
        }
        ParsedLeaf::Phrase { text: words, slop } => {
            write!(text, "phrase {slop} ");
            show_text(words.as_str(), text);
        }
        ParsedLeaf::PhrasePrefix(words) => {
            text.word("phrase prefix ");
            show_text(words.as_str(), text);
        }
    }
}

fn shown_sign(sign: Sign) -> &'static str {
    match sign {
        Sign::Must => " + ",
        Sign::Should => " ? ",
        Sign::MustNot => " - ",
    }
}

/// Writes how a tree begins, where it is large: how many clauses it has, or what it is.
pub fn show_size(tree: &ParsedQuery, text: &mut Listing) {
    match tree {
        ParsedQuery::Boolean(clauses) => write!(text, "{} clauses", clauses.len()),
        ParsedQuery::Leaf(ParsedLeaf::Word(word)) => write!(text, "word of {}", word.len()),
        ParsedQuery::Leaf(ParsedLeaf::Phrase { text: words, .. }) => {
            write!(text, "phrase of {}", words.len());
        }
        _ => text.word("other"),
    }
}

/// Writes `refused KIND at N`.
pub fn show_refusal(refusal: Refusal, text: &mut Listing) {
    write!(
        text,
        "refused {} at {}",
        shown_kind(refusal.kind),
        refusal.at
    );
}

fn shown_kind(kind: RefusalKind) -> &'static str {
    match kind {
        RefusalKind::StrayEscape => "StrayEscape",
        RefusalKind::OpenQuote => "OpenQuote",
        RefusalKind::OpenParenthesis => "OpenParenthesis",
        RefusalKind::StrayParenthesis => "StrayParenthesis",
        RefusalKind::TooDeep => "TooDeep",
        RefusalKind::Wildcard => "Wildcard",
        RefusalKind::Fuzzy => "Fuzzy",
        RefusalKind::SlopWithoutNumber => "SlopWithoutNumber",
        RefusalKind::SlopTooGreat => "SlopTooGreat",
        RefusalKind::StrayBoost => "StrayBoost",
        RefusalKind::BoostWithoutNumber => "BoostWithoutNumber",
        RefusalKind::BoostNotWhole => "BoostNotWhole",
        RefusalKind::BoostTooGreat => "BoostTooGreat",
        RefusalKind::FieldWithoutName => "FieldWithoutName",
        RefusalKind::FieldWithoutValue => "FieldWithoutValue",
        RefusalKind::AnyValue => "AnyValue",
        RefusalKind::SignWithoutClause => "SignWithoutClause",
        RefusalKind::OperatorWithoutSide => "OperatorWithoutSide",
        RefusalKind::Range => "Range",
        RefusalKind::Set => "Set",
        RefusalKind::Regex => "Regex",
        RefusalKind::Touching => "Touching",
    }
}
