//! Rows on a schema, on options, and on the refusals.

use crate::spelled::{cut, read_number, read_text};
use cases::{Asker, Done, Fault, Listing, Memory};
use qm_schema::{Field, FieldEntry, IndexRecordOption, QueryError, Schema};
use std::alloc::{AllocError, Global};

/// Rows on a schema.
#[derive(Drop)]
pub struct SchemaRows<'s> {
    pub schema: &'s Schema,
}

impl<'s> Asker for SchemaRows<'s> {
    fn ask(&mut self, alloc: Global, call: &str, _memory: Memory, text: &mut Listing) -> Done {
        let (name, rest) = cut(call);
        match name {
            "get" => {
                let name = read_text(alloc, rest)?;
                match self.schema.get_field(name.as_str()) {
                    Some(field) => write!(text, "{}", field.field_id()),
                    None => text.word("none"),
                }
            }
            "count" => write!(text, "{}", self.schema.field_count()),
            "entry" => {
                let field = Field::from_field_id(read_number(rest)?);
                match self.schema.get_field_entry(field) {
                    Some(entry) => write_entry(entry, text),
                    None => text.word("none"),
                }
            }
            _ => return Err(Fault::NotUnderstood),
        }
        Ok(())
    }
}

// Writes the name of a field, what it keeps, and `lengths` where it keeps these.
fn write_entry(entry: &FieldEntry, text: &mut Listing) {
    let kept = entry.index_record_option();
    write!(text, "\"{}\" {}", entry.name(), kept_name(kept));
    if entry.is_indexed() != kept.is_some() {
        text.word(" by one call alone");
    }
    if entry.has_fieldnorms() {
        text.word(" lengths");
    }
}

fn kept_name(kept: Option<IndexRecordOption>) -> &'static str {
    match kept {
        None => "nothing",
        Some(IndexRecordOption::Basic) => "basic",
        Some(IndexRecordOption::WithFreqs) => "freqs",
        Some(IndexRecordOption::WithFreqsAndPositions) => "positions",
    }
}

/// Rows on an option.
#[derive(Drop)]
pub struct OptionRows {
    pub option: IndexRecordOption,
}

impl Asker for OptionRows {
    fn ask(&mut self, _alloc: Global, call: &str, _memory: Memory, text: &mut Listing) -> Done {
        let answer = match call {
            "has_freq" => self.option.has_freq(),
            "has_positions" => self.option.has_positions(),
            _ => return Err(Fault::NotUnderstood),
        };
        Ok(write!(text, "{answer}"))
    }
}

/// Rows on a refusal.
#[derive(Drop)]
pub struct ErrorRows {
    pub error: QueryError,
}

impl Asker for ErrorRows {
    fn ask(&mut self, _alloc: Global, call: &str, _memory: Memory, text: &mut Listing) -> Done {
        match call {
            "text" => write!(text, "{}", self.error),
            "number" => write!(text, "{}", self.error.number()),
            _ => {
                let Some(other) = call.strip_prefix("equals ") else {
                    return Err(Fault::NotUnderstood);
                };
                write!(text, "{}", self.error == read_error(other)?)
            }
        }
        Ok(())
    }
}

/// The refusal of this name, as it is printed.
pub fn read_error(name: &str) -> Result<QueryError, Fault> {
    match name {
        "TooFewTerms" => Ok(QueryError::TooFewTerms),
        "EmptyPrefix" => Ok(QueryError::EmptyPrefix),
        "MixedFields" => Ok(QueryError::MixedFields),
        "UnknownField" => Ok(QueryError::UnknownField),
        "NotIndexed" => Ok(QueryError::NotIndexed),
        "NoPositions" => Ok(QueryError::NoPositions),
        "TieBreaker" => Ok(QueryError::TieBreaker),
        "ScoreBound" => Ok(QueryError::ScoreBound),
        "Memory" => Ok(QueryError::Memory),
        "TooManyDocuments" => Ok(QueryError::TooManyDocuments),
        "BadDocument" => Ok(QueryError::BadDocument),
        "BadBlockLength" => Ok(QueryError::BadBlockLength),
        "BadNorms" => Ok(QueryError::BadNorms),
        "TooManySegments" => Ok(QueryError::TooManySegments),
        "AllocError" => Ok(QueryError::from(AllocError)),
        _ => read_error_of(name),
    }
}

// A refusal that holds a number, as `Provider(40)`.
fn read_error_of(spelled: &str) -> Result<QueryError, Fault> {
    let Some((name, rest)) = spelled.split_once('(') else {
        return Err(Fault::NotUnderstood);
    };
    let number = rest.strip_suffix(")").unwrap_or(rest);
    if name == "OffsetTooLarge" {
        return match number.parse() {
            Ok(offset) => Ok(QueryError::OffsetTooLarge(offset)),
            Err(_) => Err(Fault::NotUnderstood),
        };
    }
    let number = read_number(number)?;
    match name {
        "DoesNotMatch" => Ok(QueryError::DoesNotMatch(number)),
        "NoSuchSegment" => Ok(QueryError::NoSuchSegment(number)),
        "Provider" => Ok(QueryError::Provider(number)),
        _ => Err(Fault::NotUnderstood),
    }
}
