//! Rows on maps whose keys are fields, occurrences and options.

use crate::spelled::{read_number, read_option};
use cases::{Asker, Done, Fault, Listing, Memory, word, words_of};
use qm_schema::{Field, IndexRecordOption, Occur};
use std::alloc::Global;
use std::collections::HashMap;

/// A map from fields, and one from pairs of an occurrence and an option.
#[derive(Drop)]
pub struct KeyRows {
    fields: HashMap<Field, Occur>,
    pairs: HashMap<(Occur, IndexRecordOption), u32>,
}

impl KeyRows {
    pub fn new(alloc: Global) -> KeyRows {
        KeyRows {
            fields: HashMap::new(alloc),
            pairs: HashMap::new(alloc),
        }
    }
}

impl Asker for KeyRows {
    fn ask(&mut self, alloc: Global, call: &str, _memory: Memory, text: &mut Listing) -> Done {
        let words = words_of(alloc, call)?;
        let (first, second, third) = (word(&words, 1), word(&words, 2), word(&words, 3));
        match word(&words, 0) {
            "insert_field" => {
                let field = Field::from_field_id(read_number(first)?);
                self.fields.insert(field, read_occur(second)?)?;
            }
            "field" => {
                let field = Field::from_field_id(read_number(first)?);
                text.word(occur_name(self.fields.get(&field).copied()));
            }
            "insert_pair" => {
                let pair = (read_occur(first)?, read_option(second)?);
                self.pairs.insert(pair, read_number(third)?)?;
            }
            "pair" => {
                let pair = (read_occur(first)?, read_option(second)?);
                match self.pairs.get(&pair) {
                    Some(number) => write!(text, "{number}"),
                    None => text.word("none"),
                }
            }
            _ => return Err(Fault::NotUnderstood),
        }
        Ok(())
    }
}

fn read_occur(name: &str) -> Result<Occur, Fault> {
    match name {
        "should" => Ok(Occur::Should),
        "must" => Ok(Occur::Must),
        "must_not" => Ok(Occur::MustNot),
        _ => Err(Fault::NotUnderstood),
    }
}

fn occur_name(occur: Option<Occur>) -> &'static str {
    match occur {
        None => "none",
        Some(Occur::Should) => "should",
        Some(Occur::Must) => "must",
        Some(Occur::MustNot) => "must_not",
    }
}
