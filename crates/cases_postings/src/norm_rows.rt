//! Rows on length ids.

use crate::spelled::{cut, read_number};
use cases::{Asker, Done, Fault, Listing, Memory, number, word};
use qm_postings::FieldNormReader;
use std::alloc::Global;

/// Rows on one length id for all documents.
#[derive(Drop)]
pub struct NormRows {
    ids: FieldNormReader<'static>,
}

impl NormRows {
    /// The length ids that the words `DOCUMENTS ID` spell.
    pub fn read(words: &[&str]) -> Result<NormRows, Fault> {
        let (Some(num_docs), Ok(id)) = (number(words, 0), word(words, 1).parse()) else {
            return Err(Fault::NotUnderstood);
        };
        let ids = FieldNormReader::constant(num_docs, id);
        Ok(NormRows { ids })
    }
}

impl Asker for NormRows {
    fn ask(&mut self, _alloc: Global, call: &str, _memory: Memory, text: &mut Listing) -> Done {
        let (name, rest) = cut(call);
        match name {
            "num_docs" => Ok(write!(text, "{}", self.ids.num_docs())),
            "is_constant" => Ok(write!(text, "{}", self.ids.is_constant())),
            "id" => {
                let doc = read_number(rest)?;
                if doc >= self.ids.num_docs() {
                    return Err(Fault::NotAllowed);
                }
                Ok(write!(text, "{}", self.ids.fieldnorm_id(doc)))
            }
            _ => Err(Fault::NotUnderstood),
        }
    }
}
