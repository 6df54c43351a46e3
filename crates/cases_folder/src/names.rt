//! Names of new files, and of files that are gone.

use crate::left::fault_of;
use cases::{Asker, Done, Fault, Listing, Memory, behind, end_refusals};
use qm_folder::{NewFile, is_clean};
use std::alloc::Global;

/// Names of new files, and of files that are gone.
#[derive(Drop)]
pub struct GivenNames {
    files: Vec<NewFile>,
    gone: Vec<String>,
}

impl GivenNames {
    /// Those of the words `names NAME .. ; NAME ..`.
    pub fn make(alloc: Global, words: &[&str]) -> Result<GivenNames, Fault> {
        let mut names = GivenNames {
            files: Vec::new(alloc),
            gone: Vec::new(alloc),
        };
        let mut is_new = true;
        // the names of the words before this one are there, new ones up to the `;` and gone ones behind it
        for word in behind(words, 1) {
            if *word == ";" {
                is_new = false;
                continue;
            }
            let name = String::from_str(alloc, word)?;
            if is_new {
                let bytes = Vec::new(alloc);
                names.files.push(NewFile { name, bytes })?;
            } else {
                names.gone.push(name)?;
            }
        }
        Ok(names)
    }
}

impl Asker for GivenNames {
    // `clean`, whether no name gets in another's way.
    fn ask(&mut self, alloc: Global, call: &str, memory: Memory, text: &mut Listing) -> Done {
        if call != "clean" {
            return Err(Fault::NotUnderstood);
        }
        memory.begin(alloc);
        let clean = is_clean(alloc, &self.files, &self.gone);
        end_refusals(alloc);
        match clean {
            Ok(clean) => Ok(text.word(if clean { "yes" } else { "no" })),
            Err(error) => Err(fault_of(error)),
        }
    }
}
