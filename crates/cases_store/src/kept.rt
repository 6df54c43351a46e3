//! What the fields of a case keep.

ghost use Rattle.std.specs.Prelude.{◌≤◌, length};

use cases::{Done, Fault};
use qm_schema::{IndexRecordOption, Schema, SchemaBuilder};
use std::alloc::Global;

const MOST_FIELDS: u32 = 1000;

/// The schema of fields that a word tells of, with `,` between two: of each what its postings keep (`none` where it has
/// none), with `+lengths` behind it where it keeps lengths. `-` are no fields.
pub fn read_schema(alloc: Global, spelled: &str) -> Result<Schema, Fault> {
    let mut maker = SchemaMaker::new(alloc);
    // fields are added as long as there are parts
    if spelled != "-" {
        // the schema has the fields of the parts before this one
        for part in spelled.split(',') {
            maker.add(alloc, part)?;
        }
    }
    Ok(maker.builder.build())
}

/// The schema of fields that words tell of, each by `NAME:KEPT`, with a name that may be empty.
pub fn read_named_schema(alloc: Global, words: &[&str]) -> Result<Schema, Fault> {
    let mut maker = SchemaMaker::new(alloc);
    // fields are added as long as there are words
    for word in words {
        let Some((name, kept)) = word.split_once(':') else {
            return Err(Fault::NotUnderstood);
        };
        maker.add_named(name, kept)?;
    }
    Ok(maker.builder.build())
}

/// Makes a schema, field by field.
#[derive(Drop)]
struct SchemaMaker {
    builder: SchemaBuilder,
    count: u32,
    ghost counted: { length builder ≤ count },
}

impl SchemaMaker {
    fn new(alloc: Global) -> SchemaMaker {
        SchemaMaker {
            builder: Schema::builder(alloc),
            count: 0,
        }
    }

    // Adds a field, which is named by its number.
    fn add(&mut self, alloc: Global, spelled: &str) -> Done {
        let name = format!(in alloc; "{}", self.count)?;
        self.add_named(name.as_str(), spelled)
    }

    // Adds a field of a name.
    fn add_named(&mut self, name: &str, spelled: &str) -> Done {
        let (kept, has_lengths) = match spelled.strip_suffix("+lengths") {
            Some(kept) => (kept, true),
            None => (spelled, false),
        };
        let kept = read_kept(kept)?;
        if self.count >= MOST_FIELDS {
            return Err(Fault::NotAllowed);
        }
        let added = self.builder.add_text_field(name, kept, has_lengths);
        self.count += 1;
        match added {
            Ok(_) => Ok(()),
            Err(error) => Err(Fault::Refused(error)),
        }
    }
}

// What a field's postings keep; none where it has none.
fn read_kept(word: &str) -> Result<Option<IndexRecordOption>, Fault> {
    match word {
        "none" => Ok(None),
        "basic" => Ok(Some(IndexRecordOption::Basic)),
        "freqs" => Ok(Some(IndexRecordOption::WithFreqs)),
        "positions" => Ok(Some(IndexRecordOption::WithFreqsAndPositions)),
        _ => Err(Fault::NotUnderstood),
    }
}
