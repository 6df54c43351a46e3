//! The fields of `given`.

ghost use Rattle.std.specs.Prelude.{◌≡◌, ◌<◌, ◌+◌, OnOk, length};

use crate::given::first_word;
use cases::{Done, Fault, Row, word, words_of};
use qm_schema::{IndexRecordOption, Schema, SchemaBuilder};
use std::alloc::Global;

// how many fields there may be
const MOST_FIELDS: u32 = 1000;

/// The fields of rows `field NAME KEEPS lengths`; without any there is one, `body`, with positions and
/// lengths.
pub fn read_schema(alloc: Global, rows: &[Row<'_>]) -> Result<Schema, Fault> {
    let mut schema = Schema::builder(alloc);
    let mut count: u32 = 0;
    // so many fields were added
    for row in rows {
        if first_word(row.call) == "field" {
            if count >= MOST_FIELDS {
                return Err(Fault::NotUnderstood);
            }
            let words = words_of(alloc, row.call)?;
            add_field(&mut schema, words.as_slice())?;
            count += 1;
        }
    }
    if count == 0 {
        add_field(&mut schema, &["field", "body", "positions", "lengths"])?;
    }
    Ok(schema.build())
}

fn add_field(schema: &mut SchemaBuilder, words: &[&str]) -> Done
    requires room { length schema.old < u32.MAX }
    ensures added { OnOk result (length schema.new ≡ length schema.old + 1) }
{
    let keeps = match word(words, 2) {
        "nothing" => None,
        "basic" => Some(IndexRecordOption::Basic),
        "freqs" => Some(IndexRecordOption::WithFreqs),
        "positions" => Some(IndexRecordOption::WithFreqsAndPositions),
        _ => return Err(Fault::NotUnderstood),
    };
    let has_lengths = word(words, 3) == "lengths";
    schema.add_text_field(word(words, 1), keeps, has_lengths)?;
    Ok(())
}
