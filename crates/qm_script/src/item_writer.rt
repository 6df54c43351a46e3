//! A text to which documents are added, one after another.

ghost use Rattle.std.specs.Prelude.{◌≡◌, ◌≤◌, ℕ, ℤ, ◌∷◌, [], IsAscii, IsOkUnless, List, None, Option, Some, length, string_bytes};
ghost use Rattle.qm_script.specs.Backwards.{room_in, written_in};
ghost use Rattle.qm_script.specs.Text.{IsListing, score_text};

use crate::decimal::Backwards;
use qm_docset::Score;
use qm_schema::QueryError;
use std::alloc::{AllocError, Global};

/// A text to which documents are added, joined by one space.
///
/// It is bytes from the first document to the last, since a text is asked of each piece whether it is UTF-8.
#[derive(Drop)]
pub(crate) struct ItemWriter {
    bytes: Vec<u8>,
    // whether some document was written
    is_begun: bool,
    ghost ascii: { IsAscii bytes.items },
}

impl ItemWriter {
    ghost use Rattle.qm_script.specs.Written.{AddsToListing, HasListed};

    /// Takes an empty text, to write to it. It comes back by [`finish`](ItemWriter::finish).
    pub(crate) fn new(alloc: Global, text: &mut String) -> ItemWriter
        requires { length (string_bytes text.old) ≡ 0 }
        ensures { HasListed [] result }
    {
        ItemWriter {
            bytes: std::mem::replace(text, String::new(alloc)).into_bytes(),
            is_begun: false,
        }
    }

    /// Gives the text back, with room behind it for the end of its line.
    pub(crate) fn finish(self, text: &mut String) -> Result<(), QueryError>
        ensures listed { (items : List (ℕ × Option ℤ)) → HasListed items self → IsListing items (string_bytes text.new) }
        ensures refused { IsOkUnless result QueryError.Memory }
    {
        match String::from_utf8(self.bytes) {
            Ok(listed) => *text = listed,
            Err(_) => unreachable!(),
        }
        reserve_line_end(text)
    }

    /// Writes a document's number.
    pub(crate) fn write_document(&mut self, document: u64) -> Result<(), AllocError>
        ensures { AddsToListing result ((document, None) ∷ []) self.old self.new }
    {
        self.write_before(document, Backwards::new())
    }

    /// The same with its score, behind a colon.
    pub(crate) fn write_score(&mut self, document: u64, score: Score) -> Result<(), AllocError>
        ensures { AddsToListing result ((document, Some score) ∷ []) self.old self.new }
    {
        let mut behind = Backwards::new();
        behind.put_number(score.unsigned_abs());
        if score < 0 {
            behind.put_byte(b'-');
        }
        behind.put_byte(b':');
        self.write_before(document, behind)
    }

    // Writes a document's number before the text of its score, which is none where no score is wanted.
    fn write_before(&mut self, document: u64, behind: Backwards) -> Result<(), AllocError>
        requires room { 21 ≤ room_in behind }
        requires ascii { IsAscii (written_in behind) }
        ensures { (score : Option ℤ) → written_in behind ≡ score_text score → AddsToListing result ((document, score) ∷ []) self.old self.new }
    {
        let mut item = behind;
        item.put_number(document);
        if self.is_begun {
            item.put_byte(b' ');
        }
        self.bytes.extend_from_slice(item.written())?;
        self.is_begun = true;
        Ok(())
    }
}

/// Has room behind a text for the end of its line, so that an answer which is written finds memory for
/// its line too, or is refused as a whole.
pub(crate) fn reserve_line_end(text: &mut String) -> Result<(), QueryError>
    ensures text { string_bytes text.new ≡ string_bytes text.old }
    ensures refused { IsOkUnless result QueryError.Memory }
{
    text.reserve(1)?;
    Ok(())
}
