//! Documents that are added and deleted.
//!
//! Words come as their bytes and where each ends, two plain slices. A row of pointers would need a condition on memory
//! for each word.

ghost use Rattle.std.specs.Prelude.{◌≡◌, ◌↔◌, IfErr, IfOk, IsErrOf, IsUtf8, OnErr, OnOk, length, map, string_bytes};
ghost use Rattle.qm_index.specs.Indexed.{indexed, statistics, with_document_of};
ghost use Rattle.qm_postings.specs.Document.{words_of};
ghost use Rattle.birchagain.specs.Adding.{IsAddRefusal, spaced};
ghost use Rattle.birchagain.specs.Body.{text_draft, words_draft};
ghost use Rattle.birchagain.specs.Changes.{IsDeleted, IsSame};
ghost use Rattle.birchagain.specs.CutWords.{AreWords, words_from};
ghost use Rattle.birchagain.specs.Refusals.{IsDeleteRefusal};

use crate::body::{body, text_of};
use crate::cut_words::cut_words;
use crate::refusal::Refusal;
use qm_index::Index;
use std::alloc::{AllocError, Global};

/// Adds a document with the words of a text, which ASCII spaces part, to the open segment. Costs what
/// [`Index::add_document`] does.
///
/// Refused with [`Refusal::NotText`] exactly where the bytes are not UTF-8; else as [`Index::add_document`] is.
pub fn add_text(alloc: Global, index: &mut Index, text: &[u8]) -> Result<(), Refusal>
    ensures added { OnOk result (indexed index.new ≡ with_document_of (indexed index.old) (text_draft text.now)) }
    ensures unchanged { OnErr result (indexed index.new ≡ indexed index.old) }
    ensures statistics { statistics index.new ≡ statistics index.old }
    ensures not_text { IsErrOf result Refusal.NotText ↔ ¬ IsUtf8 text.now }
    ensures refused { IfErr result (IsAddRefusal (IsUtf8 text.now) (indexed index.old).current (text_draft text.now)) }
{
    let text = text_of(text)?;
    let text = String::from_str(alloc, text)?;
    add_body(alloc, index, text)
}

/// Adds a document with these words, which stand in the bytes one behind the other, to the open segment; each ends
/// where its number says. Costs what [`Index::add_document`] does.
///
/// Refused with [`Refusal::NotWords`] or [`Refusal::NotText`] only where these are no words: numbers that do not
/// ascend within the bytes, or a word that is not UTF-8 or has a space; else as [`Index::add_document`] is.
pub fn add_words(
    alloc: Global,
    index: &mut Index,
    bytes: &[u8],
    ends: &[usize],
) -> Result<(), Refusal>
    ensures added { OnOk result (indexed index.new ≡ with_document_of (indexed index.old) (words_draft (words_from 0 ends.now bytes.now))) }
    ensures good { OnOk result (AreWords 0 ends.now bytes.now) }
    ensures unchanged { OnErr result (indexed index.new ≡ indexed index.old) }
    ensures statistics { statistics index.new ≡ statistics index.old }
    ensures refused { IfErr result
        (IsAddRefusal (AreWords 0 ends.now bytes.now) (indexed index.old).current (words_draft (words_from 0 ends.now bytes.now))) }
{
    let words = cut_words(alloc, bytes, ends)?;
    let text = text_of_words(alloc, words.as_slice())?;
    add_body(alloc, index, text)
}

/// Deletes the document of this number over all segments. It keeps its number, as all others do; to delete it again
/// changes nothing more. Costs what [`Index::delete`] does.
///
/// Refused with [`Refusal::NoDocument`] exactly where there is none, want of memory aside.
pub fn delete(alloc: Global, index: &mut Index, number: u64) -> Result<(), Refusal>
    ensures deleted { OnOk result (IsDeleted number index.old index.new) }
    ensures unchanged { OnErr result (IsSame index.old index.new) }
    ensures refused { IfErr result (IsDeleteRefusal number (indexed index.old)) }
{
    if index.delete(alloc, number)? {
        Ok(())
    } else {
        Err(Refusal::NoDocument)
    }
}

// Adds a document of this text.
fn add_body(alloc: Global, index: &mut Index, text: String) -> Result<(), Refusal>
    ensures added { OnOk result (indexed index.new ≡ with_document_of (indexed index.old) (text_draft (string_bytes text))) }
    ensures unchanged { OnErr result (indexed index.new ≡ indexed index.old) }
    ensures statistics { statistics index.new ≡ statistics index.old }
    ensures refused { IfErr result (IsAddRefusal (Unit {0}) (indexed index.old).current (text_draft (string_bytes text))) }
{
    let texts = vec![in alloc; (body(), text)]?;
    index.add_document(alloc, texts)?;
    Ok(())
}

// The words, each with a space behind it.
fn text_of_words(alloc: Global, words: &[&str]) -> Result<String, AllocError>
    ensures { IfOk result (λ text. string_bytes text ≡ spaced (map (λ w. w.now) words.now)) }
{
    let mut text = String::new(alloc);
    // the text has the words before this one
    for word in words {
        text.push_str(word)?;
        text.push(' ')?;
    }
    Ok(text)
}
