//! Words that stand in some bytes, one behind the other.

ghost use Rattle.std.specs.Prelude.{◌≡◌, IfErr, IfOk, OnOk, map};
ghost use Rattle.birchagain.specs.CutWords.{AreWords, IsCutRefusal, IsTextBetween, IsWord, bytes_between, words_from};

use crate::body::text_of;
use crate::refusal::Refusal;
use std::alloc::Global;

/// The words that stand in the bytes one behind the other, of which each ends where its number says.
///
/// Refused with [`Refusal::NotWords`] or [`Refusal::NotText`] only where these are no words; else for want of memory.
pub(crate) fn cut_words<'a>(
    alloc: Global,
    bytes: &'a [u8],
    ends: &[usize],
) -> Result<Vec<&'a str>, Refusal>
    ensures words { IfOk result (λ words. map (λ w. w.now) words.items ≡ words_from 0 ends.now bytes.now) }
    ensures good { OnOk result (AreWords 0 ends.now bytes.now) }
    ensures refused { IfErr result (IsCutRefusal (AreWords 0 ends.now bytes.now)) }
{
    let mut words = Vec::with_capacity(alloc, ends.len())?;
    let mut start = 0;
    // the words that end before `start` are there, and good
    for end in ends {
        let word = word_between(bytes, start, *end)?;
        words.push(word)?;
        start = *end;
    }
    Ok(words)
}

/// The text that the bytes from one place to another are, which has one byte at least.
///
/// Refused with [`Refusal::NotWords`] or [`Refusal::NotText`] only where they are none.
pub(crate) fn text_between(bytes: &[u8], start: usize, end: usize) -> Result<&str, Refusal>
    ensures text { IfOk result (λ text. text.now ≡ bytes_between start end bytes.now) }
    ensures good { OnOk result (IsTextBetween start end bytes.now) }
    ensures refused { IfErr result (IsCutRefusal (IsTextBetween start end bytes.now)) }
{
    if start >= end || end > bytes.len() {
        return Err(Refusal::NotWords);
    }
    text_of(&bytes[start..end])
}

// The word that they are.
fn word_between(bytes: &[u8], start: usize, end: usize) -> Result<&str, Refusal>
    ensures word { IfOk result (λ word. word.now ≡ bytes_between start end bytes.now) }
    ensures good { OnOk result (IsWord start end bytes.now) }
    ensures refused { IfErr result (IsCutRefusal (IsWord start end bytes.now)) }
{
    let word = text_between(bytes, start, end)?;
    if word.contains(' ') {
        return Err(Refusal::NotWords);
    }
    Ok(word)
}
