//! The words of a line, read one after another.

ghost use Rattle.std.specs.Prelude.{IfSome, IsOkUnless, ◌≤ℤ◌, ◌≡◌, ℕ, None, ◌^◌, ◌<◌, ◌∷◌, [], IfOk, SomeIff, drop};
ghost use Rattle.std.specs.Prelude.{option_map, pos, string_bytes};
ghost use Rattle.std.specs.Str.{IsCharBoundary};
ghost use Rattle.std.specs.Str.Parse.{IsNumeral, digits_value};
ghost use Rattle.qm_script.specs.FirstWord.{IsFirstWord};
ghost use Rattle.qm_script.specs.Script.{is_blank, line_words, number_below, threshold_of};

use crate::form::occur_of;
use crate::non_negative_score::NonNegativeScore;
use crate::unparsed::Unparsed;
use qm_docset::Score;
use qm_schema::Occur;
use std::alloc::Global;

// Where the first word from a place on begins and ends.
fn find_word(line: &str, from: usize) -> Option<(usize, usize)>
    requires { IsCharBoundary line.now from }
    ensures found { IfSome result (λ at. IsFirstWord line.now from at.0 at.1) }
    ensures none { result ≡ None → line_words (drop from line.now) ≡ [] }
{
    let bytes = line.as_bytes();
    let mut start = from;
    // only blanks stand before start, and none from there on
    for at in from..bytes.len() {
        if is_blank(bytes[at]) {
            if start < at {
                return Some((start, at));
            }
            start = at + 1;
        }
    }
    if start < bytes.len() {
        return Some((start, bytes.len()));
    }
    None
}

// A space or a tab.
fn is_blank(byte: u8) -> bool
    ensures { result ≡ is_blank byte }
{
    byte == b' ' || byte == b'\t'
}

/// Reads the words of a line, which is cut at spaces and tabs, from the first on.
#[derive(Drop)]
pub(crate) struct Words<'a> {
    line: &'a str,
    at: usize,
    ghost boundary: { IsCharBoundary line.now at },
}

impl<'a> Words<'a> {
    ghost use Rattle.qm_script.specs.Cursor.{words_left};
    ghost use Rattle.qm_script.specs.Script.{AreWords, count_word_at, document_at, score_at, sign_at, many_at, threshold_at, whole, word_at};
    ghost use Rattle.qm_postings.specs.Document.{words_of};
    ghost use Rattle.qm_script.specs.Spelled.{Gives, Reads, texts};

    /// All words of this line.
    pub(crate) fn new(line: &'a str) -> Words<'a>
        ensures { words_left result ≡ line_words line.now }
    {
        Words { line, at: 0 }
    }

    /// The next word, or none where all are read.
    pub(crate) fn next_word(&mut self) -> Option<&'a str>
        ensures word { IfSome result (λ w. words_left self.old ≡ w.now ∷ words_left self.new) }
        ensures none { result ≡ None → words_left self.old ≡ [] }
    {
        let line = self.line;
        let (start, end) = find_word(line, self.at)?;
        self.at = end;
        Some(&line[start..end])
    }

    /// The next word.
    pub(crate) fn word(&mut self) -> Result<&'a str, Unparsed>
        ensures { Reads (λ w. w.now) result (words_left self.new) (word_at (words_left self.old)) }
    {
        match self.next_word() {
            Some(word) => Ok(word),
            None => Err(Unparsed::NotUnderstood),
        }
    }

    /// A number up to 4294967295.
    #[tactic(auto, unfolding(crate::specs::Script::count_word_at))]
    pub(crate) fn count(&mut self) -> Result<u32, Unparsed>
        ensures { Reads (λ n. n) result (words_left self.new) (count_word_at (words_left self.old)) }
    {
        match parse_count(self.word()?) {
            Some(count) => Ok(count),
            None => Err(Unparsed::NotUnderstood),
        }
    }

    /// A number up to 9223372036854775807.
    #[tactic(auto, unfolding(crate::specs::Script::score_at))]
    pub(crate) fn score(&mut self) -> Result<NonNegativeScore, Unparsed>
        ensures { Reads (λ s. s.score) result (words_left self.new) (score_at (words_left self.old)) }
    {
        match parse_score(self.word()?) {
            Some(score) => Ok(NonNegativeScore::new(score)),
            None => Err(Unparsed::NotUnderstood),
        }
    }

    /// A document's number, up to 18446744073709551615.
    #[tactic(auto, unfolding(crate::specs::Script::document_at))]
    pub(crate) fn document(&mut self) -> Result<u64, Unparsed>
        ensures { Reads (λ n. n) result (words_left self.new) (document_at (words_left self.old)) }
    {
        match parse_document(self.word()?) {
            Some(number) => Ok(number),
            None => Err(Unparsed::NotUnderstood),
        }
    }

    /// A threshold, from -9223372036854775808 to 9223372036854775807.
    #[tactic(auto, unfolding(crate::specs::Script::threshold_at))]
    pub(crate) fn threshold(&mut self) -> Result<Score, Unparsed>
        ensures { Reads (λ t. t) result (words_left self.new) (threshold_at (words_left self.old)) }
    {
        match parse_threshold(self.word()?) {
            Some(threshold) => Ok(threshold),
            None => Err(Unparsed::NotUnderstood),
        }
    }

    /// The sign of a clause.
    #[tactic(auto, unfolding(crate::specs::Script::sign_at))]
    pub(crate) fn sign(&mut self) -> Result<Occur, Unparsed>
        ensures { Reads (λ o. o) result (words_left self.new) (sign_at (words_left self.old)) }
    {
        match occur_of(self.word()?) {
            Some(occur) => Ok(occur),
            None => Err(Unparsed::NotUnderstood),
        }
    }

    /// The next word, as a text of its own.
    pub(crate) fn text(&mut self, alloc: Global) -> Result<String, Unparsed>
        ensures { Reads string_bytes result (words_left self.new) (word_at (words_left self.old)) }
    {
        Ok(String::from_str(alloc, self.word()?)?)
    }

    /// The next words, each as a text of its own.
    pub(crate) fn texts(&mut self, alloc: Global, count: u32) -> Result<Vec<String>, Unparsed>
        ensures { Reads (λ v. texts v.items) result (words_left self.new) (many_at word_at count (words_left self.old)) }
    {
        let mut texts = Vec::new(alloc);
        // the words before this one are there
        for _ in 0..count {
            texts.push(self.text(alloc)?)?;
        }
        Ok(texts)
    }

    /// All words that are left, in one text that spaces part.
    pub(crate) fn rest(&mut self, alloc: Global) -> Result<String, Unparsed>
        requires { AreWords (words_left self.old) }
        ensures text { IfOk result (λ t. words_of (string_bytes t) ≡ words_left self.old) }
        ensures refused { IsOkUnless result Unparsed.Memory }
    {
        let mut text = String::new(alloc);
        // the text has the words before this one
        while let Some(word) = self.next_word() {
            text.push_str(word)?;
            text.push(' ')?;
        }
        Ok(text)
    }

    /// That no word is left.
    pub(crate) fn end(&self) -> Result<(), Unparsed>
        ensures { Gives (λ u. u) result (whole (tt, words_left self.now)) }
    {
        match find_word(self.line, self.at) {
            Some(_) => Err(Unparsed::NotUnderstood),
            None => Ok(()),
        }
    }
}

// Decimal digits, with leading zeros or none, up to 4294967295.
fn parse_count(text: &str) -> Option<u32>
    ensures { result ≡ number_below (2 ^ 32) text.now }
{
    u32::try_from(parse_digits(text)?).ok()
}

// Decimal digits, with leading zeros or none, up to 9223372036854775807.
fn parse_score(text: &str) -> Option<Score>
    ensures not_negative { IfSome result (λ s. pos 0 ≤ℤ s) }
    ensures value { result ≡ option_map pos (number_below (2 ^ 63) text.now) }
{
    Score::try_from(parse_digits(text)?).ok()
}

// Decimal digits, with leading zeros or none, up to 18446744073709551615.
fn parse_document(text: &str) -> Option<u64>
    ensures { result ≡ number_below (2 ^ 64) text.now }
{
    parse_digits(text)
}

// Decimal digits up to 9223372036854775807, or a `-` and decimal digits up to 9223372036854775808.
fn parse_threshold(text: &str) -> Option<Score>
    ensures { result ≡ threshold_of text.now }
{
    if text.starts_with('+') {
        return None;
    }
    text.parse().ok()
}

// Decimal digits, with leading zeros or none, up to 18446744073709551615.
fn parse_digits(text: &str) -> Option<u64>
    ensures { SomeIff result (IsNumeral 10 text.now × (digits_value 10 text.now < 2 ^ 64)) (digits_value 10 text.now) }
{
    if text.starts_with('+') {
        return None;
    }
    text.parse().ok()
}
