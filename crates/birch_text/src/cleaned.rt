//! Texts that are printed, and steer no terminal.

use std::fmt;
use std::fmt::Write;

/// Whether a letter may steer a terminal, or have what stands around it shown in another order: a control letter, one
/// that ends a line, or one that sets a direction of writing.
pub fn is_steering(letter: char) -> bool {
    match letter {
        '\u{61c}' | '\u{200e}' | '\u{200f}' => true,
        '\u{2028}'..='\u{202e}' | '\u{2066}'..='\u{2069}' => true,
        _ => letter.is_control(),
    }
}

/// A text as it is printed in a line: a space stands for a tab, and a `?` for each other letter that may steer a terminal.
#[derive(Clone, Copy)]
pub struct Cleaned<'a>(pub &'a str);

impl<'a> fmt::Display for Cleaned<'a> {
    fn fmt<W: fmt::Write>(&self, f: &mut fmt::Formatter<W>) -> fmt::Result {
        // the letters before this one are written
        for letter in self.0.chars() {
            let shown = match letter {
                '\t' => ' ',
                letter if is_steering(letter) => '?',
                letter => letter,
            };
            f.write_char(shown)?;
        }
        Ok(())
    }
}

/// A line of JSON in which each letter that may steer a terminal is written by its number. JSON has such letters within
/// texts alone, where that is the same letter.
#[derive(Clone, Copy)]
pub struct EscapedJson<'a>(pub &'a str);

impl<'a> fmt::Display for EscapedJson<'a> {
    fn fmt<W: fmt::Write>(&self, f: &mut fmt::Formatter<W>) -> fmt::Result {
        // the letters before this one are written
        for letter in self.0.chars() {
            if is_steering(letter) {
                let number = u32::from(letter);
                write!(f, "\\u{number:04x}")?;
            } else {
                f.write_char(letter)?;
            }
        }
        Ok(())
    }
}
