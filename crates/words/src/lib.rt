//! The words that a program is started with, and what stands in one.
#![tactic(auto)]

ghost use Rattle.std.specs.Prelude.{◌≡◌, ◌≤◌, map, IfSome};
ghost use Rattle.std.specs.String.{string_bytes};
ghost use Rattle.words.specs.Words.{number_between, word_at};

pub mod laws;

use peg_text::read_decimal;

/// The bytes of a word, numbered from 0, and none where there is no such word.
pub fn bytes_at(words: &[String], at: usize) -> &[u8]
    ensures { result.now ≡ word_at (map string_bytes words.now) at }
{
    match words.get(at) {
        Some(word) => word.as_bytes(),
        None => b"",
    }
}

/// The number that a text writes in decimal, if it is from `least` to `most`. Leading zeros are accepted.
pub fn number_between(least: u64, most: u64, text: &[u8]) -> Option<u64>
    ensures value { result ≡ number_between least most text.now }
    ensures at_least { IfSome result (λ number. least ≤ number) }
    ensures at_most { IfSome result (λ number. number ≤ most) }
{
    let number = read_decimal(text)?;
    if number < least || number > most {
        return None;
    }
    Some(number)
}
