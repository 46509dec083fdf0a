ghost use Rattle.std.specs.Prelude.{◌≡◌, ◌+◌, ◌<◌, IfOk, drop, length, option_map, take};
ghost use Rattle.bitstrings.specs.Texts.{bitstrings_of, digit_of, number_after, sum_of, sums_of, words_of};

use crate::bits::Bits;
use peg_text::{NoMemory, read_decimal};
use std::alloc::Global;

/// How many digits 32 words have.
const WORD_DIGITS: usize = 256;

/// The most sums that a node keeps.
const MOST_SUMS: usize = 257;

/// The 32 words that a text writes. `None` where it is not 256 hexadecimal digits, letters in lower case.
pub fn read_words(text: &[u8]) -> Option<[u32; 32]>
    ensures { result ≡ words_of text.now }
{
    if text.len() != WORD_DIGITS {
        return None;
    }
    let mut words = [0; 32];
    for l in 0..32 {
        words[l] = read_word(&text[8 * l..8 * l + 8])?;
    }
    Some(words)
}

/// What a text of 256 digits and then of 1 to 257 sums writes, each sum behind a colon and at most 1,024. `None` where
/// it is no such text.
pub fn read_bits(alloc: Global, text: &[u8]) -> Result<Option<Bits>, NoMemory>
    ensures { IfOk result (λ found. found ≡ bitstrings_of text.now) }
{
    if text.len() <= WORD_DIGITS {
        return Ok(None);
    }
    if text[WORD_DIGITS] != b':' {
        return Ok(None);
    }
    let (digits, decimals) = around(text, WORD_DIGITS);
    let Some(words) = read_words(digits) else {
        return Ok(None);
    };
    match read_sums(alloc, decimals)? {
        Some(sums) => Ok(Some(Bits { words, sums })),
        None => Ok(None),
    }
}

/// What stands before a place of the text, and what stands after it.
fn around(text: &[u8], at: usize) -> (&[u8], &[u8])
    requires { at < length text.now }
    ensures before { result.0.now ≡ take at text.now }
    ensures after { result.1.now ≡ drop (at + 1) text.now }
{
    (&text[..at], &text[at + 1..])
}

/// The number that eight digits write.
fn read_word(text: &[u8]) -> Option<u32>
    requires { length text.now ≡ 8 }
    ensures { result ≡ number_after 0 text.now }
{
    let mut word: u32 = 0;
    for byte in text {
        word = 16 * word + u32::from(read_digit(*byte)?);
    }
    Some(word)
}

/// The value of a digit.
fn read_digit(byte: u8) -> Option<u8>
    ensures { result ≡ digit_of byte }
{
    match byte {
        b'0'..=b'9' => Some(byte - b'0'),
        b'a'..=b'f' => Some(byte - (b'a' - 10)),
        _ => None,
    }
}

/// The sums of a text, with a colon between each two.
fn read_sums(alloc: Global, text: &[u8]) -> Result<Option<Vec<u16>>, NoMemory>
    ensures { IfOk result (λ found. option_map (λ sums. sums.items) found ≡ sums_of text.now) }
{
    let mut sums = Vec::new(alloc);
    for part in text.split(|byte| *byte == b':') {
        match read_sum(part) {
            Some(sum) => sums.push(sum)?,
            None => return Ok(None),
        }
    }
    if sums.len() > MOST_SUMS {
        return Ok(None);
    }
    Ok(Some(sums))
}

/// A decimal of at most 1,024.
fn read_sum(text: &[u8]) -> Option<u16>
    ensures { result ≡ sum_of text.now }
{
    let sum = read_decimal(text)?;
    if sum <= 1024 { Some(sum as u16) } else { None }
}
